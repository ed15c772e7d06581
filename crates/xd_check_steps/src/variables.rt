//! The variables in scope.

ghost use Rattle.std.specs.Prelude.{◌≡◌, ◌-◌, ◌∷◌, [], length, drop, OnOk};
ghost use Rattle.xd_check_steps.specs.InScope.{state_of};

use std::alloc::Global;
use std::marker::Model;
use xd_auto::State;
use xd_doc::{Label, NoMemory};

/// A variable, and the state that accepts what it may be.
#[derive(Drop)]
pub struct Variable {
    pub name: Label,
    pub state: State,
}

/// The variables in scope. Contracts see the newest first.
#[derive(Drop)]
pub struct Variables {
    variables: Vec<Variable>,
}

impl Model for Variables {
    ghost use Rattle.std.specs.Prelude.{List, reverse};
    ghost use Rattle.xd_check_steps.specs.declared.variables.Variable.{Variable};

    ghost Value = { List Variable };

    ghost view = { λ s. reverse s.variables.items };
}

impl Variables {
    /// With no variable. It takes no memory.
    pub fn new(alloc: Global) -> Self
        ensures { result ≡ [] }
    {
        Self {
            variables: Vec::new(alloc),
        }
    }

    pub fn len(&self) -> usize
        ensures { result ≡ length self.now }
    {
        self.variables.len()
    }

    /// One more variable, which hides older ones of its name.
    ///
    /// After `NoMemory` nothing is said of the variables.
    pub fn push(&mut self, variable: Variable) -> Result<(), NoMemory>
        ensures { OnOk result (self.new ≡ variable ∷ self.old) }
    {
        self.variables.push(variable)?;
        Ok(())
    }

    /// Forgets the newest variables, so that so many are left.
    pub fn truncate(&mut self, count: usize)
        ensures { self.new ≡ drop (length self.old - count) self.old }
    {
        self.variables.truncate(count);
    }

    /// The state of the newest variable of the name.
    pub fn find(&self, name: &Label) -> Option<State>
        ensures { result ≡ state_of self.now name.now }
    {
        for number in (0..self.variables.len()).rev() {
            let variable = &self.variables[number];
            if variable.name == *name {
                return Some(variable.state);
            }
        }
        None
    }
}

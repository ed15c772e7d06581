//! Variables in scope.

ghost use Rattle.std.specs.Prelude.{◌≡◌, ◌-◌, ◌<◌, ◌++◌, ◌∷◌, [], length, take, OnOk};
ghost use Rattle.xd_syntax.specs.Words.{has_word};

use std::alloc::Global;
use std::collections::BTreeMap;
use std::marker::Model;
use xd_doc::{Label, NoMemory};

/// Variables in the order in which they came into scope, and how often each of them did.
#[derive(Drop)]
pub(crate) struct Scope {
    variables: Vec<Label>,
    counts: BTreeMap<Label, usize>,
}

impl Model for Scope {
    ghost use Rattle.std.specs.Prelude.{List, ℕ};
    ghost use Rattle.xd_names.specs.Counts.{AreCounted};

    ghost Value = { List (List ℕ) };

    ghost view = { λ s. s.variables.items };

    ghost invariant = { λ s. AreCounted s.counts s.variables.items };
}

impl Scope {
    /// With no variable.
    pub fn new(alloc: Global) -> Self
        ensures { result ≡ [] }
    {
        Self {
            variables: Vec::new(alloc),
            counts: BTreeMap::new(alloc),
        }
    }

    /// How many variables are in scope, each as often as it was brought there.
    pub fn len(&self) -> usize
        ensures { result ≡ length self.now }
    {
        self.variables.len()
    }

    /// Whether the variable is in scope.
    pub fn has(&self, word: &Label) -> bool
        ensures { result ≡ has_word self.now word.now }
    {
        match self.counts.get(word) {
            Some(count) => *count > 0,
            None => false,
        }
    }

    /// The variables in scope, the innermost last.
    pub fn variables(&self) -> &[Label]
        ensures { result.now ≡ self.now }
    {
        self.variables.as_slice()
    }

    /// Brings a variable into scope, as the innermost.
    pub fn push(&mut self, word: &Label) -> Result<(), NoMemory>
        ensures { OnOk result (self.new ≡ self.old ++ word.now ∷ []) }
    {
        let variable = word.share()?;
        let key = word.share()?;
        let count = self.counts.get(word).copied().unwrap_or(0);
        self.variables.push(variable)?;
        if self.counts.insert(key, count + 1).is_err() {
            self.variables.pop();
            return Err(NoMemory);
        }
        Ok(())
    }

    fn pop(&mut self)
        requires { 0 < length self.old }
        ensures { self.new ≡ take (length self.old - 1) self.old }
    {
        if let Some(word) = self.variables.pop() {
            if let Some(count) = self.counts.get_mut(&word) {
                *count -= 1;
            }
        }
    }

    /// Drops the variables after the first so many.
    pub fn truncate(&mut self, count: usize)
        ensures { self.new ≡ take count self.old }
    {
        while self.len() > count {
            self.pop();
        }
    }
}

//! The continuations of an automaton's states.

ghost use Rattle.std.specs.List.{slice_get};
ghost use Rattle.std.specs.Option.{IfSome, IfNone};
ghost use Rattle.std.specs.Prelude.{◌≡◌, length, OnOk, OnErr, []};
ghost use Rattle.xd_doc.specs.Members.{IsOneOf};
ghost use Rattle.xd_heads.specs.States.{AddsNumber, EachOnce, number_at};

use indexmap::IndexSet;
use std::alloc::Global;
use std::marker::Model;
use xd_doc::NoMemory;

/// The number of each state's continuation, in the order of the states. Each continuation has one
/// state at most.
#[derive(Drop)]
pub(crate) struct States {
    numbers: IndexSet<usize>,
}

impl Model for States {
    ghost use Rattle.std.specs.Prelude.{List, ℕ};
    ghost use Rattle.xd_heads.specs.States.{EachOnce};

    ghost Value = { List ℕ };

    ghost view = { λ s. s.numbers.keys };

    ghost invariant = { λ s. EachOnce s.numbers.keys };
}

impl States {
    /// No state.
    pub(crate) fn new(alloc: Global) -> Self
        ensures { result ≡ [] }
    {
        Self {
            numbers: IndexSet::new(alloc),
        }
    }

    /// The number of states.
    pub(crate) fn len(&self) -> usize
        ensures count { result ≡ length self.now }
        ensures once { EachOnce self.now }
    {
        self.numbers.len()
    }

    /// The number of the continuation of a state.
    pub(crate) fn continuation(&self, state: usize) -> Option<usize>
        ensures { result ≡ number_at self.now state }
    {
        self.numbers.as_slice().get(state).copied()
    }

    /// The state whose continuation has this number.
    pub(crate) fn find(&self, number: usize) -> Option<usize>
        ensures found { IfSome result (λ state. slice_get self.now state ≡ Some number) }
        ensures none { IfNone result (IsOneOf number self.now → ⊥) }
    {
        self.numbers.get_index_of(&number)
    }

    /// The continuation with this number is a state.
    pub(crate) fn add(&mut self, number: usize) -> Result<(), NoMemory>
        ensures ok { OnOk result (AddsNumber self.old number self.new) }
        ensures err { OnErr result (self.new ≡ self.old) }
    {
        self.numbers.insert_full(number)?;
        Ok(())
    }
}

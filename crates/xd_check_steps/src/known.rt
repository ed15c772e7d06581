//! What is known of the states of the automaton in which expressions are states.

ghost use Rattle.xd_check_steps.specs.Known.{IsKnown};

use std::alloc::Global;
use xd_auto::Auto;
use xd_doc::Store;
use xd_goals::{Table, new_tables_stand};
use xd_least::LeastInhabitants;

/// What is known of the states: least documents that they accept, and which of them accept no more
/// than others. The automaton only grows, so what is known stays known.
#[derive(Drop)]
pub struct Known {
    pub inhabitants: LeastInhabitants,
    pub table: Table,
}

impl Known {
    /// Nothing is known yet.
    pub fn new(alloc: Global, auto: &Auto, store: &Store) -> Self
        ensures { IsKnown auto.now store.now result }
    {
        let table = Table::new(alloc);
        new_tables_stand(auto, store);
        Self {
            inhabitants: LeastInhabitants::new(alloc),
            table,
        }
    }
}

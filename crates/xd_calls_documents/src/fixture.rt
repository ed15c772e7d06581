//! What the calls work on.

use crate::automata::auto;
use crate::classes::{labels, texts};
use crate::documents::store;
use crate::named::Names;
use crate::reports::report;
use std::alloc::Global;
use xd_auto::Auto;
use xd_calls_lines::{Call, CallError, Fixture};
use xd_doc::Store;

/// Documents and their names, and an automaton and the names of its states.
#[derive(Drop)]
pub struct DocumentFixture {
    pub(crate) store: Store,
    pub(crate) documents: Names,
    pub(crate) auto: Auto,
    pub(crate) states: Names,
}

impl DocumentFixture {
    /// With no document and no state.
    pub fn new(alloc: Global) -> DocumentFixture {
        DocumentFixture {
            store: Store::new(alloc),
            documents: Names::new(alloc),
            auto: Auto::new(alloc),
            states: Names::new(alloc),
        }
    }
}

impl Fixture for DocumentFixture {
    fn answer(&mut self, call: &Call<'_>, out: &mut Vec<u8>) -> Result<(), CallError> {
        match call.name {
            "store" => store(self, &call.of_subject(), out),
            "auto" => auto(self, &call.of_subject(), out),
            "report" => report(self, &call.of_subject(), out),
            "class" => labels(&call.of_subject(), out),
            "texts" => texts(&call.of_subject(), out),
            _ => Err(CallError::Call),
        }
    }
}

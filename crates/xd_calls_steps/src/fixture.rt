//! The shelf that the calls read, and where each is made.

use crate::loads::load;
use crate::outputs::output;
use std::alloc::Global;
use xd_base::MemoryShelf;
use xd_calls_lines::{Call, CallError, Fixture};

/// A shelf in memory.
#[derive(Drop)]
pub struct StepFixture {
    shelf: MemoryShelf,
}

impl StepFixture {
    /// With no program yet.
    pub fn new(alloc: Global) -> StepFixture {
        StepFixture {
            shelf: MemoryShelf::new(alloc),
        }
    }
}

impl Fixture for StepFixture {
    fn answer(&mut self, call: &Call<'_>, out: &mut Vec<u8>) -> Result<(), CallError> {
        let about = call.of_subject();
        match call.name {
            "load" => load(&mut self.shelf, &about, out),
            "output" => output(&about, out),
            _ => Err(CallError::Call),
        }
    }
}

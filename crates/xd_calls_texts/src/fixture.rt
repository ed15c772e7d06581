//! What the calls work on.

use crate::lexing::lex;
use crate::naming::name;
use crate::outside::{shelf, sink};
use crate::programs::{program, types};
use std::alloc::Global;
use xd_base::{MemoryShelf, MemorySink};
use xd_calls_lines::{Call, CallError, Fixture};
use xd_calls_programs::Programs;

/// A shelf and a sink, and the programs and types that were read.
#[derive(Drop)]
pub struct ProgramFixture {
    shelf: MemoryShelf,
    sink: Option<MemorySink>,
    programs: Programs,
}

impl ProgramFixture {
    /// With no program yet.
    pub fn new(alloc: Global) -> ProgramFixture {
        ProgramFixture {
            shelf: MemoryShelf::new(alloc),
            sink: None,
            programs: Programs::new(alloc),
        }
    }
}

impl Fixture for ProgramFixture {
    fn answer(&mut self, call: &Call<'_>, out: &mut Vec<u8>) -> Result<(), CallError> {
        let about = call.of_subject();
        match call.name {
            "shelf" => shelf(&mut self.shelf, &about, out),
            "sink" => sink(&mut self.sink, &about, out),
            "lex" => lex(&about, out),
            "name" => name(&about, out),
            "program" => program(&mut self.programs, &about, out),
            "types" => types(&mut self.programs, &about, out),
            _ => Err(CallError::Call),
        }
    }
}

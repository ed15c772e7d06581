//! What the calls work on.

use crate::documents::documents;
use crate::plain_calls::plain;
use std::alloc::Global;
use xd_calls_lines::{Call, CallError, Fixture};
use xd_calls_programs::{Programs, show_read_program, show_read_type, show_soundness};

/// The programs and types that were read.
#[derive(Drop)]
pub struct PlainFixture {
    programs: Programs,
}

impl PlainFixture {
    /// With no program yet.
    pub fn new(alloc: Global) -> PlainFixture {
        PlainFixture {
            programs: Programs::new(alloc),
        }
    }
}

impl Fixture for PlainFixture {
    fn answer(&mut self, call: &Call<'_>, out: &mut Vec<u8>) -> Result<(), CallError> {
        let about = call.of_subject();
        match call.name {
            "program" => program(&mut self.programs, &about, out),
            "types" => show_read_type(&mut self.programs, about.text, out),
            "plain" => plain(&self.programs, &about, out),
            "documents" => documents(&about, out),
            _ => Err(CallError::Call),
        }
    }
}

/// `parse_program`, and `well_formed` of the program that was read last.
fn program(programs: &mut Programs, call: &Call<'_>, out: &mut Vec<u8>) -> Result<(), CallError> {
    match call.name {
        "parse_program" => show_read_program(programs, call.text, out),
        "well_formed" => show_soundness(programs, out),
        _ => Err(CallError::Call),
    }
}

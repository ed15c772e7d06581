//! The program that the calls are about, and where each is made.

use crate::matches::{show_met, show_scrutinees};
use crate::programs::show_check;
use std::alloc::Global;
use xd_calls_lines::{Call, CallError, Fixture};
use xd_calls_programs::Case;

/// The program of the case.
#[derive(Drop)]
pub struct CheckedFixture {
    case: Case,
}

impl CheckedFixture {
    /// With no program yet.
    pub fn new(alloc: Global) -> CheckedFixture {
        CheckedFixture {
            case: Case::new(alloc),
        }
    }
}

impl Fixture for CheckedFixture {
    fn answer(&mut self, call: &Call<'_>, out: &mut Vec<u8>) -> Result<(), CallError> {
        self.case.take(call.text)?;
        let about = call.about(self.case.program());
        match call.name {
            "check" => show_check(&about, out),
            "scrutinees" => show_scrutinees(&about, out),
            "met_matches" => show_met(&about, out),
            _ => Err(CallError::Call),
        }
    }
}

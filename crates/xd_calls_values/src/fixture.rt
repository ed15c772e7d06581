//! The program that the calls are about, and where each is made.

use crate::values::show_values;
use std::alloc::Global;
use xd_calls_lines::{Call, CallError, Fixture};
use xd_calls_programs::Case;

/// The program of the case.
#[derive(Drop)]
pub struct ValueFixture {
    case: Case,
}

impl ValueFixture {
    /// With no program yet.
    pub fn new(alloc: Global) -> ValueFixture {
        ValueFixture {
            case: Case::new(alloc),
        }
    }
}

impl Fixture for ValueFixture {
    fn answer(&mut self, call: &Call<'_>, out: &mut Vec<u8>) -> Result<(), CallError> {
        self.case.take(call.text)?;
        let about = call.about(self.case.program());
        match call.name {
            "values" => show_values(&about, out),
            _ => Err(CallError::Call),
        }
    }
}

//! The program that the calls are about.

use crate::made::show_proof;
use std::alloc::Global;
use xd_calls_lines::{Call, CallError, Fixture};
use xd_calls_programs::Case;

/// The program of the case.
#[derive(Drop)]
pub struct ProofFixture {
    case: Case,
}

impl ProofFixture {
    /// With no program yet.
    pub fn new(alloc: Global) -> ProofFixture {
        ProofFixture {
            case: Case::new(alloc),
        }
    }
}

impl Fixture for ProofFixture {
    fn answer(&mut self, call: &Call<'_>, out: &mut Vec<u8>) -> Result<(), CallError> {
        self.case.take(call.text)?;
        show_proof(&call.about(self.case.program()), out)
    }
}

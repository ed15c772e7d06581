//! What the calls work on, and where each is made.

use crate::pool::pool;
use crate::states::states;
use std::alloc::Global;
use xd_calls_lines::{Call, CallError, Fixture};
use xd_calls_programs::Case;
use xd_calls_tables::{table_calls, token_calls};
use xd_same_types::Pool;

/// The program of the case, and a table of types in which each form is made once.
#[derive(Drop)]
pub struct PartFixture {
    case: Case,
    pool: Pool,
}

impl PartFixture {
    /// With no program yet.
    pub fn new(alloc: Global) -> PartFixture {
        PartFixture {
            case: Case::new(alloc),
            pool: Pool::new(alloc),
        }
    }
}

impl Fixture for PartFixture {
    fn answer(&mut self, call: &Call<'_>, out: &mut Vec<u8>) -> Result<(), CallError> {
        let about = call.of_subject();
        match call.name {
            "tokens" => token_calls(&about, out),
            "tables" => table_calls(&about, out),
            "pool" => pool(&mut self.pool, &about, out),
            "states" => {
                self.case.take(call.text)?;
                states(&about.about(self.case.program()), out)
            }
            _ => Err(CallError::Call),
        }
    }
}

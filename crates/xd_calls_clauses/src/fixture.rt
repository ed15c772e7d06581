//! The program that the calls are about, and where each is made.

use crate::clauses::Ways;
use crate::{clauses, patterns, tracks};
use std::alloc::Global;
use xd_calls_lines::{Call, CallError, Fixture};
use xd_calls_programs::Case;

/// The program of the case.
#[derive(Drop)]
pub struct ClauseFixture {
    case: Case,
}

impl ClauseFixture {
    /// With no program yet.
    pub fn new(alloc: Global) -> ClauseFixture {
        ClauseFixture {
            case: Case::new(alloc),
        }
    }
}

impl Fixture for ClauseFixture {
    fn answer(&mut self, call: &Call<'_>, out: &mut Vec<u8>) -> Result<(), CallError> {
        self.case.take(call.text)?;
        answer(&call.about(self.case.program()), out)
    }
}

/// Makes a call about the program that is its text.
fn answer(call: &Call<'_>, out: &mut Vec<u8>) -> Result<(), CallError> {
    match call.name {
        "uncovered" => clauses::show_uncovered(call, out),
        "live" => clauses::show_live(call, out),
        "case_types" => clauses::show_given(call, Ways::Whole, out),
        "preferred_types" => clauses::show_given(call, Ways::First, out),
        "bound" => clauses::show_bound(call, Ways::Whole, out),
        "preferred" => clauses::show_bound(call, Ways::First, out),
        "first_way" => clauses::show_first_way(call, out),
        "first_ways" => patterns::show_first_ways(call, out),
        "compiled" => patterns::show_compiled(call, out),
        "plain" => patterns::show_plain(call, out),
        "project" => tracks::show_projected(call, out),
        _ => Err(CallError::Call),
    }
}

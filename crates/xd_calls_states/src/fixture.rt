//! The program that the calls are about, and where each is made.

use crate::inclusions::{
    answer_apart, answer_decide, answer_learned, answer_least, answer_moved, answer_questions,
    answer_sizes,
};
use crate::states::{Operation, show_made, show_merged, show_universal};
use crate::streams::show_stream;
use crate::types::{TypeShown, show_inhabitant, show_type};
use std::alloc::Global;
use xd_calls_goals::{show_cut_lines, show_read_case, show_split_words};
use xd_calls_lines::{Call, CallError, Fixture};
use xd_calls_programs::Case;

/// The program of the case.
#[derive(Drop)]
pub struct StateFixture {
    case: Case,
}

impl StateFixture {
    /// With no program yet.
    pub fn new(alloc: Global) -> StateFixture {
        StateFixture {
            case: Case::new(alloc),
        }
    }
}

impl Fixture for StateFixture {
    fn answer(&mut self, call: &Call<'_>, out: &mut Vec<u8>) -> Result<(), CallError> {
        self.case.take(call.text)?;
        answer(&call.about(self.case.program()), out)
    }
}

/// Makes a call about the program that is its text.
fn answer(call: &Call<'_>, out: &mut Vec<u8>) -> Result<(), CallError> {
    match call.name {
        "heads" => show_type(call, TypeShown::Heads, out),
        "numbered" => show_type(call, TypeShown::Numbered, out),
        "sorts" => show_type(call, TypeShown::Sorts, out),
        "moves" => show_type(call, TypeShown::Moves, out),
        "state_type" => show_type(call, TypeShown::State, out),
        "inhabitant" => show_inhabitant(call, out),
        "least" => answer_least(call, out),
        "sizes" => answer_sizes(call, out),
        "learned" => answer_learned(call, out),
        "apart" => answer_apart(call, out),
        "decide" => answer_decide(call, out),
        "moved" => answer_moved(call, out),
        "questions" => answer_questions(call, out),
        "product" => show_made(call, Operation::Product, out),
        "minus" => show_made(call, Operation::Minus, out),
        "merged" => show_merged(call, out),
        "universal" => show_universal(call, out),
        "stream" => show_stream(call, out),
        "read_case" => show_read_case(call, out),
        "cut_lines" => show_cut_lines(call, out),
        "split_words" => show_split_words(call, out),
        _ => Err(CallError::Call),
    }
}

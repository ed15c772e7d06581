//! Calls about the inclusion of types that they name.

use crate::named::{named_states, states_of};
use xd_calls_goals::{
    show_apart, show_decided, show_learned, show_least, show_moved, show_questions, show_sizes,
};
use xd_calls_lines::{Call, CallError};
use xd_calls_programs::state_of;

/// `decide MOST ONE TWO`.
pub fn answer_decide(call: &Call<'_>, out: &mut Vec<u8>) -> Result<(), CallError> {
    let most = call.size(0)?;
    let (auto, one, two) = states_of(call, 1, 2)?;
    show_decided(call.alloc, &auto, one, two, most, out)
}

/// `moved ONE TWO`.
pub fn answer_moved(call: &Call<'_>, out: &mut Vec<u8>) -> Result<(), CallError> {
    let (auto, one, two) = states_of(call, 0, 1)?;
    show_moved(call.alloc, &auto, one, two, out)
}

/// `apart ONE TWO`.
pub fn answer_apart(call: &Call<'_>, out: &mut Vec<u8>) -> Result<(), CallError> {
    let (auto, one, two) = states_of(call, 0, 1)?;
    show_apart(call.alloc, &auto, one, two, out)
}

/// `questions TYPES`.
pub fn answer_questions(call: &Call<'_>, out: &mut Vec<u8>) -> Result<(), CallError> {
    let (auto, states) = named_states(call)?;
    show_questions(call.alloc, &auto, &states, out)
}

/// `least TYPE`.
pub fn answer_least(call: &Call<'_>, out: &mut Vec<u8>) -> Result<(), CallError> {
    let (auto, state) = state_of(call, 0)?;
    show_least(call.alloc, &auto, state, out)
}

/// `sizes TYPES`.
pub fn answer_sizes(call: &Call<'_>, out: &mut Vec<u8>) -> Result<(), CallError> {
    let (auto, states) = named_states(call)?;
    show_sizes(call.alloc, &auto, &states, out)
}

/// `learned TYPES`.
pub fn answer_learned(call: &Call<'_>, out: &mut Vec<u8>) -> Result<(), CallError> {
    let (auto, states) = named_states(call)?;
    show_learned(call.alloc, &auto, &states, out)
}

//! What the scrutinees of a program may be.

ghost use Rattle.std.specs.Prelude.{◌≡◌, []};

use crate::programs::checked_of;
use std::io::Write;
use xd_auto::{Auto, State};
use xd_calls_lines::{Call, CallError, show_place};
use xd_calls_programs::show_members;
use xd_scrutinees::{MatchStates, MetMatch, Scrutinee, met_matches, scrutinees};

/// Of each document that the call names whether the state accepts it.
fn show_taken(
    call: &Call<'_>,
    auto: &Auto,
    state: State,
    out: &mut Vec<u8>,
) -> Result<(), CallError> {
    if state.number() >= auto.len() {
        return Err(CallError::Unknown);
    }
    show_members(call, 0, auto, auto.state(state.number()), out)
}

/// `scrutinees DOCUMENTS`: of each match, in order, which of the documents its scrutinee may be.
pub fn show_scrutinees(call: &Call<'_>, out: &mut Vec<u8>) -> Result<(), CallError> {
    for found in &scrutinees_of(call)? {
        writeln!(out, "a match")?;
        show_taken(call, &found.auto, found.state, out)?;
    }
    Ok(())
}

fn scrutinees_of(call: &Call<'_>) -> Result<Vec<Scrutinee>, CallError> {
    let checked = checked_of(call)?;
    Ok(scrutinees(call.alloc, &checked)?)
}

/// `met_matches DOCUMENTS`: the same by states of one automaton, and with the place of each match.
pub fn show_met(call: &Call<'_>, out: &mut Vec<u8>) -> Result<(), CallError> {
    let mut auto = Auto::new(call.alloc);
    let matches = matches_in(call, &mut auto)?;
    show_matches(call, &auto, &matches, out)
}

/// The matches of the program, whose scrutinees get states of this automaton.
fn matches_in(call: &Call<'_>, auto: &mut Auto) -> Result<Vec<MetMatch>, CallError>
    requires { auto.old ≡ [] }
{
    let checked = checked_of(call)?;
    let MatchStates { matches, .. } = met_matches(call.alloc, &checked, auto)?;
    Ok(matches)
}

fn show_matches(
    call: &Call<'_>,
    auto: &Auto,
    matches: &[MetMatch],
    out: &mut Vec<u8>,
) -> Result<(), CallError> {
    for found in matches {
        show_place(found.place, out)?;
        writeln!(out, " a match")?;
        show_taken(call, auto, found.state, out)?;
    }
    Ok(())
}

//! Calls about the states of two types.

ghost use Rattle.std.specs.Prelude.{IfOk};
ghost use Rattle.xd_auto.specs.Automaton.{IsState};

use crate::named::named_states;
use std::alloc::Global;
use xd_auto::{Auto, State};
use xd_boole::{is_marked, merged_at, universal_states};
use xd_calls_lines::{Call, CallError, show_answer_on};
use xd_calls_programs::{show_members, state_of};
use xd_doc::NoMemory;
use xd_points::{minus, product};

/// What is made of two states.
#[derive(Clone, Copy)]
pub enum Operation {
    Product,
    Minus,
}

/// `product ONE TWO DOCUMENTS`, `minus ONE TWO DOCUMENTS`: which of the documents the product, or
/// the difference, accepts.
pub fn show_made(
    call: &Call<'_>,
    operation: Operation,
    out: &mut Vec<u8>,
) -> Result<(), CallError> {
    let (one, first) = state_of(call, 0)?;
    let (two, second) = state_of(call, 1)?;
    show_made_of(call, operation, &one, first, &two, second, out)
}

fn show_made_of(
    call: &Call<'_>,
    operation: Operation,
    one: &Auto,
    first: State,
    two: &Auto,
    second: State,
    out: &mut Vec<u8>,
) -> Result<(), CallError>
    requires one { IsState one.now first }
    requires two { IsState two.now second }
{
    let (auto, state) = make(call.alloc, operation, one, first, two, second)?;
    show_members(call, 2, &auto, state, out)
}

fn make(
    alloc: Global,
    operation: Operation,
    one: &Auto,
    first: State,
    two: &Auto,
    second: State,
) -> Result<(Auto, State), NoMemory>
    requires one { IsState one.now first }
    requires two { IsState two.now second }
    ensures { IfOk result (λ made. IsState made.0 made.1) }
{
    match operation {
        Operation::Product => product(alloc, one, first, two, second),
        Operation::Minus => minus(alloc, one, first, two, second),
    }
}

/// `merged TYPE DOCUMENTS`: which of the documents the type's state accepts where states that are
/// like each other are made one.
pub fn show_merged(call: &Call<'_>, out: &mut Vec<u8>) -> Result<(), CallError> {
    let (auto, state) = state_of(call, 0)?;
    let (merged, at) = merged_at(call.alloc, &auto, state)?;
    show_members(call, 1, &merged, at, out)
}

/// `universal TYPES`: which of the types have a state that plainly accepts every document.
pub fn show_universal(call: &Call<'_>, out: &mut Vec<u8>) -> Result<(), CallError> {
    let (auto, states) = named_states(call)?;
    let marks = universal_states(call.alloc, &auto)?;
    for named in &states {
        show_answer_on(is_marked(&marks, named.state), named.name, out)?;
    }
    Ok(())
}

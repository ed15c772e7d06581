//! The moves of states that match a move.

ghost use Rattle.std.specs.Prelude.{◌≡◌, ◌<◌, filter, length, nat_lt, IfOk, OnOk};
ghost use Rattle.std.specs.List.{All, AllByRecursion};
ghost use Rattle.xd_auto.specs.Automaton.{IsState};
ghost use Rattle.xd_boole.specs.Matching.{AddsThose, AreMovesOf, AreMovesBefore};
ghost use Rattle.xd_boole.specs.Refusals.{AreMovesOn};

use crate::step::Step;
use std::alloc::Global;
use xd_auto::{Auto, LabelMove, State};
use xd_doc::NoMemory;

/// Those of the numbers that are below a bound.
fn below(alloc: Global, numbers: &[usize], bound: usize) -> Result<Vec<usize>, NoMemory>
    ensures { IfOk result (λ made. made.items ≡ filter (λ k. nat_lt k bound) numbers.now) }
{
    let mut made = Vec::new(alloc);
    for number in numbers {
        if *number < bound {
            made.push(*number)?;
        }
    }
    Ok(made)
}

/// Puts the moves of these numbers after others.
fn add_moves<M: Step>(made: &mut Vec<M>, moves: &[M], numbers: &[usize]) -> Result<(), NoMemory>
    requires { All (λ k. k < length moves.now) numbers.now }
    ensures { OnOk result (AddsThose moves.now numbers.now made.old.items made.new.items) }
{
    for number in numbers {
        made.push(moves[*number].share()?)?;
    }
    Ok(())
}

/// The moves of these states that match a move.
fn moves_of<M: Step>(
    alloc: Global,
    auto: &Auto,
    step: &M,
    states: &[State],
) -> Result<Vec<M>, NoMemory>
    requires { AllByRecursion (IsState auto.now) states.now }
    ensures { IfOk result (λ made. AreMovesOf M.has M.moves_in auto.now step.now states.now made.items) }
{
    let mut made = Vec::new(alloc);
    for state in states {
        let numbers = step.matching(alloc, auto, *state)?;
        add_moves(&mut made, M::moves(auto, *state), &numbers)?;
    }
    Ok(made)
}

/// The moves of these states that match a move, and those of one more state that stand before a
/// place.
pub(crate) fn matching_before<M: Step>(
    alloc: Global,
    auto: &Auto,
    step: &M,
    states: &[State],
    own: State,
    place: usize,
) -> Result<Vec<M>, NoMemory>
    requires states { AllByRecursion (IsState auto.now) states.now }
    requires own { IsState auto.now own }
    ensures { IfOk result (λ made. AreMovesBefore M.has M.moves_in auto.now step.now states.now own place made.items) }
{
    let mut made = moves_of(alloc, auto, step, states)?;
    if place == 0 {
        return Ok(made);
    }
    let numbers = step.matching(alloc, auto, own)?;
    let earlier = below(alloc, &numbers, place)?;
    add_moves(&mut made, M::moves(auto, own), &earlier)?;
    Ok(made)
}

/// The moves on an element of these states that match a move, and those of one more state that
/// stand before a place. Fails only where memory is refused.
pub fn moves_before(
    alloc: Global,
    auto: &Auto,
    step: &LabelMove,
    states: &[State],
    own: State,
    place: usize,
) -> Result<Vec<LabelMove>, NoMemory>
    requires states { AllByRecursion (IsState auto.now) states.now }
    requires own { IsState auto.now own }
    ensures { IfOk result (λ made. AreMovesOn auto.now step.now.class states.now own place made.items) }
{
    let made = matching_before(alloc, auto, step, states, own, place)?;
    Ok(made)
}

//! States that are seen to accept no document in common.

ghost use Rattle.std.specs.Prelude.{◌≡◌, true, length, IfOk};
ghost use Rattle.std.specs.List.{AllByRecursion};
ghost use Rattle.xd_auto.specs.Automaton.{IsState};
ghost use Rattle.xd_boole.specs.Groups.{is_side};
ghost use Rattle.xd_boole.specs.Disjoint.{AreDisjoint, AreDisjointSides, AreNearMoves, IsDisjointMove, IsDisjointText};
ghost use Rattle.xd_boole.specs.Points.{MoveBelow, TextBelow};
ghost use Rattle.xd_boole.specs.Refusals.{LeadInside};

use crate::classes::{are_apart, are_texts_apart};
use crate::groups::{MoveSide, side_of};
use crate::step::Step;
use std::alloc::Global;
use xd_auto::{Auto, LabelMove, State, TextMove};
use xd_doc::NoMemory;

/// Over how many moves, one after the other, it is looked for what tells two states apart.
const MOST_DEPTH: usize = 3;

/// How many pairs of moves two states have at most that are looked at.
const MOST_PAIRS: usize = 64;

/// Whether the contents are disjoint, or what follows is.
#[cycle(disjoint)]
fn are_sides_disjoint_within(
    one: &Auto,
    side: MoveSide,
    two: &Auto,
    other: MoveSide,
    depth: usize,
) -> bool
    requires side { is_side one.now side ≡ true }
    requires other { is_side two.now other ≡ true }
    ensures { result ≡ true → AreDisjointSides one.now two.now side other }
{
    if are_disjoint_within(one, side.content, two, other.content, depth) {
        return true;
    }
    are_disjoint_within(one, side.rest, two, other.rest, depth)
}

/// Whether the move takes no element that one of the others takes.
#[cycle(disjoint)]
fn is_disjoint_move(
    one: &Auto,
    step: &LabelMove,
    two: &Auto,
    others: &[LabelMove],
    depth: usize,
) -> bool
    requires step { MoveBelow (length one.now) step.now }
    requires others { AllByRecursion (MoveBelow (length two.now)) others.now }
    ensures { result ≡ true → IsDisjointMove one.now two.now step.now others.now }
{
    for other in others {
        if are_apart(&step.class, &other.class) {
            continue;
        }
        if depth == 0 {
            return false;
        }
        if !are_sides_disjoint_within(one, side_of(step), two, side_of(other), depth - 1) {
            return false;
        }
    }
    true
}

/// Whether the move takes no text that one of the others takes, or what follows is disjoint.
#[cycle(disjoint)]
fn is_disjoint_text(
    one: &Auto,
    step: &TextMove,
    two: &Auto,
    others: &[TextMove],
    depth: usize,
) -> bool
    requires step { TextBelow (length one.now) step.now }
    requires others { AllByRecursion (TextBelow (length two.now)) others.now }
    ensures { result ≡ true → IsDisjointText one.now two.now step.now others.now }
{
    for other in others {
        if are_texts_apart(&step.words, &other.words) {
            continue;
        }
        if depth == 0 {
            return false;
        }
        if !are_disjoint_within(one, step.rest, two, other.rest, depth - 1) {
            return false;
        }
    }
    true
}

/// Whether it is seen over so many moves that no document is accepted by both states. A state
/// without moves that accepts nothing is disjoint from each; states with many moves are not looked
/// at.
#[cycle(disjoint)]
fn are_disjoint_within(one: &Auto, left: State, two: &Auto, right: State, depth: usize) -> bool
    requires left { IsState one.now left }
    requires right { IsState two.now right }
    ensures { result ≡ true → AreDisjoint one.now two.now left right }
{
    if one.is_last(left) && two.is_last(right) {
        return false;
    }
    let labels = one.label_moves(left);
    let others = two.label_moves(right);
    if labels.len().saturating_mul(others.len()) > MOST_PAIRS {
        return false;
    }
    for step in labels {
        if !is_disjoint_move(one, step, two, others, depth) {
            return false;
        }
    }
    let other_texts = two.text_moves(right);
    for step in one.text_moves(left) {
        if !is_disjoint_text(one, step, two, other_texts, depth) {
            return false;
        }
    }
    true
}

/// Whether it is seen that no content and no rest are accepted by both sides: their contents have
/// no document in common, or what follows has none.
///
/// It is looked over few moves, and not at states with many. So there are disjoint sides that
/// aren't seen.
fn are_sides_disjoint(one: &Auto, side: MoveSide, two: &Auto, other: MoveSide) -> bool
    requires side { is_side one.now side ≡ true }
    requires other { is_side two.now other ≡ true }
    ensures { result ≡ true → AreDisjointSides one.now two.now side other }
{
    are_sides_disjoint_within(one, side, two, other, MOST_DEPTH)
}

/// Of these moves those that aren't seen to lead to sides that are disjoint from a part: what takes
/// something that the part accepts. Fails only where memory is refused.
pub fn near_moves(
    alloc: Global,
    one: &Auto,
    part: MoveSide,
    two: &Auto,
    moves: &[LabelMove],
) -> Result<Vec<LabelMove>, NoMemory>
    requires part { is_side one.now part ≡ true }
    requires moves { LeadInside two.now moves.now }
    ensures { IfOk result (λ near. AreNearMoves one.now two.now part moves.now near.items) }
{
    let mut near = Vec::new(alloc);
    for step in moves {
        if are_sides_disjoint(one, part, two, side_of(step)) {
            continue;
        }
        near.push(step.share()?)?;
    }
    Ok(near)
}

//! States that accept what some states accept.

ghost use Rattle.std.specs.Prelude.{◌≡◌, true, [], IfOk, IfSome, Contains};
ghost use Rattle.std.specs.List.{All, list_any};
ghost use Rattle.xd_doc.specs.Document.{Document};
ghost use Rattle.xd_auto.specs.Automaton.{Extends, IsState, accepts, moves_at};

use xd_auto::{Auto, State};
use xd_doc::NoMemory;

/// Whether a state has no moves.
fn is_bare(auto: &Auto, state: State) -> bool
    requires { IsState auto.now state }
    ensures { result ≡ true → ((moves_at auto.now state).labels ≡ []) × ((moves_at auto.now state).texts ≡ []) }
{
    auto.label_moves(state).is_empty() && auto.text_moves(state).is_empty()
}

/// Whether a state is another one, or has no moves and accepts the empty document only where that
/// does.
fn is_within(auto: &Auto, state: State, other: State) -> bool
    requires state { IsState auto.now state }
    requires other { IsState auto.now other }
    ensures { result ≡ true → (d : Document) → accepts auto.now d state ≡ true → accepts auto.now d other ≡ true }
{
    state == other || (is_bare(auto, state) && (!auto.is_last(state) || auto.is_last(other)))
}

/// Whether each of these states is, so that the other one accepts what they do.
fn are_within(auto: &Auto, states: &[State], other: State) -> bool
    requires states { All (IsState auto.now) states.now }
    requires other { IsState auto.now other }
    ensures { result ≡ true → (d : Document) → list_any (accepts auto.now d) states.now ≡ true → accepts auto.now d other ≡ true }
{
    for state in states {
        if !is_within(auto, *state, other) {
            return false;
        }
    }
    true
}

/// The first of these states that has moves.
fn first_with_moves(auto: &Auto, states: &[State]) -> Option<State>
    requires { All (IsState auto.now) states.now }
    ensures { IfSome result (Contains states.now) }
{
    for state in states {
        if !is_bare(auto, *state) {
            return Some(*state);
        }
    }
    None
}

/// A state that accepts what some of these states accept. It is one of them, and no state is added,
/// where all others have no moves and accept no more; so where a variable takes all that is left,
/// it is the state that was there.
pub(crate) fn union_of(auto: &mut Auto, states: &[State]) -> Result<State, NoMemory>
    requires { All (IsState auto.old) states.now }
    ensures ok { IfOk result (λ made. (d : Document) → accepts auto.new d made ≡ list_any (accepts auto.old d) states.now) }
    ensures belongs { IfOk result (IsState auto.new) }
    ensures extends { Extends auto.old auto.new }
{
    if let Some(one) = first_with_moves(auto, states) {
        if are_within(auto, states, one) {
            return Ok(one);
        }
    }
    auto.unite(states)
}

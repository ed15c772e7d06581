//! Sets of states: each once, in the order of their numbers.

ghost use Rattle.std.specs.Prelude.{◌≡◌, [], IfOk, OnOk};
ghost use Rattle.std.specs.List.{AllByRecursion, list_any};
ghost use Rattle.xd_auto.specs.Automaton.{IsState};
ghost use Rattle.xd_boole.specs.Meaning.{has_state, is_last_in, is_within, with_state, with_states};

use std::alloc::Global;
use xd_auto::{Auto, State};
use xd_doc::NoMemory;

/// Puts a state among the others, where it isn't there already.
pub(crate) fn put_state(states: &mut Vec<State>, state: State) -> Result<(), NoMemory>
    ensures { OnOk result (states.new.items ≡ with_state state states.old.items) }
{
    let mut place = 0;
    while place < states.len() && states[place].number() < state.number() {
        place += 1;
    }
    if place == states.len() || states[place] != state {
        states.insert(place, state)?;
    }
    Ok(())
}

/// The set of these states. Fails only where memory is refused.
pub fn set_of(alloc: Global, states: &[State]) -> Result<Vec<State>, NoMemory>
    ensures { IfOk result (λ made. made.items ≡ with_states states.now []) }
{
    let mut made = Vec::new(alloc);
    for state in states {
        put_state(&mut made, *state)?;
    }
    Ok(made)
}

/// Whether the state is one of these.
pub(crate) fn has_state(states: &[State], state: State) -> bool
    ensures { result ≡ has_state state states.now }
{
    for other in states {
        if *other == state {
            return true;
        }
    }
    false
}

/// Whether each of the states is one of the others.
pub(crate) fn is_within(states: &[State], others: &[State]) -> bool
    ensures { result ≡ is_within others.now states.now }
{
    for state in states {
        if !has_state(others, *state) {
            return false;
        }
    }
    true
}

/// Whether some state accepts the empty document.
pub fn any_last(auto: &Auto, states: &[State]) -> bool
    requires { AllByRecursion (IsState auto.now) states.now }
    ensures { result ≡ list_any (is_last_in auto.now) states.now }
{
    for state in states {
        if auto.is_last(*state) {
            return true;
        }
    }
    false
}

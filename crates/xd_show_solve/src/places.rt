//! The states that a state leads to after items, each with a place.

ghost use Rattle.std.specs.Prelude.{◌≡◌, ◌<◌, ◌≤◌, ◌++◌, ◌∷◌, [], None, IfOk, OnOk, length, get_or};
ghost use Rattle.std.specs.List.{All};
ghost use Rattle.xd_auto.specs.Automaton.{IsState, moves_at};
ghost use Rattle.xd_show_solve.specs.Levels.{ArePlaced, ArePlacesOfNone, GrowsStates, IsClosedAt, IsLevel, IsPlaced, IsWholeLevel, KeepsKnown, TextsArePlaced, known_of};
ghost use Rattle.xd_auto.specs.declared.auto.State.{State};

use std::alloc::Global;
use xd_auto::{Auto, LabelMove, State, TextMove};
use xd_doc::NoMemory;

/// The states that a state leads to after items, itself the first, each once; and by the number of
/// each state of the automaton its place among them, if it has one.
#[derive(Drop)]
pub struct Level {
    pub states: Vec<State>,
    pub places: Vec<Option<usize>>,
}

/// Gives a state a place, where it has none.
fn see(auto: &Auto, level: &mut Level, state: State) -> Result<(), NoMemory>
    requires state { IsState auto.now state }
    requires level { IsLevel auto.now level.old.states.items level.old.places.items }
    ensures level { OnOk result (IsLevel auto.now level.new.states.items level.new.places.items) }
    ensures placed { OnOk result (IsPlaced level.new.places.items state) }
    ensures keeps { OnOk result (KeepsKnown level.old.places.items level.new.places.items) }
    ensures grows { OnOk result (GrowsStates level.old.states.items level.new.states.items) }
    ensures first { OnOk result (known_of level.old.places.items state ≡ None → level.new.states.items ≡ level.old.states.items ++ state ∷ []) }
{
    if level.places[state.number()].is_some() {
        return Ok(());
    }
    let place = level.states.len();
    level.states.push(state)?;
    level.places[state.number()] = Some(place);
    Ok(())
}

/// Gives the states after these moves places.
fn see_labels(auto: &Auto, level: &mut Level, moves: &[LabelMove]) -> Result<(), NoMemory>
    requires moves { All (λ m. IsState auto.now m.rest) moves.now }
    requires level { IsLevel auto.now level.old.states.items level.old.places.items }
    ensures level { OnOk result (IsLevel auto.now level.new.states.items level.new.places.items) }
    ensures placed { OnOk result (ArePlaced level.new.places.items moves.now) }
    ensures keeps { OnOk result (KeepsKnown level.old.places.items level.new.places.items) }
    ensures grows { OnOk result (GrowsStates level.old.states.items level.new.states.items) }
{
    for step in moves {
        see(auto, level, step.rest)?;
    }
    Ok(())
}

/// The same of moves on a text.
fn see_texts(auto: &Auto, level: &mut Level, moves: &[TextMove]) -> Result<(), NoMemory>
    requires moves { All (λ m. IsState auto.now m.rest) moves.now }
    requires level { IsLevel auto.now level.old.states.items level.old.places.items }
    ensures level { OnOk result (IsLevel auto.now level.new.states.items level.new.places.items) }
    ensures placed { OnOk result (TextsArePlaced level.new.places.items moves.now) }
    ensures keeps { OnOk result (KeepsKnown level.old.places.items level.new.places.items) }
    ensures grows { OnOk result (GrowsStates level.old.states.items level.new.states.items) }
{
    for step in moves {
        see(auto, level, step.rest)?;
    }
    Ok(())
}

/// Gives all states after the moves of a state places.
fn see_rests(auto: &Auto, level: &mut Level, state: State) -> Result<(), NoMemory>
    requires state { IsState auto.now state }
    requires level { IsLevel auto.now level.old.states.items level.old.places.items }
    ensures level { OnOk result (IsLevel auto.now level.new.states.items level.new.places.items) }
    ensures labels { OnOk result (ArePlaced level.new.places.items (moves_at auto.now state).labels) }
    ensures texts { OnOk result (TextsArePlaced level.new.places.items (moves_at auto.now state).texts) }
    ensures keeps { OnOk result (KeepsKnown level.old.places.items level.new.places.items) }
    ensures grows { OnOk result (GrowsStates level.old.states.items level.new.states.items) }
{
    see_labels(auto, level, auto.label_moves(state))?;
    see_texts(auto, level, auto.text_moves(state))
}

/// No place for any state of an automaton.
fn no_places(alloc: Global, auto: &Auto) -> Result<Vec<Option<usize>>, NoMemory>
    ensures { IfOk result (λ made. ArePlacesOfNone made.items (length auto.now)) }
{
    let mut made = Vec::new(alloc);
    for _number in 0..auto.len() {
        made.push(None)?;
    }
    Ok(made)
}

/// Gives all states after the moves of the state at a place places, if there is one.
fn see_number(auto: &Auto, level: &mut Level, number: usize) -> Result<(), NoMemory>
    requires { IsLevel auto.now level.old.states.items level.old.places.items }
    ensures level { OnOk result (IsLevel auto.now level.new.states.items level.new.places.items) }
    ensures closed { OnOk result ((s : State) → number < length level.old.states.items → s ≡ get_or level.old.states.items number s → IsClosedAt auto.now level.new.places.items s) }
    ensures keeps { OnOk result (KeepsKnown level.old.places.items level.new.places.items) }
    ensures grows { OnOk result (GrowsStates level.old.states.items level.new.states.items) }
    ensures beyond { OnOk result (length level.old.states.items ≤ number → level.new.states.items ≡ level.old.states.items) }
{
    if number >= level.states.len() {
        return Ok(());
    }
    let state = level.states[number];
    see_rests(auto, level, state)
}

/// The level of a state: the state, and all that it leads to after items, in the order in which
/// they are met.
///
/// The time is linear in the moves of the level and in the states of the automaton. Fails only
/// where memory is refused.
pub fn level_of(alloc: Global, auto: &Auto, start: State) -> Result<Level, NoMemory>
    requires { IsState auto.now start }
    ensures whole { IfOk result (λ made. IsWholeLevel auto.now made.states.items made.places.items) }
    ensures some { IfOk result (λ made. 0 < length made.states.items) }
    ensures first { IfOk result (λ made. get_or made.states.items 0 start ≡ start) }
{
    let mut level = Level {
        states: Vec::new(alloc),
        places: no_places(alloc, auto)?,
    };
    see(auto, &mut level, start)?;
    for number in 0..auto.len() {
        see_number(auto, &mut level, number)?;
    }
    Ok(level)
}

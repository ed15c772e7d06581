//! The states of points, put into the automaton that has their lefts.

ghost use Rattle.std.specs.Prelude.{◌≡◌, ◌<◌, ◌≤◌, ◌∷◌, ℕ, [], false, length, IfOk, OnOk};
ghost use Rattle.xd_doc.specs.Document.{Document};
ghost use Rattle.xd_auto.specs.Automaton.{Automaton, ChangesOnly, Extends, IsState, accepts, moves_at};
ghost use Rattle.xd_empty.specs.Inhabited.{IsUnknown};
ghost use Rattle.xd_boole.specs.Points.{MoveBelow, TextBelow};
ghost use Rattle.xd_points.specs.Meaning.{ServePoints};
ghost use Rattle.xd_points.specs.Points.{AllExpanded, meaning, state_at};
ghost use Rattle.xd_points.specs.Placing.{AreIn, ArePlaces, GivesLabels, GivesTexts, IsBareAt, IsPlaceOf, IsPlaced, KeepsPlaces, PlacesFirst, accepts_at, place_at, state_of};

use crate::patterns::PatternStates;
use crate::points::{Points, is_old};
use std::alloc::Global;
use xd_auto::{Auto, LabelMove, State, TextMove};
use xd_doc::NoMemory;
use xd_empty::Inhabitants;

/// Where a point stands in the automaton: at its left, where it means what that accepts, at a new
/// state, or nowhere, since it accepts nothing.
#[derive(Clone, Copy)]
pub(crate) enum Place {
    Old(State),
    New(State),
    Nowhere,
}

impl Place {
    /// The state that stands there.
    pub(crate) fn state(self) -> Option<State>
        ensures { result ≡ state_of self }
    {
        match self {
            Place::Old(state) => Some(state),
            Place::New(state) => Some(state),
            Place::Nowhere => None,
        }
    }
}

/// The state that stands at the place of a point.
fn state_there(places: &[Place], point: State) -> Option<State>
    requires { point.number < length places.now }
    ensures { result ≡ state_of (place_at places.now point.number) }
{
    places[point.number()].state()
}

/// The place of a point. A new state has no moves yet.
fn place_of(
    auto: &mut Auto,
    patterns: &PatternStates,
    points: &Points,
    known: &Inhabitants,
    number: usize,
) -> Result<Place, NoMemory>
    requires number { number < length points.now.points.items }
    requires made { length points.now.made ≡ length points.now.points.items }
    ensures place { IfOk result (IsPlaceOf patterns.now auto.old auto.new points.now known.now number) }
    ensures bare { IfOk result (IsBareAt auto.new points.now number) }
    ensures extends { Extends auto.old auto.new }
{
    let point = &points.points[number];
    if is_old(patterns, point.left, point.pattern, &point.rights) {
        return Ok(Place::Old(point.left));
    }
    let made = points.made.state(number);
    if known.document(made).is_none() {
        return Ok(Place::Nowhere);
    }
    let last = points.made.is_last(made);
    let state = auto.add_state(last)?;
    Ok(Place::New(state))
}

/// Puts the places of further points after those that there are.
fn add_places(
    auto: &mut Auto,
    patterns: &PatternStates,
    points: &Points,
    known: &Inhabitants,
    places: &mut Vec<Place>,
) -> Result<(), NoMemory>
    requires made { length points.now.made ≡ length points.now.points.items }
    requires count { length places.old.items ≤ length points.now.points.items }
    ensures count { OnOk result (length places.new.items ≡ length points.now.points.items) }
    ensures kept { OnOk result (KeepsPlaces places.old.items places.new.items) }
    ensures places { OnOk result (ArePlaces patterns.now auto.old auto.new points.now known.now (length places.old.items) places.new.items) }
    ensures bare { OnOk result (PlacesFirst points.now places.new.items auto.new (length places.old.items) (length places.old.items)) }
    ensures extends { Extends auto.old auto.new }
{
    for number in places.len()..points.points.len() {
        let place = place_of(auto, patterns, points, known, number)?;
        places.push(place)?;
    }
    Ok(())
}

/// Gives a state a move on an element, to the states at the places; none where one is missing.
fn give_label(
    auto: &mut Auto,
    state: State,
    step: &LabelMove,
    places: &[Place],
) -> Result<(), NoMemory>
    requires state { IsState auto.old state }
    requires step { MoveBelow (length places.now) step.now }
    requires places { AreIn auto.old places.now }
    ensures gives { OnOk result (GivesLabels places.now state (step.now ∷ []) auto.old auto.new) }
    ensures others { ChangesOnly state auto.old auto.new }
{
    let Some(content) = state_there(places, step.content) else {
        return Ok(());
    };
    let Some(rest) = state_there(places, step.rest) else {
        return Ok(());
    };
    auto.add_label_move(state, step.class.share()?, content, rest)?;
    Ok(())
}

/// Gives a state a move on a text.
fn give_text(
    auto: &mut Auto,
    state: State,
    step: &TextMove,
    places: &[Place],
) -> Result<(), NoMemory>
    requires state { IsState auto.old state }
    requires step { TextBelow (length places.now) step.now }
    requires places { AreIn auto.old places.now }
    ensures gives { OnOk result (GivesTexts places.now state (step.now ∷ []) auto.old auto.new) }
    ensures others { ChangesOnly state auto.old auto.new }
{
    let Some(rest) = state_there(places, step.rest) else {
        return Ok(());
    };
    auto.add_text_move(state, step.words.share()?, rest)?;
    Ok(())
}

/// Gives the new state of a point its moves.
fn give_moves(
    auto: &mut Auto,
    state: State,
    points: &Points,
    number: usize,
    places: &[Place],
) -> Result<(), NoMemory>
    requires state { IsState auto.old state }
    requires number { number < length points.now.made }
    requires count { length places.now ≡ length points.now.made }
    requires places { AreIn auto.old places.now }
    requires bare { IsBareAt auto.old points.now number (Place.New state) }
    ensures placed { OnOk result (IsPlaced points.now places.now auto.new number state) }
    ensures others { ChangesOnly state auto.old auto.new }
{
    let point = points.made.state(number);
    for step in points.made.label_moves(point) {
        give_label(auto, state, step, places)?;
    }
    for step in points.made.text_moves(point) {
        give_text(auto, state, step, places)?;
    }
    Ok(())
}

/// Puts the points that have no place yet into the automaton that has their lefts.
pub(crate) fn place_points(
    auto: &mut Auto,
    patterns: &PatternStates,
    points: &Points,
    known: &Inhabitants,
    places: &mut Vec<Place>,
) -> Result<(), NoMemory>
    requires patterns { ServePoints auto.old patterns.now }
    requires expanded { AllExpanded auto.old patterns.now points.now }
    requires none { (i : ℕ) → i < length points.now.points.items → IsUnknown known.now (state_at i) → (d : Document) → accepts points.now.made d (state_at i) ≡ false }
    requires count { length places.old.items ≤ length points.now.points.items }
    requires belong { AreIn auto.old places.old.items }
    requires stands { (d : Document) (i : ℕ) → i < length places.old.items → accepts_at auto.old d (state_of (place_at places.old.items i)) ≡ meaning auto.old patterns.now points.now i d }
    ensures count { OnOk result (length places.new.items ≡ length points.now.points.items) }
    ensures belong { OnOk result (AreIn auto.new places.new.items) }
    ensures stands { OnOk result ((d : Document) (i : ℕ) → i < length points.now.points.items → accepts_at auto.new d (state_of (place_at places.new.items i)) ≡ meaning auto.old patterns.now points.now i d) }
    ensures extends { Extends auto.old auto.new }
{
    let _old = auto.len();
    let _made = points.made.len();
    let first = places.len();
    add_places(auto, patterns, points, known, places)?;
    for number in first..places.len() {
        if let Place::New(state) = places[number] {
            give_moves(auto, state, points, number, places)?;
        }
    }
    Ok(())
}

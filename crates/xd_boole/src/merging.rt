//! States that accept the same, made one.

ghost use Rattle.std.specs.Prelude.{◌≡◌, ◌+◌, ◌<◌, ℕ, cond, nat_eq, true, Some, length, IfOk, OnOk};
ghost use Rattle.std.specs.List.{All, AllByRecursion, AllZip};
ghost use Rattle.xd_doc.specs.Document.{Document};
ghost use Rattle.xd_auto.specs.declared.auto.State.{State};
ghost use Rattle.xd_auto.specs.Automaton.{IsState, accepts, moves_at, state_number};
ghost use Rattle.xd_boole.specs.Meaning.{TellSame};
ghost use Rattle.xd_boole.specs.Merging.{AreLike, AreStandIns, IsLike, KeepStates, RedirectsFirst, RedirectsLabels, RedirectsTexts, found_at, stand_in};

use crate::step::Step;
use std::alloc::Global;
use std::collections::HashMap;
use xd_auto::{Auto, LabelMove, State, TextMove};
use xd_doc::{Class, NoMemory, Words};

/// Two states that are compared.
#[derive(Clone, Copy)]
pub(crate) struct Compared {
    pub(crate) one: State,
    pub(crate) other: State,
}

/// The state that stands in for a state.
pub(crate) fn stand_in(same: &[State], state: State) -> State
    ensures { result ≡ stand_in same.now state }
{
    if state.number() < same.len() {
        same[state.number()]
    } else {
        state
    }
}

/// Whether these are the states that are compared, or the same state stands in for both.
pub(crate) fn is_like(same: &[State], compared: Compared, one: State, other: State) -> bool
    ensures { result ≡ true → IsLike same.now compared one other }
{
    if one == compared.one && other == compared.other {
        return true;
    }
    stand_in(same, one) == stand_in(same, other)
}

/// Whether both classes name the same labels.
pub(crate) fn is_same_class(one: &Class, other: &Class) -> bool
    ensures { result ≡ true → one.now ≡ other.now }
{
    if one.takes_others() != other.takes_others() {
        return false;
    }
    one.names() == other.names()
}

/// Whether both classes name the same texts.
pub(crate) fn are_same_words(one: &Words, other: &Words) -> bool
    ensures { result ≡ true → one.now ≡ other.now }
{
    if one.takes_others() != other.takes_others() {
        return false;
    }
    one.texts() == other.texts()
}

/// Whether moves are like others, each like the one at its place.
fn are_like_moves<M: Step>(same: &[State], compared: Compared, ones: &[M], others: &[M]) -> bool
    ensures { result ≡ true → AllZip (M.alike same.now compared) ones.now others.now }
{
    if ones.len() != others.len() {
        return false;
    }
    for number in 0..ones.len() {
        if !ones[number].is_like(same, compared, &others[number]) {
            return false;
        }
    }
    true
}

/// Whether two states have moves on the same names, in the same order, to states that are like each
/// other.
pub(crate) fn are_like(auto: &Auto, same: &[State], compared: Compared) -> bool
    requires one { IsState auto.now compared.one }
    requires other { IsState auto.now compared.other }
    ensures { result ≡ true → AreLike auto.now same.now compared }
{
    if auto.is_last(compared.one) != auto.is_last(compared.other) {
        return false;
    }
    if !are_like_moves(
        same,
        compared,
        auto.label_moves(compared.one),
        auto.label_moves(compared.other),
    ) {
        return false;
    }
    are_like_moves(
        same,
        compared,
        auto.text_moves(compared.one),
        auto.text_moves(compared.other),
    )
}

/// A number with one more part mixed in.
pub(crate) fn mixed(key: u64, part: usize) -> u64 {
    key.wrapping_mul(0x9E37_79B9_7F4A_7C15)
        .wrapping_add(part as u64)
}

/// A number that equal names share.
pub(crate) fn mixed_name(key: u64, name: &str) -> u64 {
    let mut key = mixed(key, name.len());
    for byte in name.as_bytes() {
        key = mixed(key, *byte as usize);
    }
    key
}

/// A number for where a move of a state leads to: the same for all that lead back to the state
/// itself.
fn mixed_target(key: u64, same: &[State], of: State, target: State) -> u64 {
    if target == of {
        return mixed(key, usize::MAX);
    }
    mixed(key, stand_in(same, target).number())
}

/// A number that states which are like each other share.
fn likeness(auto: &Auto, same: &[State], state: State) -> u64
    requires { IsState auto.now state }
{
    let mut key = if auto.is_last(state) { 1 } else { 0 };
    for step in auto.label_moves(state) {
        for label in step.class.names() {
            key = mixed_name(key, label.as_str());
        }
        key = mixed_target(key, same, state, step.content);
        key = mixed_target(key, same, state, step.rest);
    }
    for step in auto.text_moves(state) {
        for text in step.words.texts() {
            key = mixed_name(key, text.as_str());
        }
        key = mixed_target(key, same, state, step.rest);
    }
    key
}

/// Keeps a state under a number.
fn keep(found: &mut HashMap<u64, State>, key: u64, state: State) -> Result<(), NoMemory>
    ensures { OnOk result ((q : ℕ) → found_at found.new q ≡ cond (nat_eq key q) (Some state) (found_at found.old q)) }
{
    found.insert(key, state)?;
    Ok(())
}

/// Lets what stands in for a state that was found stand in for this one, where they are like each
/// other.
fn stand_for(auto: &Auto, same: &mut Vec<State>, state: State, other: State)
    requires stand { AreStandIns auto.now same.old.items }
    requires state { IsState auto.now state }
    requires other { IsState auto.now other }
    ensures { AreStandIns auto.now same.new.items }
{
    let compared = Compared { one: state, other };
    if are_like(auto, same, compared) {
        let standing = stand_in(same, other);
        same[state.number()] = standing;
    }
}

/// Looks for a state that is like this one among those that were kept, and keeps it where there is
/// none.
#[tactic(auto, using(crate::proofs::MergeLemmas::keeps_one))]
fn see_state(
    auto: &Auto,
    same: &mut Vec<State>,
    found: &mut HashMap<u64, State>,
    state: State,
) -> Result<(), NoMemory>
    requires stand { AreStandIns auto.now same.old.items }
    requires kept { KeepStates auto.now found.old }
    requires state { IsState auto.now state }
    ensures stand { AreStandIns auto.now same.new.items }
    ensures kept { OnOk result (KeepStates auto.now found.new) }
{
    let key = likeness(auto, same, state);
    match found.get(&key).copied() {
        Some(other) => stand_for(auto, same, state, other),
        None => keep(found, key, state)?,
    }
    Ok(())
}

/// One look at all states, the newest first: those that others lead to mostly stand after them.
fn see_states(alloc: Global, auto: &Auto, same: &mut Vec<State>) -> Result<(), NoMemory>
    requires { AreStandIns auto.now same.old.items }
    ensures { OnOk result (AreStandIns auto.now same.new.items) }
{
    let mut found = HashMap::new(alloc);
    for number in (0..auto.len()).rev() {
        see_state(auto, same, &mut found, auto.state(number))?;
    }
    Ok(())
}

/// Each state for itself.
fn each_itself(alloc: Global, auto: &Auto) -> Result<Vec<State>, NoMemory>
    ensures { IfOk result (λ same. AreStandIns auto.now same.items) }
{
    let mut same = Vec::new(alloc);
    for number in 0..auto.len() {
        same.push(auto.state(number))?;
    }
    Ok(same)
}

/// For each state one that accepts the same.
///
/// The second look finds what the first one made equal in states that lead to older ones.
pub(crate) fn stand_ins(alloc: Global, auto: &Auto) -> Result<Vec<State>, NoMemory>
    ensures { IfOk result (λ same. AreStandIns auto.now same.items) }
{
    let mut same = each_itself(alloc, auto)?;
    see_states(alloc, auto, &mut same)?;
    see_states(alloc, auto, &mut same)?;
    Ok(same)
}

/// Gives a state moves on an element, to the states that stand in for theirs.
fn redirect_labels(
    made: &mut Auto,
    state: State,
    moves: &[LabelMove],
    same: &[State],
) -> Result<(), NoMemory>
    requires state { IsState made.old state }
    requires moves { All (λ m. (state_number m.content < length made.old) × (state_number m.rest < length made.old)) moves.now }
    requires same { AllByRecursion (IsState made.old) same.now }
    ensures { OnOk result (RedirectsLabels same.now state moves.now made.old made.new) }
{
    for step in moves {
        made.add_label_move(
            state,
            step.class.share()?,
            stand_in(same, step.content),
            stand_in(same, step.rest),
        )?;
    }
    Ok(())
}

/// The same of moves on a text.
fn redirect_texts(
    made: &mut Auto,
    state: State,
    moves: &[TextMove],
    same: &[State],
) -> Result<(), NoMemory>
    requires state { IsState made.old state }
    requires moves { All (λ m. state_number m.rest < length made.old) moves.now }
    requires same { AllByRecursion (IsState made.old) same.now }
    ensures { OnOk result (RedirectsTexts same.now state moves.now made.old made.new) }
{
    for step in moves {
        made.add_text_move(state, step.words.share()?, stand_in(same, step.rest))?;
    }
    Ok(())
}

/// The states without their moves.
pub(crate) fn bare_states(alloc: Global, auto: &Auto, same: &[State]) -> Result<Auto, NoMemory>
    ensures { IfOk result (λ made. RedirectsFirst auto.now same.now made 0) }
{
    let mut made = Auto::new(alloc);
    for number in 0..auto.len() {
        made.add_state(auto.is_last(auto.state(number)))?;
    }
    Ok(made)
}

/// Gives the state of this number its moves, redirected.
pub(crate) fn redirect_state(
    made: &mut Auto,
    auto: &Auto,
    same: &[State],
    number: usize,
) -> Result<(), NoMemory>
    requires number { number < length auto.now }
    requires stand { AreStandIns auto.now same.now }
    requires first { RedirectsFirst auto.now same.now made.old number }
    ensures { OnOk result (RedirectsFirst auto.now same.now made.new (number + 1)) }
{
    let state = auto.state(number);
    redirect_labels(made, state, auto.label_moves(state), same)?;
    redirect_texts(made, state, auto.text_moves(state), same)?;
    Ok(())
}

/// The same states, with their moves to one state where many accept the same.
///
/// A state is like another where they have the same moves in the same order, but for states that
/// are like each other or lead back to these two. All others stay as they are. `NoMemory` where
/// there is no room for the copy.
pub fn merged(alloc: Global, auto: &Auto) -> Result<Auto, NoMemory>
    ensures count { IfOk result (λ made. length made ≡ length auto.now) }
    ensures same { IfOk result (λ made. (d : Document) (s : State) → accepts made d s ≡ accepts auto.now d s) }
    ensures moves { IfOk result (TellSame auto.now) }
{
    let same = stand_ins(alloc, auto)?;
    let mut made = bare_states(alloc, auto, &same)?;
    for number in 0..auto.len() {
        redirect_state(&mut made, auto, &same, number)?;
    }
    Ok(made)
}

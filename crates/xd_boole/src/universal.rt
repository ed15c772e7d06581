//! States that accept every document in a plain way.

ghost use Rattle.std.specs.Prelude.{◌≡◌, ◌<◌, true, length, IfOk};
ghost use Rattle.std.specs.List.{AllByRecursion, list_any};
ghost use Rattle.std.specs.Option.{IfSome};
ghost use Rattle.xd_doc.specs.Document.{Document};
ghost use Rattle.xd_auto.specs.Automaton.{IsState, accepts};
ghost use Rattle.xd_empty.specs.Parts.{is_marked};
ghost use Rattle.xd_boole.specs.Universal.{AcceptsAll, MarkUniversal, TakesAll, has_all};

use crate::step::Step;
use std::alloc::Global;
use xd_auto::{Auto, State, add_universal, trim};
use xd_doc::{Class, NoMemory, Words};

/// Whether the class has all labels.
pub(crate) fn has_all_labels(class: &Class) -> bool
    ensures { result ≡ has_all class.now }
{
    class.takes_others() && class.names().is_empty()
}

/// Whether the class has all texts.
pub(crate) fn has_all_texts(words: &Words) -> bool
    ensures { result ≡ has_all words.now }
{
    words.takes_others() && words.texts().is_empty()
}

/// Whether one of the moves is for all names, and leads to some of these states.
fn any_leads<M: Step>(moves: &[M], states: &[State]) -> bool
    ensures { result ≡ list_any (M.leads_on states.now) moves.now }
{
    for step in moves {
        if step.leads_all(states) {
            return true;
        }
    }
    false
}

/// Whether the state accepts the empty document, and leads over every element and every text to
/// some of these states.
fn takes_all(auto: &Auto, states: &[State], state: State) -> bool
    requires { IsState auto.now state }
    ensures { result ≡ true → TakesAll auto.now states.now state }
{
    if !auto.is_last(state) {
        return false;
    }
    if !any_leads(auto.label_moves(state), states) {
        return false;
    }
    any_leads(auto.text_moves(state), states)
}

/// Whether all of the states do.
fn all_take_all(auto: &Auto, states: &[State]) -> bool
    requires { AllByRecursion (IsState auto.now) states.now }
    ensures { result ≡ true → AllByRecursion (TakesAll auto.now states.now) states.now }
{
    for state in states {
        if !takes_all(auto, states, *state) {
            return false;
        }
    }
    true
}

/// The number of the first move that is for all names.
fn first_for_all<M: Step>(moves: &[M]) -> Option<usize>
    ensures { IfSome result (λ number. number < length moves.now) }
{
    for number in 0..moves.len() {
        if moves[number].has_all() {
            return Some(number);
        }
    }
    None
}

/// Whether a state accepts every document in a plain way: it, and the states that its first moves
/// for all names lead to, accept the empty document and have such moves among themselves. Other
/// states that accept everything aren't found.
pub fn is_universal(auto: &Auto, state: State) -> bool
    requires { IsState auto.now state }
    ensures { result ≡ true → AcceptsAll auto.now state }
{
    let labels = auto.label_moves(state);
    let texts = auto.text_moves(state);
    let Some(label) = first_for_all(labels) else {
        return false;
    };
    let Some(text) = first_for_all(texts) else {
        return false;
    };
    let step = &labels[label];
    let last = &texts[text];
    let states = [state, step.content, step.rest, last.rest];
    all_take_all(auto, &states)
}

/// For each state whether it accepts every document in a plain way. Fails only where memory is
/// refused.
pub fn universal_states(alloc: Global, auto: &Auto) -> Result<Vec<bool>, NoMemory>
    ensures { IfOk result (λ marks. MarkUniversal auto.now marks.items) }
{
    let mut marks = Vec::with_capacity(alloc, auto.len())?;
    for number in 0..auto.len() {
        marks.push(is_universal(auto, auto.state(number)))?;
    }
    Ok(marks)
}

/// Whether the state is marked.
pub fn is_marked(marks: &[bool], state: State) -> bool
    ensures { result ≡ is_marked marks.now state }
{
    if state.number() < marks.len() {
        marks[state.number()]
    } else {
        false
    }
}

/// Whether one of the states is.
pub fn any_marked(marks: &[bool], states: &[State]) -> bool
    ensures { result ≡ list_any (is_marked marks.now) states.now }
{
    for state in states {
        if is_marked(marks, *state) {
            return true;
        }
    }
    false
}

/// The part that a state leads to and the state in it, and beside it a state that accepts
/// everything, to which nothing else leads.
///
/// Fails only where memory is refused.
pub fn with_universal(
    alloc: Global,
    auto: &Auto,
    state: State,
) -> Result<(Auto, State, State), NoMemory>
    requires { IsState auto.now state }
    ensures same { IfOk result (λ made. (d : Document) → accepts made.0 d made.1 ≡ accepts auto.now d state) }
    ensures belongs { IfOk result (λ made. IsState made.0 made.1) }
    ensures all { IfOk result (λ made. IsState made.0 made.2) }
    ensures universal { IfOk result (λ made. AcceptsAll made.0 made.2) }
{
    let (mut part, start) = trim(alloc, auto, state)?;
    let _states = part.len();
    let all = add_universal(alloc, &mut part)?;
    Ok((part, start, all))
}

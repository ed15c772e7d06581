//! Pairs of states, and what they lead to.

ghost use Rattle.std.specs.Prelude.{◌≡◌, ◌||◌, ◌&&◌, Bool, true, false, not, length, List, ℕ, OnOk};
ghost use Rattle.std.specs.List.{list_any};
ghost use Rattle.std.specs.List.Sorted.{IsNonDecreasing};
ghost use Rattle.xd_auto.specs.Automaton.{IsState, moves_at};
ghost use Rattle.xd_doc.specs.Classes.{class_has};
ghost use Rattle.xd_stream.specs.Pairs.{AddsMoves, AddsWaiting, AreStates, HasEnded, TakesEveryText, begins_content, leads_behind, leads_label, leads_on_text, leads_over_every_text, leads_over_label, leads_over_text, leads_text};

use xd_auto::{Auto, State};
use xd_doc::{Label, NoMemory, Text, Words};

/// A state that a content or the document began with, and one that its items so far lead to.
#[derive(Clone, Copy, Debug, PartialEq, Eq, PartialOrd, Ord)]
pub struct Pair {
    pub first: State,
    pub present: State,
}

/// A move on an open element, from a pair: the state that the pair's content began with, that of
/// the element's content, and the one after the element.
#[derive(Clone, Copy, Debug)]
pub struct Waiting {
    pub first: State,
    pub content: State,
    pub rest: State,
}

/// Puts the pairs in order, each once.
fn sort_pairs(pairs: &mut Vec<Pair>)
    ensures { (f : Pair → Bool) → list_any f pairs.new.items ≡ list_any f pairs.old.items }
{
    if 1 < pairs.len() {
        pairs.sort_unstable();
        pairs.dedup();
    }
}

/// Adds the pairs that this pair leads to over a text.
fn add_text_pairs(
    auto: &Auto,
    marks: &[bool],
    pair: Pair,
    text: &Text,
    into: &mut Vec<Pair>,
) -> Result<(), NoMemory>
    requires state { IsState auto.now pair.present }
    requires marks { length marks.now ≡ length auto.now }
    ensures { OnOk result ((f : Pair → Bool) → list_any f into.new.items ≡ (list_any f into.old.items || list_any (leads_text marks.now text.now f pair.first) (moves_at auto.now pair.present).texts)) }
{
    let moves = auto.text_moves(pair.present);
    let mut from = 0;
    while let Some(number) = auto.next_text_move(pair.present, text, from) {
        let step = &moves[number];
        if marks[step.rest.number()] {
            let next = Pair {
                first: pair.first,
                present: step.rest,
            };
            into.push(next)?;
        }
        from = number + 1;
    }
    Ok(())
}

/// Adds the moves of a pair on an element with this label.
fn add_waiting(
    auto: &Auto,
    marks: &[bool],
    pair: Pair,
    label: &Label,
    into: &mut Vec<Waiting>,
) -> Result<(), NoMemory>
    requires state { IsState auto.now pair.present }
    requires marks { length marks.now ≡ length auto.now }
    ensures { OnOk result (AddsMoves auto.now marks.now label.now pair into.old.items into.new.items) }
{
    let moves = auto.label_moves(pair.present);
    let mut from = 0;
    while let Some(number) = auto.next_label_move(pair.present, label, from) {
        let step = &moves[number];
        if marks[step.content.number()] && marks[step.rest.number()] {
            let next = Waiting {
                first: pair.first,
                content: step.content,
                rest: step.rest,
            };
            into.push(next)?;
        }
        from = number + 1;
    }
    Ok(())
}

/// The numbers of the states that the contents which may end began with, in order.
fn ended_firsts(auto: &Auto, pairs: &[Pair], into: &mut Vec<usize>) -> Result<(), NoMemory>
    requires { AreStates auto.now pairs.now }
    ensures order { OnOk result (IsNonDecreasing into.new.items) }
    ensures ended { OnOk result (HasEnded auto.now pairs.now into.new.items) }
{
    into.clear();
    for pair in pairs {
        let pair = *pair;
        if auto.is_last(pair.present) {
            into.push(pair.first.number())?;
        }
    }
    into.sort_unstable();
    Ok(())
}

/// Adds the pairs that these lead to over a text.
pub fn text_pairs(
    auto: &Auto,
    marks: &[bool],
    now: &[Pair],
    text: &Text,
    into: &mut Vec<Pair>,
) -> Result<(), NoMemory>
    requires states { AreStates auto.now now.now }
    requires marks { length marks.now ≡ length auto.now }
    ensures { OnOk result ((f : Pair → Bool) → list_any f into.new.items ≡ (list_any f into.old.items || leads_over_text auto.now marks.now text.now f now.now)) }
{
    for pair in now {
        add_text_pairs(auto, marks, *pair, text, into)?;
    }
    sort_pairs(into);
    Ok(())
}

/// Whether the class has every text.
fn has_every_text(words: &Words) -> bool
    ensures { result ≡ true → (t : List ℕ) → class_has words.now t ≡ true }
{
    words.takes_others() && words.texts().is_empty()
}

/// Whether every move of the state on a text takes every text.
fn state_takes_every_text(auto: &Auto, state: State) -> bool
    requires { IsState auto.now state }
    ensures { result ≡ true → (t : List ℕ) → list_any (λ m. not (class_has m.words t)) (moves_at auto.now state).texts ≡ false }
{
    for step in auto.text_moves(state) {
        if !has_every_text(&step.words) {
            return false;
        }
    }
    true
}

/// Whether every move of these pairs on a text takes every text.
pub fn takes_every_text(auto: &Auto, now: &[Pair]) -> bool
    requires { AreStates auto.now now.now }
    ensures { result ≡ true → TakesEveryText auto.now now.now }
{
    for pair in now {
        if !state_takes_every_text(auto, pair.present) {
            return false;
        }
    }
    true
}

/// Adds the pairs that this pair leads to over a text, whichever it is.
fn add_every_text(
    auto: &Auto,
    marks: &[bool],
    pair: Pair,
    into: &mut Vec<Pair>,
) -> Result<(), NoMemory>
    requires state { IsState auto.now pair.present }
    requires marks { length marks.now ≡ length auto.now }
    ensures { OnOk result ((f : Pair → Bool) → list_any f into.new.items ≡ (list_any f into.old.items || list_any (leads_on_text marks.now f pair.first) (moves_at auto.now pair.present).texts)) }
{
    for step in auto.text_moves(pair.present) {
        if marks[step.rest.number()] {
            let next = Pair {
                first: pair.first,
                present: step.rest,
            };
            into.push(next)?;
        }
    }
    Ok(())
}

/// Adds the pairs that these lead to over a text, whichever it is.
pub fn every_text_pairs(
    auto: &Auto,
    marks: &[bool],
    now: &[Pair],
    into: &mut Vec<Pair>,
) -> Result<(), NoMemory>
    requires states { AreStates auto.now now.now }
    requires marks { length marks.now ≡ length auto.now }
    ensures { OnOk result ((f : Pair → Bool) → list_any f into.new.items ≡ (list_any f into.old.items || leads_over_every_text auto.now marks.now f now.now)) }
{
    for pair in now {
        add_every_text(auto, marks, *pair, into)?;
    }
    sort_pairs(into);
    Ok(())
}

/// Adds the moves of these pairs on an element with this label.
pub fn waiting_pairs(
    auto: &Auto,
    marks: &[bool],
    now: &[Pair],
    label: &Label,
    into: &mut Vec<Waiting>,
) -> Result<(), NoMemory>
    requires states { AreStates auto.now now.now }
    requires marks { length marks.now ≡ length auto.now }
    ensures { OnOk result (AddsWaiting auto.now marks.now label.now now.now into.old.items into.new.items) }
{
    for pair in now {
        add_waiting(auto, marks, *pair, label, into)?;
    }
    Ok(())
}

/// Adds the pairs that the content of an open element begins with.
pub fn begin_pairs(waiting: &[Waiting], into: &mut Vec<Pair>) -> Result<(), NoMemory>
    ensures { OnOk result ((f : Pair → Bool) → list_any f into.new.items ≡ (list_any f into.old.items || list_any (begins_content f) waiting.now)) }
{
    for step in waiting {
        let begun = Pair {
            first: step.content,
            present: step.content,
        };
        into.push(begun)?;
    }
    sort_pairs(into);
    Ok(())
}

/// Adds the pairs after an element, whose content may end as the pairs say. `ended` is room.
pub fn pairs_behind(
    auto: &Auto,
    waiting: &[Waiting],
    now: &[Pair],
    ended: &mut Vec<usize>,
    into: &mut Vec<Pair>,
) -> Result<(), NoMemory>
    requires { AreStates auto.now now.now }
    ensures { OnOk result ((f : Pair → Bool) → list_any f into.new.items ≡ (list_any f into.old.items || list_any (leads_behind auto.now now.now f) waiting.now)) }
{
    ended_firsts(auto, now, ended)?;
    for step in waiting {
        if ended.binary_search(&step.content.number()).is_ok() {
            let behind = Pair {
                first: step.first,
                present: step.rest,
            };
            into.push(behind)?;
        }
    }
    sort_pairs(into);
    Ok(())
}

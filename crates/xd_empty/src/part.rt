//! The part of an automaton whose states accept something.

ghost use Rattle.std.specs.Prelude.{◌≡◌, ℕ, ◌<◌, ◌≤◌, ◌&&◌, Bool, IfOk, OnOk, length};
ghost use Rattle.xd_doc.specs.Document.{Document};
ghost use Rattle.xd_auto.specs.Automaton.{IsState, accepts, moves_at};
ghost use Rattle.xd_empty.specs.Parts.{AddsLabels, AddsTexts, AreMarks, IsInhabitedPart, IsKeptPart, leads_on, is_marked};

use crate::inhabit::inhabitants;
use std::alloc::Global;
use xd_auto::{Auto, LabelMove, State, trim};
use xd_doc::{NoMemory, Store};

/// For each state, by its number, whether it accepts any document. It costs what [`inhabitants`]
/// does. Fails only where memory is refused.
pub fn inhabited(alloc: Global, auto: &Auto) -> Result<Vec<bool>, NoMemory>
    ensures { IfOk result (λ marks. AreMarks auto.now marks.items) }
{
    let mut store = Store::new(alloc);
    let found = inhabitants(alloc, auto, &mut store)?;
    let mut marks = Vec::with_capacity(alloc, found.len())?;
    for document in &found {
        marks.push(document.is_some())?;
    }
    Ok(marks)
}

/// The part of an automaton that a state leads to through states that accept something: an
/// automaton with no other states, but for the answer's own, which accepts the same. `NoMemory`
/// where there is no room for it; the automaton that is given stays as it is.
pub fn inhabited_part(alloc: Global, auto: &Auto, state: State) -> Result<(Auto, State), NoMemory>
    requires { IsState auto.now state }
    ensures exact { IfOk result (λ made. (d : Document) → accepts made.0 d made.1 ≡ accepts auto.now d state) }
    ensures start { IfOk result (λ made. IsState made.0 made.1) }
    ensures inhabited { IfOk result (λ made. IsInhabitedPart made.0 made.1) }
{
    let (part, start) = trim(alloc, auto, state)?;
    let marks = inhabited(alloc, &part)?;
    let kept = kept_part(alloc, &part, &marks)?;
    let (made, start) = trim(alloc, &kept, start)?;
    Ok((made, start))
}

/// The same states, with those of their moves that lead to marked states. There is a mark for each
/// state. Fails only where memory is refused.
pub fn kept_part(alloc: Global, auto: &Auto, marks: &[bool]) -> Result<Auto, NoMemory>
    requires { length marks.now ≡ length auto.now }
    ensures { IfOk result (IsKeptPart auto.now marks.now) }
{
    let mut made = Auto::new(alloc);
    for number in 0..auto.len() {
        made.add_state(auto.is_last(auto.state(number)))?;
    }
    for number in 0..auto.len() {
        let state = auto.state(number);
        add_labels(&mut made, auto, state, marks)?;
        add_texts(&mut made, auto, state, marks)?;
    }
    Ok(made)
}

/// Adds those of a state's moves on an element that lead to marked states.
fn add_labels(made: &mut Auto, auto: &Auto, state: State, marks: &[bool]) -> Result<(), NoMemory>
    requires state { IsState auto.now state }
    requires marks { length marks.now ≡ length auto.now }
    requires made { length made.old ≡ length auto.now }
    ensures { OnOk result (AddsLabels marks.now state (moves_at auto.now state).labels made.old made.new) }
{
    for step in auto.label_moves(state) {
        if leads_on(step, marks) {
            made.add_label_move(state, step.class.share()?, step.content, step.rest)?;
        }
    }
    Ok(())
}

/// The same of moves on a text.
fn add_texts(made: &mut Auto, auto: &Auto, state: State, marks: &[bool]) -> Result<(), NoMemory>
    requires state { IsState auto.now state }
    requires marks { length marks.now ≡ length auto.now }
    requires made { length made.old ≡ length auto.now }
    ensures { OnOk result (AddsTexts marks.now state (moves_at auto.now state).texts made.old made.new) }
{
    for step in auto.text_moves(state) {
        if marks[step.rest.number()] {
            made.add_text_move(state, step.words.share()?, step.rest)?;
        }
    }
    Ok(())
}

/// Whether both states that the move leads to are marked.
fn leads_on(step: &LabelMove, marks: &[bool]) -> bool
    requires content { step.now.content.number < length marks.now }
    requires rest { step.now.rest.number < length marks.now }
    ensures { result ≡ leads_on marks.now step.now }
{
    marks[step.content.number()] && marks[step.rest.number()]
}

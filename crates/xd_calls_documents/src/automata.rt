//! Calls about automata.

ghost use Rattle.std.specs.Prelude.{IfOk};
ghost use Rattle.xd_auto.specs.Automaton.{IsState};

use crate::fixture::DocumentFixture;
use crate::named::{document, document_at, state};
use std::alloc::Global;
use std::io::Write;
use xd_auto::{Answers, Auto, Scratch, State, accepts_kept, member, trim};
use xd_calls_lines::{Call, CallError, class, label, show_answer, show_answer_on, words};
use xd_doc::{Seq, Store};
use xd_empty::{Inhabitants, inhabitant, inhabitants, inhabited, inhabited_part};
use xd_read::read_document;

/// What builds: `add_state NAME`, `add_state NAME last`, `add_label_move FROM CLASS CONTENT REST`,
/// `add_text_move FROM CLASS REST`, `union NAME ONE TWO`, `concat NAME ONE TWO`, `wrap NAME LABEL
/// STATE`, `absorb NAME STATE` (of a trimmed copy), `trim NAME STATE` (in place of the automaton).
/// What asks: `member STATE` about the document on each line of its text, `accepts_kept STATE
/// DOCUMENTS` about those of the store, `inhabitant NAME STATE`, which gives the document that was
/// found a name, `inhabitants`, `inhabited`, `learn`. Further, `unite NAME STATES`, and
/// `inhabited_part NAME STATE` (in place of the automaton).
pub fn auto(
    fixture: &mut DocumentFixture,
    call: &Call<'_>,
    out: &mut Vec<u8>,
) -> Result<(), CallError> {
    match call.name {
        "add_state" => add_state(fixture, call, out),
        "add_label_move" => add_label_move(fixture, call),
        "add_text_move" => add_text_move(fixture, call),
        "union" => union(fixture, call, out),
        "concat" => concat(fixture, call, out),
        "wrap" => wrap(fixture, call, out),
        "absorb" => absorb(fixture, call, out),
        "trim" => trimmed(fixture, call, out),
        "member" => show_member(fixture, call, out),
        "accepts_kept" => show_kept(fixture, call, out),
        "inhabitant" => show_inhabitant(fixture, call, out),
        "inhabitants" => show_inhabitants(fixture, call, out),
        "inhabited" => show_inhabited(fixture, call, out),
        "learn" => show_learnt(fixture, call, out),
        "unite" => unite(fixture, call, out),
        "inhabited_part" => keep_inhabited(fixture, call, out),
        _ => Err(CallError::Call),
    }
}

/// The state that the call's word of this number names.
fn state_of(fixture: &DocumentFixture, call: &Call<'_>, number: usize) -> Result<State, CallError>
    ensures { IfOk result (IsState fixture.now.auto) }
{
    state(&fixture.auto, &fixture.states, call.word(number)?)
}

/// The states that the call's words of these numbers name.
fn states_of(
    fixture: &DocumentFixture,
    call: &Call<'_>,
    first: usize,
    second: usize,
) -> Result<(State, State), CallError>
    ensures one { IfOk result (λ states. IsState fixture.now.auto states.0) }
    ensures two { IfOk result (λ states. IsState fixture.now.auto states.1) }
{
    let one = state_of(fixture, call, first)?;
    let two = state_of(fixture, call, second)?;
    Ok((one, two))
}

/// Gives the state the call's first word as a name, and shows how many states there are.
fn give(
    fixture: &mut DocumentFixture,
    call: &Call<'_>,
    state: State,
    out: &mut Vec<u8>,
) -> Result<(), CallError> {
    fixture.states.give(call.word(0)?, Some(state.number()))?;
    writeln!(out, "{} states", fixture.auto.len())?;
    Ok(())
}

fn add_state(
    fixture: &mut DocumentFixture,
    call: &Call<'_>,
    out: &mut Vec<u8>,
) -> Result<(), CallError> {
    let made = fixture.auto.add_state(call.word(1).is_ok())?;
    give(fixture, call, made, out)
}

fn add_label_move(fixture: &mut DocumentFixture, call: &Call<'_>) -> Result<(), CallError> {
    let from = state_of(fixture, call, 0)?;
    let (content, rest) = states_of(fixture, call, 2, 3)?;
    let class = class(call.alloc, call.word(1)?)?;
    fixture.auto.add_label_move(from, class, content, rest)?;
    Ok(())
}

fn add_text_move(fixture: &mut DocumentFixture, call: &Call<'_>) -> Result<(), CallError> {
    let from = state_of(fixture, call, 0)?;
    let rest = state_of(fixture, call, 2)?;
    let words = words(call.alloc, call.word(1)?)?;
    fixture.auto.add_text_move(from, words, rest)?;
    Ok(())
}

fn union(
    fixture: &mut DocumentFixture,
    call: &Call<'_>,
    out: &mut Vec<u8>,
) -> Result<(), CallError> {
    let (one, two) = states_of(fixture, call, 1, 2)?;
    let made = fixture.auto.union(one, two)?;
    give(fixture, call, made, out)
}

fn concat(
    fixture: &mut DocumentFixture,
    call: &Call<'_>,
    out: &mut Vec<u8>,
) -> Result<(), CallError> {
    let (one, two) = states_of(fixture, call, 1, 2)?;
    let made = fixture.auto.concat(one, two)?;
    give(fixture, call, made, out)
}

fn wrap(
    fixture: &mut DocumentFixture,
    call: &Call<'_>,
    out: &mut Vec<u8>,
) -> Result<(), CallError> {
    let content = state_of(fixture, call, 2)?;
    let label = label(call.alloc, call.word(1)?)?;
    let made = fixture.auto.wrap(&label, content)?;
    give(fixture, call, made, out)
}

fn absorb(
    fixture: &mut DocumentFixture,
    call: &Call<'_>,
    out: &mut Vec<u8>,
) -> Result<(), CallError> {
    let start = state_of(fixture, call, 1)?;
    let (part, start) = trim(call.alloc, &fixture.auto, start)?;
    let made = fixture.auto.absorb(&part, start)?;
    give(fixture, call, made, out)
}

fn trimmed(
    fixture: &mut DocumentFixture,
    call: &Call<'_>,
    out: &mut Vec<u8>,
) -> Result<(), CallError> {
    let start = state_of(fixture, call, 1)?;
    let (part, start) = trim(call.alloc, &fixture.auto, start)?;
    fixture.auto = part;
    give(fixture, call, start, out)
}

fn show_member(
    fixture: &DocumentFixture,
    call: &Call<'_>,
    out: &mut Vec<u8>,
) -> Result<(), CallError> {
    let asked = state_of(fixture, call, 0)?;
    for line in call.text.lines() {
        let accepts = is_member(call.alloc, &fixture.auto, asked, line)?;
        show_answer_on(accepts, line, out)?;
    }
    Ok(())
}

/// Whether the state accepts the document that the line spells.
fn is_member(alloc: Global, auto: &Auto, asked: State, line: &str) -> Result<bool, CallError>
    requires { IsState auto.now asked }
{
    let mut store = Store::new(alloc);
    let seq = read_document(alloc, &mut store, line.as_bytes())?;
    let mut scratch = Scratch::reserve(alloc, auto.len(), store.len())?;
    Ok(member(auto, asked, &store, seq, &mut scratch))
}

fn show_kept(
    fixture: &DocumentFixture,
    call: &Call<'_>,
    out: &mut Vec<u8>,
) -> Result<(), CallError> {
    let asked = state_of(fixture, call, 0)?;
    let mut answers = Answers::new(call.alloc);
    for name in call.behind.split_whitespace().skip(1) {
        let seq = document(&fixture.store, &fixture.documents, name)?;
        let accepts = accepts_kept(&mut answers, &fixture.auto, asked, &fixture.store, seq)?;
        show_answer_on(accepts, name, out)?;
    }
    Ok(())
}

fn show_inhabitant(
    fixture: &mut DocumentFixture,
    call: &Call<'_>,
    out: &mut Vec<u8>,
) -> Result<(), CallError> {
    let asked = state_of(fixture, call, 1)?;
    let answer = match inhabitant(call.alloc, &fixture.auto, asked, &mut fixture.store)? {
        Some(seq) => {
            fixture.documents.give(call.word(0)?, seq.place())?;
            "some"
        }
        None => "none",
    };
    writeln!(out, "{answer}")?;
    Ok(())
}

/// Of each state whether it accepts the document that was found for it, or `none` where none was.
fn show_inhabitants(
    fixture: &mut DocumentFixture,
    call: &Call<'_>,
    out: &mut Vec<u8>,
) -> Result<(), CallError> {
    let found = inhabitants(call.alloc, &fixture.auto, &mut fixture.store)?;
    for (number, seq) in found.iter().enumerate() {
        match seq {
            Some(seq) => show_found(fixture, call.alloc, number, *seq, out)?,
            None => out.extend_from_slice(b"none\n")?,
        }
    }
    Ok(())
}

/// Whether the state of this number accepts the document.
fn show_found(
    fixture: &DocumentFixture,
    alloc: Global,
    number: usize,
    found: Seq,
    out: &mut Vec<u8>,
) -> Result<(), CallError> {
    if number >= fixture.auto.len() {
        return Err(CallError::Unknown);
    }
    let seq = document_at(&fixture.store, found.place())?;
    let mut answers = Answers::new(alloc);
    let state = fixture.auto.state(number);
    let accepts = accepts_kept(&mut answers, &fixture.auto, state, &fixture.store, seq)?;
    show_answer(accepts, out)
}

/// Of each state whether it accepts anything.
fn show_inhabited(
    fixture: &DocumentFixture,
    call: &Call<'_>,
    out: &mut Vec<u8>,
) -> Result<(), CallError> {
    for is in inhabited(call.alloc, &fixture.auto)?.iter() {
        show_answer(*is, out)?;
    }
    Ok(())
}

/// For how many states a document is known once all are learnt.
fn show_learnt(
    fixture: &mut DocumentFixture,
    call: &Call<'_>,
    out: &mut Vec<u8>,
) -> Result<(), CallError> {
    let mut known = Inhabitants::new(call.alloc);
    known.learn(call.alloc, &fixture.auto, &mut fixture.store)?;
    let mut count = 0_usize;
    for number in 0..fixture.auto.len() {
        if known.document(fixture.auto.state(number)).is_some() {
            count = count.saturating_add(1);
        }
    }
    writeln!(out, "{count} of {} states", fixture.auto.len())?;
    Ok(())
}

/// One state for those that the call's words from the second on name.
fn unite(
    fixture: &mut DocumentFixture,
    call: &Call<'_>,
    out: &mut Vec<u8>,
) -> Result<(), CallError> {
    let mut states = Vec::new(call.alloc);
    for name in call.behind.split_whitespace().skip(1) {
        states.push(state(&fixture.auto, &fixture.states, name)?)?;
    }
    let made = fixture.auto.unite(&states)?;
    give(fixture, call, made, out)
}

fn keep_inhabited(
    fixture: &mut DocumentFixture,
    call: &Call<'_>,
    out: &mut Vec<u8>,
) -> Result<(), CallError> {
    let start = state_of(fixture, call, 1)?;
    let (part, start) = inhabited_part(call.alloc, &fixture.auto, start)?;
    fixture.auto = part;
    give(fixture, call, start, out)
}

//! What may stand where the bytes of a document stop.

ghost use Rattle.std.specs.Prelude.{◌≡◌, ◌≤◌, ◌++◌, ◌∷◌, [], List, IfOk, length};
ghost use Rattle.std.specs.Option.{IfSome};
ghost use Rattle.xd_auto.specs.Automaton.{IsState};
ghost use Rattle.xd_lex.specs.Tokens.{Lexeme};
ghost use Rattle.xd_read.specs.Reading.{terminals_of};
ghost use Rattle.xd_stream.specs.Expecting.{IsExpected};
ghost use Rattle.xd_stream.specs.Fed.{AreWhole};
ghost use Rattle.xd_stream.specs.Streams.{StandsFor, automaton_of, start_of};

use std::alloc::Global;
use xd_auto::{Auto, State};
use xd_base::Place;
use xd_doc::{Class, NoMemory, Words};
use xd_stream::{Expected, Stream};
use xd_write::write_text;

/// How many things are told at most.
const MOST: usize = 12;

/// How many of the bytes stand before a place.
fn bytes_before(bytes: &[u8], place: Place) -> usize
    ensures { result ≤ length bytes.now }
{
    let mut here = Place { line: 1, column: 1 };
    for at in 0..bytes.len() {
        // (the other bytes of a character go on with it)
        if bytes[at] & 0xC0 == 0x80 {
            continue;
        }
        if here == place {
            return at;
        }
        if bytes[at] == b'\n' {
            here.line = here.line.saturating_add(1);
            here.column = 1;
        } else {
            here.column = here.column.saturating_add(1);
        }
    }
    bytes.len()
}

/// What may come behind these bytes, where they end between two tokens and a document that the state
/// accepts goes on with them. The automaton is given back.
fn expected_behind(
    alloc: Global,
    auto: Auto,
    state: State,
    front: &[u8],
) -> Result<(Option<Expected>, Auto), NoMemory>
    requires { IsState auto state }
    ensures expected { IfOk result (λ r. IfSome r.0 (λ e. (tokens : List Lexeme) → AreWhole (front.now ++ 32 ∷ []) tokens → IsExpected auto state (terminals_of tokens) e)) }
    ensures automaton { IfOk result (λ r. r.1 ≡ auto) }
{
    let mut stream = Stream::new(alloc, auto, state)?;
    let expected = expected_now(&mut stream, front);
    let (_, auto) = stream.finish_and_release();
    Ok((expected, auto))
}

/// The same of a stream before its first byte.
fn expected_now(stream: &mut Stream, front: &[u8]) -> Option<Expected>
    requires { StandsFor stream.old [] }
    ensures expected { IfSome result (λ e. (tokens : List Lexeme) → AreWhole (front.now ++ 32 ∷ []) tokens → IsExpected (automaton_of stream.old) (start_of stream.old) (terminals_of tokens) e) }
    ensures automaton { automaton_of stream.new ≡ automaton_of stream.old }
{
    let Ok(()) = stream.feed(front) else {
        return None;
    };
    // (a blank ends a `(`)
    let Ok(()) = stream.feed(b" ") else {
        return None;
    };
    if 0 < stream.carried() {
        return None;
    }
    match stream.expected() {
        Ok(expected) => Some(expected),
        Err(_) => None,
    }
}

/// Adds an item, unless it is there.
fn add(item: Vec<u8>, items: &mut Vec<Vec<u8>>) -> Result<(), NoMemory> {
    for it in items.iter() {
        if it.as_slice() == item.as_slice() {
            return Ok(());
        }
    }
    items.push(item)?;
    Ok(())
}

/// Adds the same item as a text, where it may come.
fn add_sign(
    alloc: Global,
    may_come: bool,
    sign: &str,
    items: &mut Vec<Vec<u8>>,
) -> Result<(), NoMemory> {
    if may_come {
        add(Vec::from_slice(alloc, sign.as_bytes())?, items)?;
    }
    Ok(())
}

/// Adds the labels of a class, as they begin elements; of all but some labels those, behind `^`.
fn add_labels(alloc: Global, class: &Class, items: &mut Vec<Vec<u8>>) -> Result<(), NoMemory> {
    let is_some = class.takes_others();
    if is_some && class.names().is_empty() {
        return add_sign(alloc, true, "~[", items);
    }
    for label in class.names() {
        let mut item = Vec::new(alloc);
        if is_some {
            item.push(b'^')?;
        }
        item.extend_from_slice(label.as_str().as_bytes())?;
        item.push(b'[')?;
        add(item, items)?;
    }
    Ok(())
}

/// Adds the texts of a class; of all but some texts those, behind `^`.
fn add_texts(alloc: Global, words: &Words, items: &mut Vec<Vec<u8>>) -> Result<(), NoMemory> {
    let is_some = words.takes_others();
    if is_some && words.texts().is_empty() {
        return add_sign(alloc, true, "String", items);
    }
    for text in words.texts() {
        let mut item = Vec::new(alloc);
        if is_some {
            item.push(b'^')?;
        }
        write_text(text.as_str(), &mut item)?;
        add(item, items)?;
    }
    Ok(())
}

/// What may come, each behind a blank.
fn listed(alloc: Global, expected: &Expected) -> Result<Vec<u8>, NoMemory> {
    let mut items = Vec::new(alloc);
    for class in &expected.labels {
        add_labels(alloc, class, &mut items)?;
    }
    for words in &expected.texts {
        add_texts(alloc, words, &mut items)?;
    }
    add_sign(alloc, expected.comma, ",", &mut items)?;
    add_sign(alloc, expected.bracket_r, "]", &mut items)?;
    add_sign(alloc, expected.paren_l, "()", &mut items)?;
    add_sign(alloc, expected.paren_r, ")", &mut items)?;
    add_sign(alloc, expected.end, "the end", &mut items)?;
    let mut list = Vec::new(alloc);
    for at in 0..items.len().min(MOST) {
        list.push(b' ')?;
        list.extend_from_slice(&items[at])?;
    }
    if MOST < items.len() {
        list.extend_from_slice(b" ..")?;
    }
    Ok(list)
}

/// What may stand at this place of the bytes, each behind a blank, and nothing where that can't be
/// told. The automaton is given back.
pub fn may_stand(
    alloc: Global,
    auto: Auto,
    state: State,
    bytes: &[u8],
    place: Place,
) -> Result<(Vec<u8>, Auto), NoMemory>
    requires { IsState auto state }
    ensures { IfOk result (λ r. r.1 ≡ auto) }
{
    let front = bytes_before(bytes, place);
    let (expected, auto) = expected_behind(alloc, auto, state, &bytes[..front])?;
    let list = match &expected {
        Some(expected) => listed(alloc, expected)?,
        None => Vec::new(alloc),
    };
    Ok((list, auto))
}

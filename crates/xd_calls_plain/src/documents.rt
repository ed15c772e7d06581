//! Documents of the slow programs: read, written, joined and split.

ghost use Rattle.std.specs.Prelude.{◌<◌, length};

use std::alloc::Global;
use std::io::Write;
use xd_calls_lines::{Call, CallError};
use xd_doc::{Item, Store};
use xd_plain::{PlainDocument, all_splits};
use xd_read::read_document;

/// About the documents of its text, a line each: `joined`, all of them one after the other;
/// `splits`, each front of each of them, with what is after it.
pub fn documents(call: &Call<'_>, out: &mut Vec<u8>) -> Result<(), CallError> {
    match call.name {
        "joined" => show_joined(call, out),
        "splits" => show_splits(call, out),
        _ => Err(CallError::Call),
    }
}

fn show_joined(call: &Call<'_>, out: &mut Vec<u8>) -> Result<(), CallError> {
    let mut all = PlainDocument::Empty;
    for line in call.text.lines() {
        let document = plain_document(call.alloc, line)?;
        all = all.followed_by(call.alloc, &document)?;
    }
    spell(&all, out)?;
    out.push(b'\n')?;
    Ok(())
}

fn show_splits(call: &Call<'_>, out: &mut Vec<u8>) -> Result<(), CallError> {
    for line in call.text.lines() {
        let document = plain_document(call.alloc, line)?;
        for split in &all_splits(call.alloc, &document)? {
            spell(&split.front, out)?;
            out.extend_from_slice(b" and ")?;
            spell(&split.back, out)?;
            out.push(b'\n')?;
        }
    }
    Ok(())
}

/// The canonical text of a document whose texts need no escapes.
pub(crate) fn spell(document: &PlainDocument, out: &mut Vec<u8>) -> Result<(), CallError> {
    match document {
        PlainDocument::Empty => out.extend_from_slice(b"()")?,
        _ => spell_items(document, out)?,
    }
    Ok(())
}

fn spell_items(document: &PlainDocument, out: &mut Vec<u8>) -> Result<(), CallError> {
    match document {
        PlainDocument::Empty => Ok(()),
        PlainDocument::Text(text, rest) => {
            write!(out, "\"{}\"", text.as_str())?;
            spell_rest(rest.is_empty(), out)?;
            spell_items(rest, out)
        }
        PlainDocument::Elem(label, content, rest) => {
            write!(out, "{}[", label.as_str())?;
            spell_items(content, out)?;
            out.push(b']')?;
            spell_rest(rest.is_empty(), out)?;
            spell_items(rest, out)
        }
    }
}

fn spell_rest(is_last: bool, out: &mut Vec<u8>) -> Result<(), CallError> {
    if !is_last {
        out.push(b',')?;
    }
    Ok(())
}

/// The document that a line spells.
pub fn plain_document(alloc: Global, line: &str) -> Result<PlainDocument, CallError> {
    let mut store = Store::new(alloc);
    let seq = read_document(alloc, &mut store, line.as_bytes())?;
    let place = seq.place();
    let mut made = Vec::new(alloc);
    for number in 0..store.len() {
        let document = plain_node(alloc, &store, number, &made)?;
        made.push(document)?;
    }
    older(alloc, &made, place)
}

/// The document that begins at this place.
fn older(
    alloc: Global,
    made: &[PlainDocument],
    place: Option<usize>,
) -> Result<PlainDocument, CallError> {
    let Some(number) = place else {
        return Ok(PlainDocument::Empty);
    };
    let document = made.get(number).ok_or(CallError::Unknown)?;
    Ok(document.copy(alloc)?)
}

/// The document that begins at this node, made of those of older nodes.
fn plain_node(
    alloc: Global,
    store: &Store,
    number: usize,
    made: &[PlainDocument],
) -> Result<PlainDocument, CallError>
    requires { number < length store.now }
{
    let seq = store.at(number);
    let rest = older(alloc, made, store.next(seq).place())?;
    match store.first(seq) {
        None => Err(CallError::Unknown),
        Some(Item::Text(text)) => Ok(PlainDocument::with_text(alloc, text, rest)?),
        Some(Item::Elem(label)) => {
            let content = older(alloc, made, store.content(seq).place())?;
            Ok(PlainDocument::with_element(alloc, label, content, rest)?)
        }
    }
}

//! Calls about documents.

ghost use Rattle.std.specs.Prelude.{IfOk};
ghost use Rattle.xd_doc.specs.StoredSeq.{BelongsTo};

use crate::fixture::DocumentFixture;
use crate::named::document;
use std::alloc::Global;
use std::io::Write;
use xd_calls_lines::{Call, CallError, label, show_place};
use xd_doc::{Seq, Store, Text};
use xd_read::{ReadError, read_document};
use xd_write::{write_document, write_text};

/// `read NAME : DOCUMENT`, `write DOC`, and what makes a document of others and gives it a name:
/// `text_node NAME NEXT : TEXT`, `elem_node NAME LABEL CONTENT NEXT`, `append NAME FRONT BACK`,
/// `join NAME ONE TWO THREE`, `first_before NAME DOC NEXT`, `copy_out NAME DOC`, which copies into
/// a new store in place of the old one. `part START END : TEXT` writes a part of a text.
pub fn store(
    fixture: &mut DocumentFixture,
    call: &Call<'_>,
    out: &mut Vec<u8>,
) -> Result<(), CallError> {
    match call.name {
        "read" => read(fixture, call, out),
        "write" => {
            let seq = document_of(fixture, call, 0)?;
            Ok(write_document(call.alloc, &fixture.store, seq, out)?)
        }
        "text_node" => text_node(fixture, call, out),
        "elem_node" => elem_node(fixture, call, out),
        "append" => append(fixture, call, out),
        "join" => join(fixture, call, out),
        "first_before" => first_before(fixture, call, out),
        "copy_out" => copy_out(fixture, call, out),
        "part" => show_part(call, out),
        _ => Err(CallError::Call),
    }
}

/// The document that the call's word of this number names.
pub fn document_of(
    fixture: &DocumentFixture,
    call: &Call<'_>,
    number: usize,
) -> Result<Seq, CallError>
    ensures { IfOk result (BelongsTo fixture.now.store) }
{
    document(&fixture.store, &fixture.documents, call.word(number)?)
}

/// The documents that the call's words of these numbers name.
fn documents_of(
    fixture: &DocumentFixture,
    call: &Call<'_>,
    first: usize,
    second: usize,
) -> Result<(Seq, Seq), CallError>
    ensures one { IfOk result (λ documents. BelongsTo fixture.now.store documents.0) }
    ensures two { IfOk result (λ documents. BelongsTo fixture.now.store documents.1) }
{
    let one = document_of(fixture, call, first)?;
    let two = document_of(fixture, call, second)?;
    Ok((one, two))
}

/// Gives the document the call's first word as a name, and shows it.
fn give(
    fixture: &mut DocumentFixture,
    call: &Call<'_>,
    seq: Seq,
    out: &mut Vec<u8>,
) -> Result<(), CallError>
    requires { BelongsTo fixture.old.store seq }
{
    fixture.documents.give(call.word(0)?, seq.place())?;
    show(call.alloc, &fixture.store, seq, out)
}

/// The document, after the number of the store's nodes.
fn show(alloc: Global, store: &Store, seq: Seq, out: &mut Vec<u8>) -> Result<(), CallError>
    requires { BelongsTo store.now seq }
{
    write!(out, "{} nodes: ", store.len())?;
    Ok(write_document(alloc, store, seq, out)?)
}

fn read(
    fixture: &mut DocumentFixture,
    call: &Call<'_>,
    out: &mut Vec<u8>,
) -> Result<(), CallError> {
    match read_document(call.alloc, &mut fixture.store, call.text.as_bytes()) {
        Ok(seq) => give(fixture, call, seq, out),
        Err(ReadError::Malformed(place)) => {
            show_place(place, out)?;
            Ok(out.extend_from_slice(b" malformed\n")?)
        }
        Err(error) => Err(CallError::from(error)),
    }
}

fn text_node(
    fixture: &mut DocumentFixture,
    call: &Call<'_>,
    out: &mut Vec<u8>,
) -> Result<(), CallError> {
    let next = document_of(fixture, call, 1)?;
    let text = Text::new(call.alloc, call.text)?;
    let seq = fixture.store.text_node(text, next)?;
    give(fixture, call, seq, out)
}

fn elem_node(
    fixture: &mut DocumentFixture,
    call: &Call<'_>,
    out: &mut Vec<u8>,
) -> Result<(), CallError> {
    let (content, next) = documents_of(fixture, call, 2, 3)?;
    let label = label(call.alloc, call.word(1)?)?;
    let seq = fixture.store.elem_node(label, content, next)?;
    give(fixture, call, seq, out)
}

fn append(
    fixture: &mut DocumentFixture,
    call: &Call<'_>,
    out: &mut Vec<u8>,
) -> Result<(), CallError> {
    let (front, back) = documents_of(fixture, call, 1, 2)?;
    let seq = fixture.store.append(front, back)?;
    give(fixture, call, seq, out)
}

fn first_before(
    fixture: &mut DocumentFixture,
    call: &Call<'_>,
    out: &mut Vec<u8>,
) -> Result<(), CallError> {
    let (seq, next) = documents_of(fixture, call, 1, 2)?;
    let seq = fixture.store.first_before(seq, next)?;
    give(fixture, call, seq, out)
}

/// Three documents, joined.
fn join(
    fixture: &mut DocumentFixture,
    call: &Call<'_>,
    out: &mut Vec<u8>,
) -> Result<(), CallError> {
    let (one, two) = documents_of(fixture, call, 1, 2)?;
    let three = document_of(fixture, call, 3)?;
    let seq = fixture.store.join(&[one, two, three])?;
    give(fixture, call, seq, out)
}

fn copy_out(
    fixture: &mut DocumentFixture,
    call: &Call<'_>,
    out: &mut Vec<u8>,
) -> Result<(), CallError> {
    let seq = document_of(fixture, call, 1)?;
    let mut store = Store::new(call.alloc);
    let copy = fixture.store.copy_out(call.alloc, seq, &mut store)?;
    fixture.store = store;
    give(fixture, call, copy, out)
}

/// The part of the call's text between two bytes.
fn show_part(call: &Call<'_>, out: &mut Vec<u8>) -> Result<(), CallError> {
    let start = call.size(0)?;
    let end = call.size(1)?;
    let text = Text::new(call.alloc, call.text)?;
    let whole = text.as_str();
    if start > end || !whole.is_char_boundary(start) || !whole.is_char_boundary(end) {
        return Err(CallError::Words);
    }
    let part = text.part(start, end)?;
    write_text(part.as_str(), out)?;
    out.push(b'\n')?;
    Ok(())
}

//! Outputs, each with its status in front.

ghost use Rattle.std.specs.Prelude.{◌≡◌};
ghost use Rattle.xd_syntax.specs.declared.fault.FaultKind.TheVariants as kinds;

use std::alloc::Global;
use std::io::Write;
use xd_base::{MemorySink, Place};
use xd_calls_lines::{Call, CallError};
use xd_command_steps::{Output, report_lines};
use xd_doc::Store;
use xd_proof_check::Reason;
use xd_read::read_document;
use xd_syntax::{Fault, FaultKind, Warning};

/// `output NAME WORDS`, where the words are those that the output carries; a document is the call's
/// text. `report_lines LINE COLUMN LINE COLUMN` shows the lines of a fault and of a warning.
pub fn output(call: &Call<'_>, out: &mut Vec<u8>) -> Result<(), CallError> {
    if call.name == "report_lines" {
        return show_report(call, out);
    }
    let made = match call.name {
        "canonical" => document_output(call, DocumentOutput::Canonical)?,
        "separated" => document_output(call, DocumentOutput::Separated)?,
        "accepted" => accepted(call.alloc, call.text)?,
        "malformed_document" => Output::malformed_document(call.alloc, place_of(call, 0)?)?,
        "outside_type" => Output::outside_type(call.alloc, place_of(call, 0)?)?,
        "bad_line" => Output::bad_line(call.alloc, call.number(0)?, Reason::Leaf)?,
        "summary" => summary(call)?,
        "faults" => Output::faults(call.alloc, &[fault_at(place_of(call, 0)?)])?,
        _ => named_output(call)?,
    };
    show_output(call.alloc, &made, out)
}

/// The status with which the text is sent, and the text.
pub fn show_output(alloc: Global, output: &Output, out: &mut Vec<u8>) -> Result<(), CallError> {
    let mut sink = MemorySink::new(alloc, output.text().len(), 64)?;
    let status = output.send(&mut sink);
    write!(out, "{} ", status.code)?;
    out.extend_from_slice(sink.written())?;
    Ok(())
}

/// The place whose line and column stand from the call's word of this number on.
fn place_of(call: &Call<'_>, first: usize) -> Result<Place, CallError> {
    let line = call.number(first)?;
    let column = call.number(first.saturating_add(1))?;
    Ok(Place { line, column })
}

/// A fault that carries no document.
fn fault_at(place: Place) -> Fault
    ensures { result.kind ≡ kinds.Syntax }
{
    Fault {
        place: Some(place),
        kind: FaultKind::Syntax,
    }
}

/// The lines of a fault at the first place and of a warning at the second.
fn show_report(call: &Call<'_>, out: &mut Vec<u8>) -> Result<(), CallError> {
    let fault = fault_at(place_of(call, 0)?);
    let place = place_of(call, 2)?;
    let store = Store::new(call.alloc);
    let lines = report_lines(call.alloc, &store, &[fault], &[Warning { place }])?;
    out.extend_from_slice(&lines)?;
    Ok(())
}

fn accepted(alloc: Global, lines: &str) -> Result<Output, CallError> {
    let lines = Vec::from_slice(alloc, lines.as_bytes())?;
    Ok(Output::accepted(lines)?)
}

fn summary(call: &Call<'_>) -> Result<Output, CallError> {
    let persons = call.number(0)?;
    let document = call.size(1)?;
    let value = call.size(2)?;
    let calls = call.number(3)?;
    Ok(Output::summary(call.alloc, persons, document, value, calls)?)
}

/// What is written with a document.
#[derive(Clone, Copy)]
enum DocumentOutput {
    Canonical,
    Separated,
}

fn document_output(call: &Call<'_>, form: DocumentOutput) -> Result<Output, CallError> {
    let mut store = Store::new(call.alloc);
    let document = read_document(call.alloc, &mut store, call.text.as_bytes())?;
    let made = match form {
        DocumentOutput::Canonical => Output::canonical(call.alloc, &store, document)?,
        DocumentOutput::Separated => Output::separated(call.alloc, &store, document)?,
    };
    Ok(made)
}

/// An output that carries a name, or nothing.
fn named_output(call: &Call<'_>) -> Result<Output, CallError> {
    let made = match call.name {
        "cannot_read" => Output::cannot_read(call.alloc, call.word(0)?)?,
        "too_long" => Output::too_long(call.alloc, call.word(0)?)?,
        "undefined_type" => Output::undefined_type(call.alloc, call.word(0)?)?,
        "undefined_types" => Output::undefined_types(call.alloc, call.word(0)?, call.word(1)?)?,
        _ => plain_output(call.alloc, call.name)?,
    };
    Ok(made)
}

fn plain_output(alloc: Global, name: &str) -> Result<Output, CallError> {
    let made = match name {
        "yes" => Output::yes(alloc)?,
        "no" => Output::no(alloc)?,
        "outside_input" => Output::outside_input(alloc)?,
        "fuel_spent" => Output::fuel_spent(alloc)?,
        "no_main" => Output::no_main(alloc)?,
        "usage" => Output::usage(alloc)?,
        _ => return Err(CallError::Call),
    };
    Ok(made)
}

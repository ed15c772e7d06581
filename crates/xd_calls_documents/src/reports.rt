//! Calls about the lines of faults and warnings.

ghost use Rattle.std.specs.Prelude.{IfOk, List};
ghost use Rattle.xd_doc.specs.Document.{Document};
ghost use Rattle.xd_report.specs.Carries.{CarriesFrom};

use crate::documents::document_of;
use crate::fixture::DocumentFixture;
use xd_base::Place;
use xd_calls_lines::{Call, CallError, label};
use xd_doc::Text;
use xd_report::{fault_line, warning_line};
use xd_syntax::{Fault, FaultKind, Warning};

/// `warning LINE COLUMN`, and lines of faults: `fault LINE COLUMN KIND`, with the document, the
/// name or the numbers that the kind carries after it; LINE 0 for none.
pub fn report(
    fixture: &DocumentFixture,
    call: &Call<'_>,
    out: &mut Vec<u8>,
) -> Result<(), CallError> {
    match call.name {
        "warning" => {
            let place = place_of(call)?;
            Ok(warning_line(call.alloc, &Warning { place }, out)?)
        }
        "fault" => {
            let place = place_of(call)?;
            let place = if place.line > 0 { Some(place) } else { None };
            let kind = kind_of(fixture, call)?;
            Ok(fault_line(call.alloc, &fixture.store, &Fault { place, kind }, out)?)
        }
        _ => Err(CallError::Call),
    }
}

fn place_of(call: &Call<'_>) -> Result<Place, CallError> {
    let line = call.number(0)?;
    let column = call.number(1)?;
    Ok(Place { line, column })
}

/// The kind of a fault, with the document that it carries.
fn kind_of(fixture: &DocumentFixture, call: &Call<'_>) -> Result<FaultKind, CallError>
    ensures { IfOk result (CarriesFrom fixture.now.store) }
{
    match call.word(2)? {
        "not_exhaustive" => Ok(FaultKind::NotExhaustive(document_of(fixture, call, 3)?)),
        "argument" => Ok(FaultKind::Argument(document_of(fixture, call, 3)?)),
        "result" => Ok(FaultKind::Result(document_of(fixture, call, 3)?)),
        word => kind_of_words(call, word),
    }
}

/// A kind that carries words and numbers, or nothing.
fn kind_of_words(call: &Call<'_>, kind: &str) -> Result<FaultKind, CallError>
    ensures { IfOk result (λ found. (ds : List Document) → CarriesFrom ds found) }
{
    match kind {
        "syntax" => Ok(FaultKind::Syntax),
        "arity" => arity(call),
        "no_such_name" => Ok(FaultKind::NoSuchName(Text::new(call.alloc, call.word(3)?)?)),
        "no_main" => Ok(FaultKind::NoMain),
        _ => Err(CallError::Words),
    }
}

fn arity(call: &Call<'_>) -> Result<FaultKind, CallError>
    ensures { IfOk result (λ found. (ds : List Document) → CarriesFrom ds found) }
{
    let found = call.number(4)?;
    let wanted = call.number(5)?;
    let function = label(call.alloc, call.word(3)?)?;
    Ok(FaultKind::Arity(function, found, wanted))
}

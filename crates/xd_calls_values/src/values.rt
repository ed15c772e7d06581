//! What a program means on documents.

ghost use Rattle.std.specs.Prelude.{◌≡◌, ◌≤◌, true, IfOk, OnOk};
ghost use Rattle.xd_doc.specs.Stored.{document_at};
ghost use Rattle.xd_doc.specs.StoredSeq.{BelongsTo};
ghost use Rattle.xd_eval.specs.Evaluation.{IsInput};
ghost use Rattle.xd_match.specs.Serving.{Serves};

use std::alloc::Global;
use std::io::Write;
use xd_calls_checked::checked_of;
use xd_calls_lines::{Call, CallError};
use xd_doc::{Seq, Store};
use xd_eval::{Outcome, evaluate_with};
use xd_match::Matchers;
use xd_read::read_document;
use xd_sound::Checked;
use xd_uses::is_input;
use xd_write::write_document;

/// `values FUEL DOCUMENTS`: the program's value on each of the documents, which fit its input type,
/// and the calls that it took, by matchers that are kept from one to the next.
pub fn show_values(call: &Call<'_>, out: &mut Vec<u8>) -> Result<(), CallError> {
    let fuel = call.number(0)?;
    if fuel == 0 {
        return Err(CallError::Words);
    }
    let checked = checked_of(call)?;
    let mut store = Store::new(call.alloc);
    show_each(call, &checked, fuel, &mut store, out)
}

fn show_each(
    call: &Call<'_>,
    checked: &Checked,
    fuel: u64,
    store: &mut Store,
    out: &mut Vec<u8>,
) -> Result<(), CallError>
    requires { 1 ≤ fuel }
{
    let mut matchers = Matchers::new(call.alloc, checked.sound())?;
    for document in call.behind.split_whitespace().skip(1) {
        show_value(
            call.alloc,
            checked,
            fuel,
            &mut matchers,
            store,
            document,
            out,
        )?;
    }
    Ok(())
}

/// The value on the document, which is put into the store.
fn show_value(
    alloc: Global,
    checked: &Checked,
    fuel: u64,
    matchers: &mut Matchers,
    store: &mut Store,
    document: &str,
    out: &mut Vec<u8>,
) -> Result<(), CallError>
    requires fuel { 1 ≤ fuel }
    requires serves { Serves checked.now store.old matchers.old }
    ensures { OnOk result (Serves checked.now store.new matchers.new) }
{
    let input = read_document(alloc, store, document.as_bytes())?;
    if !fits_input(alloc, checked, store, input)? {
        return Err(CallError::Words);
    }
    matchers.stays_serving();
    match evaluate_with(alloc, checked, matchers, store, input, fuel)? {
        Outcome::Value(value, calls) => {
            write_document(alloc, store, value, out)?;
            writeln!(out, " in {calls} calls")?;
        }
        Outcome::Spent => out.extend_from_slice(b"spent\n")?,
    }
    Ok(())
}

/// Whether the document fits the input type of the program, which has one.
fn fits_input(
    alloc: Global,
    checked: &Checked,
    store: &Store,
    input: Seq,
) -> Result<bool, CallError>
    requires { BelongsTo store.now input }
    ensures { IfOk result (λ is. is ≡ true → IsInput checked.now (document_at store.now input)) }
{
    match is_input(alloc, checked, store, input) {
        Ok(is) => Ok(is),
        Err(_) => Err(CallError::Missing),
    }
}

//! From a program and a document to a value.

ghost use Rattle.std.specs.Prelude.{◌≡◌, ◌≤◌, true, IfOk};
ghost use Rattle.xd_doc.specs.Stored.{document_at};
ghost use Rattle.xd_doc.specs.StoredSeq.{BelongsTo};
ghost use Rattle.xd_doc.specs.StoreNodes.{Keeps};
ghost use Rattle.xd_eval.specs.Evaluation.{IsEvaluated, IsInput};
ghost use Rattle.xd_read.specs.Reading.{BytesSpell};
ghost use Rattle.xd_syntax.specs.Kept.{program_tree};
ghost use Rattle.xd_uses.specs.Values.{IsValue, IsValueOn};

use crate::documents::fits_type;
use crate::programs::sound_program;
use anyhow::{Context, Result, bail};
use std::alloc::Global;
use xd_check::{CheckOutcome, check};
use xd_doc::{Seq, Store};
use xd_eval::{Outcome, evaluate};
use xd_read::read_document;
use xd_sound::{Checked, SoundProgram, parameter_of_main};
use xd_write::write_document;

/// A value, and how many calls it took.
#[derive(Drop)]
pub struct Value {
    pub text: Vec<u8>,
    pub calls: u64,
}

/// The program, where it is accepted.
fn accepted(alloc: Global, sound: SoundProgram, store: &mut Store) -> Result<Checked>
    ensures { IfOk result (λ checked. program_tree checked ≡ program_tree sound) }
{
    match check(alloc, sound, store)? {
        CheckOutcome::Accepted { checked, .. } => Ok(checked),
        CheckOutcome::Refused { faults, .. } => bail!("{} faults", faults.len()),
    }
}

/// Whether the document fits the type of the parameter of `main`, which has one parameter.
pub fn is_input(alloc: Global, checked: &Checked, store: &Store, document: Seq) -> Result<bool>
    requires { BelongsTo store.now document }
    ensures { IfOk result (λ is. is ≡ true → IsInput checked.now (document_at store.now document)) }
{
    let program = checked.sound().program();
    let parameter = parameter_of_main(program.functions());
    let parameter = parameter.context("no main with one parameter")?;
    let mut sound = checked.sound().copy(alloc)?;
    Ok(fits_type(alloc, &mut sound, parameter, store, document)?)
}

/// The document that a text spells, where it is an input of the program.
fn input_of(alloc: Global, checked: &Checked, store: &mut Store, document: &str) -> Result<Seq>
    ensures belongs { IfOk result (BelongsTo store.new) }
    ensures spelled { IfOk result (λ input. BytesSpell document.now (document_at store.new input)) }
    ensures input { IfOk result (λ input. IsInput checked.now (document_at store.new input)) }
{
    let input = read_document(alloc, store, document.as_bytes())?;
    let fits = is_input(alloc, checked, store, input)?;
    if fits {
        Ok(input)
    } else {
        bail!("outside the input type")
    }
}

/// The value of the accepted program on its input, and how many calls it took.
fn evaluated(
    alloc: Global,
    checked: &Checked,
    store: &mut Store,
    input: Seq,
    fuel: u64,
) -> Result<(Seq, u64)>
    requires belongs { BelongsTo store.old input }
    requires input { IsInput checked.now (document_at store.old input) }
    requires fuel { 1 ≤ fuel }
    ensures { IfOk result (λ made. IsEvaluated checked.now (document_at store.old input) fuel store.new (Outcome.Value made.0 made.1)) }
{
    match evaluate(alloc, checked, store, input, fuel)? {
        Outcome::Value(value, calls) => Ok((value, calls)),
        Outcome::Spent => bail!("fuel spent"),
    }
}

/// The value of the accepted program on the document that a text spells.
fn value_on(
    alloc: Global,
    checked: &Checked,
    store: &mut Store,
    document: &str,
    fuel: u64,
) -> Result<Value>
    requires { 1 ≤ fuel }
    ensures { IfOk result (IsValueOn (program_tree checked.now) document.now fuel) }
{
    let input = input_of(alloc, checked, store, document)?;
    let (value, calls) = evaluated(alloc, checked, store, input, fuel)?;
    let mut text = Vec::new(alloc);
    write_document(alloc, store, value, &mut text)?;
    Ok(Value { text, calls })
}

/// The value of the program that a text spells, on the document that another text spells, in at
/// most so many calls.
pub fn value_of(alloc: Global, program: &str, document: &str, fuel: u64) -> Result<Value>
    requires { 1 ≤ fuel }
    ensures { IfOk result (IsValue program.now document.now fuel) }
{
    let sound = sound_program(alloc, program)?;
    let mut store = Store::new(alloc);
    let checked = accepted(alloc, sound, &mut store)?;
    let value = value_on(alloc, &checked, &mut store, document, fuel)?;
    Ok(value)
}

//! The command `sample`.

ghost use Rattle.std.specs.Prelude.{◌≡◌, ◌≤◌, ◌++◌, true, length, Some, IfOk, decimal};
ghost use Rattle.xd_doc.specs.Document.{canonical_text, empty};
ghost use Rattle.xd_doc.specs.Stored.{document_at};
ghost use Rattle.xd_doc.specs.StoredSeq.{BelongsTo};
ghost use Rattle.xd_doc.specs.StoreNodes.{Keeps};
ghost use Rattle.xd_doc.specs.Word.{is_word};
ghost use Rattle.xd_syntax.specs.Kept.{program_tree};
ghost use Rattle.xd_command_sample.specs.Telephones.{telephone_program};
ghost use Rattle.xd_command_sample.specs.Persons.{field, person, persons_to};
ghost use Rattle.xd_command_programs.specs.Running.{IsInputTest};
ghost use Rattle.xd_command_programs.specs.Sample.{AnswersSample, sample_limit};
ghost use Rattle.xd_command_steps.specs.DoneSteps.{DoesAll};

use crate::command::run::{accept, value_on};
use std::alloc::Global;
use xd_auto::{Auto, State};
use xd_command_sample::{nothing_is_reported, telephones_are_listed, text_is_read};
use xd_command_steps::{Output, Stop, sound_program};
use xd_doc::{Label, NoMemory, Seq, Store, Text};
use xd_sound::{Checked, SoundProgram};
use xd_write::write_document;

/// How many persons a sample may have.
pub const SAMPLE_LIMIT: u64 = 2_000;

/// Of persons in a row, the names and telephone numbers of those that have one.
const TELEPHONES: &str = "type Name = name[String]
type Addr = addr[String]
type Tel = tel[String]
fun main (val x as (Name,Addr,Tel?)*) : (Name,Tel)* =
  match x with
    val n as Name, Addr, val t as Tel, val rest -> n, t, main(rest)
  | Name, Addr, val rest -> main(rest)
  | () -> ()
";

/// An element around a text, which is the front and the number, and then the document.
fn field(
    alloc: Global,
    store: &mut Store,
    label: &str,
    front: &str,
    number: u64,
    next: Seq,
) -> Result<Seq, NoMemory>
    requires label { is_word label.now ≡ true }
    requires next { BelongsTo store.old next }
    ensures made { IfOk result (λ seq. document_at store.new seq ≡ field label.now (front.now ++ decimal number) (document_at store.old next)) }
    ensures belongs { IfOk result (BelongsTo store.new) }
    ensures keeps { Keeps store.old store.new }
{
    let characters = format!(in alloc; "{front}{number}")?;
    let text = Text::new(alloc, &characters)?;
    let content = store.text_node(text, Seq::empty())?;
    store.elem_node(Label::new(alloc, label)?, content, next)
}

/// The person of this number, and then the document.
fn person(alloc: Global, store: &mut Store, number: u64, next: Seq) -> Result<Seq, NoMemory>
    requires { BelongsTo store.old next }
    ensures made { IfOk result (λ seq. document_at store.new seq ≡ person number (document_at store.old next)) }
    ensures belongs { IfOk result (BelongsTo store.new) }
    ensures keeps { Keeps store.old store.new }
{
    let mut made = next;
    if number % 3 != 0 {
        made = field(alloc, store, "tel", "", number, made)?;
    }
    made = field(alloc, store, "addr", "s", number, made)?;
    field(alloc, store, "name", "p", number, made)
}

/// The persons from 1 to this number in a row: each a name, an address and, unless 3 divides its
/// number, a telephone. Fails only where memory is refused; the store may have more documents then,
/// and keeps its old ones.
pub fn sample_document(alloc: Global, store: &mut Store, persons: u64) -> Result<Seq, NoMemory>
    ensures made { IfOk result (λ seq. document_at store.new seq ≡ persons_to persons empty) }
    ensures belongs { IfOk result (BelongsTo store.new) }
    ensures keeps { Keeps store.old store.new }
{
    let mut made = Seq::empty();
    let mut left = persons;
    while left > 0 {
        made = person(alloc, store, left, made)?;
        left -= 1;
    }
    Ok(made)
}

/// How many bytes the canonical text of the document has.
fn text_length(alloc: Global, store: &Store, document: Seq) -> Result<usize, NoMemory>
    requires { BelongsTo store.now document }
    ensures { IfOk result (λ n. n ≡ length (canonical_text (document_at store.now document))) }
{
    let mut text = Vec::new(alloc);
    write_document(alloc, store, document, &mut text)?;
    Ok(text.len())
}

/// Runs the program on so many persons, where the state accepts exactly what fits its input type.
fn sample_on(
    alloc: Global,
    checked: &Checked,
    auto: &Auto,
    state: State,
    persons: u64,
) -> Result<Output, Stop>
    requires program { program_tree checked.now ≡ telephone_program }
    requires test { IsInputTest (program_tree checked.now) (Some (auto.now, state)) }
    requires few { persons ≤ sample_limit }
    ensures { DoesAll result (AnswersSample persons) }
{
    telephones_are_listed();
    let mut store = Store::new(alloc);
    let input = sample_document(alloc, &mut store, persons)?;
    let document = text_length(alloc, &store, input)?;
    let fuel = persons + 1;
    let (value, calls) = value_on(alloc, checked, auto, state, &mut store, input, fuel)?;
    let written = text_length(alloc, &store, value)?;
    Ok(Output::summary(alloc, persons, document, written, calls)?)
}

/// Checks the program, and runs it on so many persons.
fn sample_program(alloc: Global, sound: SoundProgram, persons: u64) -> Result<Output, Stop>
    requires program { program_tree sound ≡ telephone_program }
    requires few { persons ≤ sample_limit }
    ensures { DoesAll result (AnswersSample persons) }
{
    nothing_is_reported();
    let (test, checked) = accept(alloc, sound)?;
    match test {
        None => unreachable!(),
        Some((auto, state)) => sample_on(alloc, &checked, &auto, state, persons),
    }
}

/// Makes a document of so many persons, checks the telephone program, and runs it on them.
///
/// None of the answers of `check` and `run` to other programs or documents comes: no fault, no
/// document outside the input type, and no spent fuel.
pub fn sample(alloc: Global, persons: u64) -> Result<Output, Stop>
    requires { persons ≤ sample_limit }
    ensures { DoesAll result (AnswersSample persons) }
{
    text_is_read();
    let sound = sound_program(alloc, TELEPHONES.as_bytes())?;
    sample_program(alloc, sound, persons)
}

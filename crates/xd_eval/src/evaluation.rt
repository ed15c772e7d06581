//! The evaluation of an accepted program.

ghost use Rattle.std.specs.Prelude.{◌≤◌, IfOk};
ghost use Rattle.xd_doc.specs.Stored.{document_at};
ghost use Rattle.xd_doc.specs.StoredSeq.{BelongsTo};
ghost use Rattle.xd_doc.specs.StoreNodes.{Keeps};
ghost use Rattle.xd_syntax.specs.Kept.{program_tree};
ghost use Rattle.xd_eval.specs.Evaluation.{IsEvaluated, IsInput, IsOfDeclared};
ghost use Rattle.xd_eval.specs.Machine.{IsStart};
ghost use Rattle.xd_eval.specs.Functions.{AreFunctionNames};

use crate::frame::{Control, Ending, Scope};
use crate::functions::{FunctionNames, NamedProgram};
use crate::joins::Value;
use crate::machine::run;
use crate::matching::Matching;
use crate::resuming::bind;
use std::alloc::Global;
use xd_doc::{Label, NoMemory, Seq, Store};
use xd_laws::{accepted_programs_are_safe, bindings_are_in_order};
use xd_match::Matchers;
use xd_sound::Checked;

/// What an accepted program comes to on fuel.
#[derive(Clone, Copy)]
pub enum Outcome {
    /// The value, and the calls that were made, that of `main` included.
    Value(Seq, u64),
    /// The program needs more calls than the fuel.
    Spent,
}

/// Calls `main` on a document, where so many calls are allowed, that of `main` included.
///
/// Pending elements, sequences, calls and matches wait on a stack of the machine's own, so neither
/// calls nor documents nest too deep for it. A call that nothing is left to do after leaves no
/// frame. After `NoMemory` the store has more documents at most.
pub fn evaluate_with<M: Matching>(
    alloc: Global,
    checked: &Checked,
    matching: &mut M,
    store: &mut Store,
    input: Seq,
    fuel: u64,
) -> Result<Outcome, NoMemory>
    requires serves { M.serves matching.old checked.now store.old }
    requires seq { BelongsTo store.old input }
    requires input { IsInput checked.now (document_at store.old input) }
    requires fuel { 1 ≤ fuel }
    ensures evaluated { IfOk result (IsEvaluated checked.now (document_at store.old input) fuel store.new) }
    ensures declared { IfOk result (IsOfDeclared (program_tree checked.now) store.new) }
    ensures serves { M.serves matching.new checked.now store.new }
    ensures keeps { Keeps store.old store.new }
{
    accepted_programs_are_safe();
    bindings_are_in_order();
    let sound = checked.sound();
    let names = FunctionNames::new(alloc, sound.program().functions())?;
    let program = NamedProgram {
        sound,
        names: &names,
    };
    let Some(start) = start_of(alloc, program, store, input)? else {
        unreachable!()
    };
    match run(alloc, program, matching, store, start, fuel - 1)? {
        Ending::Value(seq, left) => Ok(Outcome::Value(seq, fuel - left)),
        Ending::Spent => Ok(Outcome::Spent),
        Ending::Stuck => unreachable!(),
    }
}

/// Calls `main`, which has one parameter, on a document that fits the parameter's type, where so
/// many calls are allowed, that of `main` included: one at least. `Value` with the value that the
/// program means and the calls that were made; `Spent` exactly where the program needs more calls
/// than the fuel.
///
/// First matches are found by the program's compiled patterns ([`evaluate_with`] takes what finds
/// them from outside). After `NoMemory` the store has more documents at most.
pub fn evaluate(
    alloc: Global,
    checked: &Checked,
    store: &mut Store,
    input: Seq,
    fuel: u64,
) -> Result<Outcome, NoMemory>
    requires seq { BelongsTo store.old input }
    requires input { IsInput checked.now (document_at store.old input) }
    requires fuel { 1 ≤ fuel }
    ensures evaluated { IfOk result (IsEvaluated checked.now (document_at store.old input) fuel store.new) }
    ensures declared { IfOk result (IsOfDeclared (program_tree checked.now) store.new) }
    ensures keeps { Keeps store.old store.new }
{
    let mut matchers = Matchers::new(alloc, checked.sound())?;
    evaluate_with(alloc, checked, &mut matchers, store, input, fuel)
}

/// The call of `main` on a document.
fn start_of(
    alloc: Global,
    program: NamedProgram<'_>,
    store: &Store,
    input: Seq,
) -> Result<Option<Control>, NoMemory>
    requires names { AreFunctionNames program.names.now program.sound.now.functions }
    requires input { BelongsTo store.now input }
    ensures { IfOk result (IsStart program.entry.sound.now store.now input) }
{
    let functions = program.sound.program().functions();
    let main = Label::new(alloc, "main")?;
    let Some(function) = program.names.find(functions, &main) else {
        return Ok(None);
    };
    let bound = bind(alloc, function.params(), &[Value::of(input)])?;
    let scope = Scope::new(alloc, bound)?;
    Ok(Some(Control::Evaluate(function.body(), scope)))
}

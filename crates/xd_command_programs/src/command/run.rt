//! The command `run`.

ghost use Rattle.std.specs.Prelude.{◌≡◌, ◌≤◌, Some, IfOk};
ghost use Rattle.xd_base.specs.Outside.{HasRisen};
ghost use Rattle.xd_doc.specs.Stored.{document_at};
ghost use Rattle.xd_doc.specs.StoredSeq.{BelongsTo};
ghost use Rattle.xd_doc.specs.StoreNodes.{Keeps};
ghost use Rattle.xd_syntax.specs.Kept.{AddsTypes, program_tree};
ghost use Rattle.xd_syntax.specs.CheckFaults.{IsAccepted};
ghost use Rattle.xd_syntax.specs.Tree.{Tree};
ghost use Rattle.xd_command_programs.specs.Run.{AnswersInput, AnswersMain, AnswersRun, EndsAtLines, EndsAtValue, IsValue, input_type};
ghost use Rattle.xd_command_programs.specs.Running.{IsInputTest};
ghost use Rattle.xd_command_steps.specs.Programs.{AnswersOn};
ghost use Rattle.xd_command_steps.specs.DoneSteps.{DoesAll, DoesStep};

use std::alloc::Global;
use xd_auto::{Auto, State};
use xd_base::Shelf;
use xd_check::{CheckOutcome, check};
use xd_command_documents::{acceptor, accepts};
use xd_command_steps::{Output, Stop, load_document, load_program, report_lines};
use xd_doc::{NoMemory, Seq, Store};
use xd_eval::{Outcome, evaluate};
use xd_sound::{Checked, SoundProgram, parameter_of_main};

/// A state that accepts exactly what fits the input type, where `main` has one parameter.
fn input_test(alloc: Global, sound: &mut SoundProgram) -> Result<Option<(Auto, State)>, NoMemory>
    ensures test { IfOk result (IsInputTest (program_tree sound.old)) }
    ensures adds { AddsTypes sound.old sound.new }
    ensures same { program_tree sound.new ≡ program_tree sound.old }
{
    match parameter_of_main(sound.program().functions()) {
        None => Ok(None),
        Some(id) => {
            let (auto, state) = acceptor(alloc, sound, id)?;
            Ok(Some((auto, state)))
        }
    }
}

/// A program that is accepted, and the test of its input; else the faults of the program.
pub fn accept(alloc: Global, sound: SoundProgram) -> Result<(Option<(Auto, State)>, Checked), Stop>
    ensures { DoesStep result (EndsAtLines (program_tree sound)) (λ made. (program_tree made.1 ≡ program_tree sound) × IsAccepted (program_tree sound) × IsInputTest (program_tree sound) made.0) }
{
    let mut sound = sound;
    let test = input_test(alloc, &mut sound)?;
    let checked = accepted(alloc, sound)?;
    let _sound = checked.sound();
    Ok((test, checked))
}

/// The program, where it is accepted; else its faults.
///
/// What is written has fewer than 2^63 bytes, since it stands in a vector; so the documents that
/// faults carry are least ones.
fn accepted(alloc: Global, sound: SoundProgram) -> Result<Checked, Stop>
    ensures { DoesStep result (EndsAtLines (program_tree sound)) (λ checked. program_tree checked ≡ program_tree sound) }
{
    let mut store = Store::new(alloc);
    match check(alloc, sound, &mut store)? {
        CheckOutcome::Accepted { checked, .. } => Ok(checked),
        CheckOutcome::Refused { faults, .. } => {
            let text = report_lines(alloc, &store, &faults, &[])?;
            let output = Output::refused(text);
            let _text = output.text();
            Err(Stop::Refused(output))
        }
    }
}

/// The value of the accepted program on a document, and the calls that it took, where the state
/// accepts exactly what fits its input type.
pub fn value_on(
    alloc: Global,
    checked: &Checked,
    auto: &Auto,
    state: State,
    store: &mut Store,
    input: Seq,
    fuel: u64,
) -> Result<(Seq, u64), Stop>
    requires test { IsInputTest (program_tree checked.now) (Some (auto.now, state)) }
    requires input { BelongsTo store.old input }
    requires fuel { 1 ≤ fuel }
    ensures step { (T : Tree) → input_type (program_tree checked.now) ≡ Some T → DoesStep result (EndsAtValue (program_tree checked.now) T fuel (document_at store.old input)) (λ made. IsValue (program_tree checked.now) T fuel (document_at store.old input) (document_at store.new made.0, made.1)) }
    ensures belongs { IfOk result (λ made. BelongsTo store.new made.0) }
    ensures keeps { Keeps store.old store.new }
{
    if !accepts(alloc, auto, state, store, input)? {
        return Err(Stop::Refused(Output::outside_input(alloc)?));
    }
    match evaluate(alloc, checked, store, input, fuel)? {
        Outcome::Value(value, calls) => Ok((value, calls)),
        Outcome::Spent => Err(Stop::Refused(Output::fuel_spent(alloc)?)),
    }
}

/// Writes that value.
fn run_on(
    alloc: Global,
    checked: &Checked,
    auto: &Auto,
    state: State,
    store: &mut Store,
    input: Seq,
    fuel: u64,
) -> Result<Output, Stop>
    requires test { IsInputTest (program_tree checked.now) (Some (auto.now, state)) }
    requires input { BelongsTo store.old input }
    requires fuel { 1 ≤ fuel }
    ensures { (T : Tree) → input_type (program_tree checked.now) ≡ Some T → DoesAll result (AnswersInput (program_tree checked.now) T fuel (document_at store.old input)) }
{
    let (value, _) = value_on(alloc, checked, auto, state, store, input, fuel)?;
    Ok(Output::canonical(alloc, store, value)?)
}

/// The same on the document of this file.
fn run_main<H: Shelf>(
    alloc: Global,
    checked: &Checked,
    auto: &Auto,
    state: State,
    document: &str,
    fuel: u64,
    shelf: &mut H,
) -> Result<Output, Stop>
    requires test { IsInputTest (program_tree checked.now) (Some (auto.now, state)) }
    requires fuel { 1 ≤ fuel }
    ensures { DoesAll result (AnswersMain (H.holds shelf.old) (HasRisen (H.faults shelf.old) (H.faults shelf.new)) document.now fuel (program_tree checked.now) (input_type (program_tree checked.now))) }
{
    let mut store = Store::new(alloc);
    let input = load_document(alloc, document, shelf, &mut store)?;
    run_on(alloc, checked, auto, state, &mut store, input, fuel)
}

/// Runs `main` of the program of this file on the document of that file, with so many calls.
pub fn run<H: Shelf>(
    alloc: Global,
    file: &str,
    document: &str,
    fuel: u64,
    shelf: &mut H,
) -> Result<Output, Stop>
    requires { 1 ≤ fuel }
    ensures { DoesAll result (AnswersOn (H.holds shelf.old) (HasRisen (H.faults shelf.old) (H.faults shelf.new)) file.now (AnswersRun (H.holds shelf.old) (HasRisen (H.faults shelf.old) (H.faults shelf.new)) document.now fuel)) }
{
    let sound = load_program(alloc, file, shelf)?;
    run_program(alloc, sound, document, fuel, shelf)
}

/// Runs the sound program on the document of this file.
fn run_program<H: Shelf>(
    alloc: Global,
    sound: SoundProgram,
    document: &str,
    fuel: u64,
    shelf: &mut H,
) -> Result<Output, Stop>
    requires { 1 ≤ fuel }
    ensures { DoesAll result (AnswersRun (H.holds shelf.old) (HasRisen (H.faults shelf.old) (H.faults shelf.new)) document.now fuel (program_tree sound)) }
{
    let (test, checked) = accept(alloc, sound)?;
    run_accepted(alloc, &test, &checked, document, fuel, shelf)
}

/// Runs the accepted program, whose input has this test, on the document of this file.
fn run_accepted<H: Shelf>(
    alloc: Global,
    test: &Option<(Auto, State)>,
    checked: &Checked,
    document: &str,
    fuel: u64,
    shelf: &mut H,
) -> Result<Output, Stop>
    requires test { IsInputTest (program_tree checked.now) test.now }
    requires fuel { 1 ≤ fuel }
    ensures { DoesAll result (AnswersMain (H.holds shelf.old) (HasRisen (H.faults shelf.old) (H.faults shelf.new)) document.now fuel (program_tree checked.now) (input_type (program_tree checked.now))) }
{
    match test {
        None => Ok(Output::no_main(alloc)?),
        Some((auto, state)) => run_main(alloc, checked, auto, *state, document, fuel, shelf),
    }
}

//! The command `check`.

ghost use Rattle.std.specs.Prelude.{IfOk};
ghost use Rattle.std.specs.List.{AllByRecursion};
ghost use Rattle.xd_base.specs.Outside.{HasRisen};
ghost use Rattle.xd_check.specs.Outcome.{IsOutcome};
ghost use Rattle.xd_report.specs.Carries.{CarriesFrom};
ghost use Rattle.xd_syntax.specs.Kept.{ProgramTable, program_tree};
ghost use Rattle.xd_syntax.specs.Program.{ProgramTree};
ghost use Rattle.xd_command_programs.specs.Check.{AnswersCheck, EndsAtCheck};
ghost use Rattle.xd_command_programs.specs.CheckRefused.{AreRefused};
ghost use Rattle.xd_command_steps.specs.Programs.{AnswersOn};
ghost use Rattle.xd_command_steps.specs.DoneSteps.{DoesAll};

use std::alloc::Global;
use xd_base::Shelf;
use xd_check::CheckOutcome;
use xd_command_steps::{Output, Stop, load_program, report_lines};
use xd_doc::{NoMemory, Store};
use xd_sound::SoundProgram;
use xd_syntax::{Fault, Warning};

/// The lines of the sound program, and whether it is accepted.
fn report(alloc: Global, sound: SoundProgram) -> Result<Output, NoMemory>
    ensures { IfOk result (AnswersCheck (program_tree sound)) }
{
    let mut store = Store::new(alloc);
    let outcome = xd_check::check(alloc, sound, &mut store)?;
    verdict(alloc, &store, &outcome)
}

/// The lines of what a check gave, and whether the program is accepted.
fn verdict(alloc: Global, store: &Store, outcome: &CheckOutcome) -> Result<Output, NoMemory>
    requires { (p : ProgramTable) × IsOutcome p store.now outcome.now }
    ensures { (p : ProgramTable) → IsOutcome p store.now outcome.now → IfOk result (AnswersCheck (program_tree p)) }
{
    match outcome {
        CheckOutcome::Accepted { warnings, .. } => {
            let text = report_lines(alloc, store, &[], warnings)?;
            Ok(Output::accepted(text)?)
        }
        CheckOutcome::Refused { faults, warnings } => refusal(alloc, store, faults, warnings),
    }
}

/// The faults and warnings of a program that isn't accepted, in order.
///
/// What is written has fewer than 2^63 bytes, since it stands in a vector; so the documents that
/// faults carry are least ones.
pub fn refusal(
    alloc: Global,
    store: &Store,
    faults: &[Fault],
    warnings: &[Warning],
) -> Result<Output, NoMemory>
    requires { AllByRecursion (λ f. CarriesFrom store.now f.kind) faults.now }
    ensures { (P : ProgramTree) → AreRefused P store.now faults.now warnings.now → IfOk result (EndsAtCheck P) }
{
    let text = report_lines(alloc, store, faults, warnings)?;
    let output = Output::refused(text);
    let _text = output.text();
    Ok(output)
}

/// All faults and warnings of the program of this file, or that it is accepted.
pub fn check<H: Shelf>(alloc: Global, file: &str, shelf: &mut H) -> Result<Output, Stop>
    ensures { DoesAll result (AnswersOn (H.holds shelf.old) (HasRisen (H.faults shelf.old) (H.faults shelf.new)) file.now AnswersCheck) }
{
    let sound = load_program(alloc, file, shelf)?;
    Ok(report(alloc, sound)?)
}

//! The commands `types` and `precise`.

ghost use Rattle.std.specs.Prelude.{◌≡◌};
ghost use Rattle.xd_base.specs.Outside.{HasRisen};
ghost use Rattle.xd_syntax.specs.Kept.{program_tree};
ghost use Rattle.xd_variables.specs.Bound.{reading_of};
ghost use Rattle.xd_command_programs.specs.Check.{EndsAtCheck};
ghost use Rattle.xd_command_programs.specs.Types.{AnswersTypes};
ghost use Rattle.xd_command_steps.specs.Programs.{AnswersOn};
ghost use Rattle.xd_command_steps.specs.DoneSteps.{DoesAll, DoesStep};

use crate::command::check::refusal;
use std::alloc::Global;
use xd_base::Shelf;
use xd_check::{CheckOutcome, check};
use xd_command_steps::{Output, Stop, load_program};
use xd_doc::Store;
use xd_show_blocks::variable_blocks;
use xd_sound::{Checked, SoundProgram};
use xd_variables::Ways;

/// The program, where it is accepted; else its faults and warnings.
fn accepted(alloc: Global, sound: SoundProgram) -> Result<Checked, Stop>
    ensures { DoesStep result (EndsAtCheck (program_tree sound)) (λ checked. program_tree checked ≡ program_tree sound) }
{
    let mut store = Store::new(alloc);
    match check(alloc, sound, &mut store)? {
        CheckOutcome::Accepted { checked, .. } => Ok(checked),
        CheckOutcome::Refused { faults, warnings } => {
            let output = refusal(alloc, &store, &faults, &warnings)?;
            Err(Stop::Refused(output))
        }
    }
}

/// What each variable of the clauses of the sound program may be, in blocks.
fn types_of(alloc: Global, sound: SoundProgram, ways: Ways) -> Result<Output, Stop>
    ensures { DoesAll result (AnswersTypes (reading_of ways) (program_tree sound)) }
{
    let checked = accepted(alloc, sound)?;
    let _accepted = checked.sound();
    let text = variable_blocks(alloc, &checked, ways)?;
    Ok(Output::success(text))
}

/// What each variable of the clauses of the program of this file may be, in blocks, where the
/// program is accepted; else its faults and warnings.
pub fn types<H: Shelf>(alloc: Global, file: &str, ways: Ways, shelf: &mut H) -> Result<Output, Stop>
    ensures { DoesAll result (AnswersOn (H.holds shelf.old) (HasRisen (H.faults shelf.old) (H.faults shelf.new)) file.now (AnswersTypes (reading_of ways))) }
{
    let sound = load_program(alloc, file, shelf)?;
    types_of(alloc, sound, ways)
}

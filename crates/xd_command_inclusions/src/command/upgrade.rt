//! The command `upgrade`.

ghost use Rattle.xd_base.specs.Outside.{HasRisen};
ghost use Rattle.xd_syntax.specs.Kept.{program_tree};
ghost use Rattle.xd_command_inclusions.specs.Verify.{AnswersUpgrade};
ghost use Rattle.xd_command_steps.specs.Programs.{AnswersOn};
ghost use Rattle.xd_command_steps.specs.DoneSteps.{DoesAll};

use std::alloc::Global;
use xd_base::Shelf;
use xd_command_steps::{Output, Stop, load_program, load_proof};
use xd_sound::SoundProgram;

/// The proof of this file over the types of the sound program, in the second format.
fn upgrade_in<H: Shelf>(
    alloc: Global,
    sound: &mut SoundProgram,
    proof: &str,
    shelf: &mut H,
) -> Result<Output, Stop>
    ensures { DoesAll result (AnswersUpgrade (H.holds shelf.old) (HasRisen (H.faults shelf.old) (H.faults shelf.new)) proof.now (program_tree sound.old)) }
{
    let proof = load_proof(alloc, sound, proof, shelf)?;
    Ok(Output::proof(alloc, sound, &proof)?)
}

/// The proof of that file over the types of the program of this one, in the second format.
pub fn upgrade<H: Shelf>(
    alloc: Global,
    file: &str,
    proof: &str,
    shelf: &mut H,
) -> Result<Output, Stop>
    ensures { DoesAll result (AnswersOn (H.holds shelf.old) (HasRisen (H.faults shelf.old) (H.faults shelf.new)) file.now (AnswersUpgrade (H.holds shelf.old) (HasRisen (H.faults shelf.old) (H.faults shelf.new)) proof.now)) }
{
    let mut sound = load_program(alloc, file, shelf)?;
    upgrade_in(alloc, &mut sound, proof, shelf)
}

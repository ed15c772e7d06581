//! The command `verify`.

ghost use Rattle.std.specs.Prelude.{◌≡◌, List, IfOk};
ghost use Rattle.xd_base.specs.Outside.{HasRisen};
ghost use Rattle.xd_meaning.specs.Violation.{Lined};
ghost use Rattle.xd_proof.specs.Goals.{AreGoalsAt, GoalsBelong};
ghost use Rattle.xd_syntax.specs.Kept.{program_tree};
ghost use Rattle.xd_command_inclusions.specs.Verify.{AnswersVerify, Judges};
ghost use Rattle.xd_command_steps.specs.Programs.{AnswersOn};
ghost use Rattle.xd_command_steps.specs.DoneSteps.{DoesAll};

use std::alloc::Global;
use xd_base::Shelf;
use xd_command_steps::{Output, Stop, load_program, load_proof};
use xd_doc::NoMemory;
use xd_proof::Proof;
use xd_proof_check::{ProofVerdict, accepts};
use xd_sound::SoundProgram;

/// Whether the proof is consistent.
fn judge(alloc: Global, sound: &mut SoundProgram, proof: &Proof) -> Result<Output, NoMemory>
    requires { GoalsBelong sound.old.types proof.now }
    ensures { IfOk result (λ o. (goals : List Lined) → AreGoalsAt sound.old.types proof.now goals → Judges (program_tree sound.old) goals o) }
{
    let _some = proof.goals();
    match accepts(alloc, sound, proof)? {
        ProofVerdict::Accepted => Ok(Output::claim(alloc, sound, proof)?),
        ProofVerdict::Refused(line, reason) => Ok(Output::bad_line(alloc, line, reason)?),
    }
}

/// Whether the proof of this file is consistent over the types of the sound program.
fn verify_in<H: Shelf>(
    alloc: Global,
    sound: &mut SoundProgram,
    proof: &str,
    shelf: &mut H,
) -> Result<Output, Stop>
    ensures { DoesAll result (AnswersVerify (H.holds shelf.old) (HasRisen (H.faults shelf.old) (H.faults shelf.new)) proof.now (program_tree sound.old)) }
{
    let proof = load_proof(alloc, sound, proof, shelf)?;
    Ok(judge(alloc, sound, &proof)?)
}

/// Whether the proof of that file is consistent over the types of the program of this one.
pub fn verify<H: Shelf>(
    alloc: Global,
    file: &str,
    proof: &str,
    shelf: &mut H,
) -> Result<Output, Stop>
    ensures { DoesAll result (AnswersOn (H.holds shelf.old) (HasRisen (H.faults shelf.old) (H.faults shelf.new)) file.now (AnswersVerify (H.holds shelf.old) (HasRisen (H.faults shelf.old) (H.faults shelf.new)) proof.now)) }
{
    let mut sound = load_program(alloc, file, shelf)?;
    verify_in(alloc, &mut sound, proof, shelf)
}

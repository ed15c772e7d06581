//! Proofs from their files.

ghost use Rattle.std.specs.Prelude.{◌≡◌, ◌≤◌};
ghost use Rattle.xd_base.specs.Outside.{HasRisen};
ghost use Rattle.xd_syntax.specs.Kept.{program_tree};
ghost use Rattle.xd_command_steps.specs.Proofs.{EndsAtForm, EndsAtProof};
ghost use Rattle.xd_command_steps.specs.Reading.{IsRead, IsReadFrom};
ghost use Rattle.xd_command_steps.specs.DoneSteps.{DoesStep};

use crate::output::{Output, Stop};
use crate::text::{DOCUMENT_LIMIT, fetch};
use std::alloc::Global;
use xd_base::Shelf;
use xd_proof::Proof;
use xd_proof_check::Reason;
use xd_proof_read::{ProofError, read_proof};
use xd_sound::SoundProgram;

/// The proof of a text. Its types are added to the program.
fn well_formed_proof(alloc: Global, sound: &mut SoundProgram, bytes: &[u8]) -> Result<Proof, Stop>
    ensures step { DoesStep result (EndsAtForm (program_tree sound.old) bytes.now) (IsRead (program_tree sound.old) sound.new.types bytes.now) }
    ensures same { program_tree sound.new ≡ program_tree sound.old }
{
    match read_proof(alloc, sound, bytes) {
        Ok(proof) => Ok(proof),
        Err(ProofError::NoMemory) => Err(Stop::NoMemory),
        Err(ProofError::Form(line)) => {
            Err(Stop::Refused(Output::bad_line(alloc, line, Reason::Form)?))
        }
    }
}

/// The proof of a file. Its types are added to the program. `Stop::Refused` has the output that
/// ends the command; after `Stop::NoMemory` the program has more types at most.
pub fn load_proof<H: Shelf>(
    alloc: Global,
    sound: &mut SoundProgram,
    file: &str,
    shelf: &mut H,
) -> Result<Proof, Stop>
    ensures step { DoesStep result (EndsAtProof (H.holds shelf.old) (HasRisen (H.faults shelf.old) (H.faults shelf.new)) file.now (program_tree sound.old)) (IsReadFrom (H.holds shelf.old) file.now (program_tree sound.old) sound.new.types) }
    ensures same_program { program_tree sound.new ≡ program_tree sound.old }
    ensures same { H.holds shelf.new ≡ H.holds shelf.old }
    ensures never_falls { H.faults shelf.old ≤ H.faults shelf.new }
{
    let bytes = fetch(alloc, shelf, file, DOCUMENT_LIMIT)?;
    well_formed_proof(alloc, sound, &bytes)
}

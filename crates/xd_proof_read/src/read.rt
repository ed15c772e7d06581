//! Whole proof texts.

ghost use Rattle.std.specs.Prelude.{◌≡◌, List, IfOk, IfErr};
ghost use Rattle.std.specs.List.{AllByRecursion};
ghost use Rattle.xd_syntax.specs.Kept.{AddsTypes, program_tree};
ghost use Rattle.xd_syntax.specs.NameFaults.{known_types};
ghost use Rattle.xd_syntax.specs.ShallowTables.{AddsWithin, IsShallow};
ghost use Rattle.xd_syntax.specs.Shallow.{nesting_limit};
ghost use Rattle.xd_meaning.specs.Violation.{Lined};
ghost use Rattle.xd_proof.specs.Form.{IsFirstBadLine, IsProofText};
ghost use Rattle.xd_proof.specs.TypeTexts.{SpellsType};
ghost use Rattle.xd_proof.specs.Goals.{AreGoalsAt};
ghost use Rattle.xd_proof_read.specs.BadLines.{TellsLine};
ghost use Rattle.xd_proof_read.specs.Depths.{IsShallowGoal};

use crate::error::ProofError;
use crate::formats::read_lines;
use std::alloc::Global;
use xd_proof::{Proof, cut_lines};
use xd_sound::SoundProgram;

/// Reads a proof text of either format; its types become types of the program.
///
/// `ProofError::Form` comes exactly where the bytes are no proof text, with the first line with
/// which none goes on. After a refusal the program has more types at most.
pub fn read_proof(
    alloc: Global,
    sound: &mut SoundProgram,
    bytes: &[u8],
) -> Result<Proof, ProofError>
    ensures read { IfOk result (λ proof. (goals : List Lined) × IsProofText (SpellsType (known_types (program_tree sound.old))) bytes.now goals × AreGoalsAt sound.new.types proof goals) }
    ensures bad { IfErr result (TellsLine (IsFirstBadLine (SpellsType (known_types (program_tree sound.old))) bytes.now)) }
    ensures adds { AddsTypes sound.old sound.new }
    ensures same { program_tree sound.new ≡ program_tree sound.old }
    ensures shallow { IsShallow sound.old.types → IsShallow sound.new.types }
    ensures deep { IfOk result (AllByRecursion (IsShallowGoal sound.new.types)) }
    ensures within { AddsWithin nesting_limit sound.old.types sound.new.types }
{
    let text = cut_lines(alloc, bytes)?;
    let proof = read_lines(alloc, sound, &text.lines)?;
    if text.left.is_empty() {
        return Ok(proof);
    }
    Err(ProofError::Form(text.lines.len() as u64 + 1))
}

//! The line of a claim.

ghost use Rattle.std.specs.Prelude.{◌≡◌, ◌∷◌, ◌++◌, List, codes, map, flat_map, IfOk, OnOk, OnErr};
ghost use Rattle.std.specs.List.{AllByRecursion};
ghost use Rattle.xd_syntax.specs.Types.{BelongsTo, tree};
ghost use Rattle.xd_syntax.specs.TypeText.{type_text};
ghost use Rattle.xd_meaning.specs.Violation.{Lined};
ghost use Rattle.xd_proof.specs.Goals.{AreGoalsAt, GoalsBelong};
ghost use Rattle.xd_proof_write.specs.ClaimText.{claim_text, rights_text};

use std::alloc::Global;
use xd_doc::NoMemory;
use xd_proof::Proof;
use xd_sound::SoundProgram;
use xd_syntax::{TypeId, Types};
use xd_type_text::type_text;

/// Appends the line by which a verifier says that it accepted the claim of a proof, whose types are
/// types of the program, without the line end.
///
/// After `NoMemory` `out` is as it was.
pub fn claim_line(
    alloc: Global,
    sound: &SoundProgram,
    proof: &Proof,
    out: &mut Vec<u8>,
) -> Result<(), NoMemory>
    requires { GoalsBelong sound.now.types proof.now }
    ensures text { (claim : Lined) (others : List Lined) → AreGoalsAt sound.now.types proof.now (claim ∷ others) → OnOk result (out.new.items ≡ out.old.items ++ claim_text claim.goal) }
    ensures err { OnErr result (out.new.items ≡ out.old.items) }
{
    let _some = proof.goals();
    let types = sound.program().types();
    let made = claim_of(alloc, types, proof.left(), proof.rights())?;
    out.extend_from_slice(&made)?;
    Ok(())
}

fn claim_of(
    alloc: Global,
    types: &Types,
    left: TypeId,
    rights: &[TypeId],
) -> Result<Vec<u8>, NoMemory>
    requires left { BelongsTo types.now left }
    requires rights { AllByRecursion (BelongsTo types.now) rights.now }
    ensures { IfOk result (λ made. made.items ≡ codes "accepted: " ++ (type_text (tree types.now left) ++ (codes " <: " ++ rights_text (map (tree types.now) rights.now)))) }
{
    let mut made = Vec::from_slice(alloc, b"accepted: ")?;
    type_text(alloc, types, left, &mut made)?;
    made.extend_from_slice(b" <: ")?;
    write_rights(alloc, types, rights, &mut made)?;
    Ok(made)
}

fn write_rights(
    alloc: Global,
    types: &Types,
    rights: &[TypeId],
    out: &mut Vec<u8>,
) -> Result<(), NoMemory>
    requires { AllByRecursion (BelongsTo types.now) rights.now }
    ensures { OnOk result (out.new.items ≡ out.old.items ++ rights_text (map (tree types.now) rights.now)) }
{
    let Some((first, others)) = rights.split_first() else {
        out.extend_from_slice(b"nothing")?;
        return Ok(());
    };
    type_text(alloc, types, *first, out)?;
    write_more_rights(alloc, types, others, out)?;
    Ok(())
}

/// Each right after an `or`.
fn write_more_rights(
    alloc: Global,
    types: &Types,
    rights: &[TypeId],
    out: &mut Vec<u8>,
) -> Result<(), NoMemory>
    requires { AllByRecursion (BelongsTo types.now) rights.now }
    ensures { OnOk result (out.new.items ≡ out.old.items ++ flat_map (λ id. codes " or " ++ type_text (tree types.now id)) rights.now) }
{
    for right in rights {
        out.extend_from_slice(b" or ")?;
        type_text(alloc, types, *right, out)?;
    }
    Ok(())
}

//! From a proof text, whoever wrote it, to what it proves.

ghost use Rattle.std.specs.Prelude.{IfOk};
ghost use Rattle.xd_uses.specs.Claims.{ProvesClaim, SpellsAgain};

use crate::programs::sound_program;
use anyhow::{Result, bail};
use std::alloc::Global;
use xd_proof_check::{ProofVerdict, accepts};
use xd_proof_read::read_proof;
use xd_proof_write::{claim_line, second_text};

/// The line of the claim of a proof over these definitions, where the proof is consistent: then the
/// claim holds.
pub fn proved_claim(alloc: Global, definitions: &str, proof: &[u8]) -> Result<Vec<u8>>
    ensures { IfOk result (λ line. ProvesClaim definitions.now proof.now line.items) }
{
    let mut sound = sound_program(alloc, definitions)?;
    let read = read_proof(alloc, &mut sound, proof)?;
    match accepts(alloc, &mut sound, &read)? {
        ProofVerdict::Accepted => {
            let mut claim = Vec::new(alloc);
            claim_line(alloc, &sound, &read, &mut claim)?;
            Ok(claim)
        }
        ProofVerdict::Refused(line, reason) => bail!("line {line}: {reason:?}"),
    }
}

/// The same goals as a text of the second format.
pub fn upgraded(alloc: Global, definitions: &str, proof: &[u8]) -> Result<Vec<u8>>
    ensures { IfOk result (λ text. SpellsAgain definitions.now proof.now text.items) }
{
    let mut sound = sound_program(alloc, definitions)?;
    let read = read_proof(alloc, &mut sound, proof)?;
    let mut text = Vec::new(alloc);
    second_text(alloc, &sound, &read, &mut text)?;
    Ok(text)
}

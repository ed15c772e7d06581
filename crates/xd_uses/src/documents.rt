//! From a text of types and a document to membership.

ghost use Rattle.std.specs.Prelude.{◌≡◌, ◌↔◌, true, IfOk};
ghost use Rattle.xd_doc.specs.Stored.{document_at};
ghost use Rattle.xd_doc.specs.StoredSeq.{BelongsTo};
ghost use Rattle.xd_syntax.specs.Fits.{Fits};
ghost use Rattle.xd_syntax.specs.Kept.{program_tree};
ghost use Rattle.xd_syntax.specs.Program.{names_of};
ghost use Rattle.xd_syntax.specs.Types as tables;
ghost use Rattle.xd_uses.specs.Membership.{TellsFit};

use crate::programs::sound_program;
use anyhow::{Context, Result};
use std::alloc::Global;
use xd_auto::{Auto, Scratch, member};
use xd_doc::{NoMemory, Seq, Store};
use xd_heads::{Cells, compile_type};
use xd_read::read_document;
use xd_sound::SoundProgram;
use xd_syntax::TypeId;

/// Whether the document fits the type.
pub fn fits_type(
    alloc: Global,
    sound: &mut SoundProgram,
    id: TypeId,
    store: &Store,
    document: Seq,
) -> Result<bool, NoMemory>
    requires id { tables.BelongsTo sound.old.types id }
    requires document { BelongsTo store.now document }
    ensures { IfOk result (λ fits. (fits ≡ true) ↔ Fits (names_of (program_tree sound.old)) (tables.tree sound.old.types id) (document_at store.now document)) }
{
    let mut cells = Cells::new(alloc);
    let mut auto = Auto::new(alloc);
    let state = compile_type(alloc, sound, &mut cells, &mut auto, id)?;
    let mut scratch = Scratch::reserve(alloc, auto.len(), store.len())?;
    Ok(member(&auto, state, store, document, &mut scratch))
}

/// Whether the document that a text spells fits the type of this name, which the definitions
/// define.
pub fn fits(alloc: Global, definitions: &str, name: &str, document: &str) -> Result<bool>
    ensures { IfOk result (TellsFit definitions.now name.now document.now) }
{
    let mut sound = sound_program(alloc, definitions)?;
    let id = sound.find_type(name)?.context("a name that isn't defined")?;
    let mut store = Store::new(alloc);
    let seq = read_document(alloc, &mut store, document.as_bytes())?;
    Ok(fits_type(alloc, &mut sound, id, &store, seq)?)
}

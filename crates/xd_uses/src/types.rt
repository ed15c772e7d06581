//! From two texts of types to a decision and its proof.

ghost use Rattle.std.specs.Prelude.{◌≡◌, IfOk, OnOk};
ghost use Rattle.xd_doc.specs.StoreNodes.{Keeps};
ghost use Rattle.xd_syntax.specs.Kept.{AddsTypes, program_tree};
ghost use Rattle.xd_syntax.specs.ShallowTables.{IsShallow};
ghost use Rattle.xd_uses.specs.Comparison.{Compares, IsReadType};

use crate::programs::sound_program;
use anyhow::{Context, Result};
use std::alloc::Global;
use xd_doc::Store;
use xd_inclusion::{Inclusion, compare_types};
use xd_parse::parse_type;
use xd_sound::SoundProgram;
use xd_syntax::{TypeId, Types};

/// The type that a text spells, as a type of the program.
fn read_type(alloc: Global, sound: &mut SoundProgram, text: &str) -> Result<TypeId>
    ensures read { IfOk result (IsReadType (program_tree sound.old) sound.new.types text.now) }
    ensures adds { OnOk result (AddsTypes sound.old sound.new) }
    ensures same { OnOk result (program_tree sound.new ≡ program_tree sound.old) }
    ensures shallow { OnOk result (IsShallow sound.old.types → IsShallow sound.new.types) }
{
    let mut types = Types::new(alloc);
    let id = parse_type(alloc, &mut types, text.as_bytes())?;
    let adopted = sound.adopt(&types, id)?;
    Ok(adopted.context("a name that isn't defined")?)
}

/// Whether every document of the one type is one of the other: a proof text, or a least document of
/// the left type that is none of the right. Both are texts, over the types that the definitions
/// define.
pub fn compare_texts(
    alloc: Global,
    definitions: &str,
    left: &str,
    right: &str,
    store: &mut Store,
) -> Result<Inclusion>
    ensures compares { IfOk result (Compares definitions.now left.now right.now store.new) }
    ensures keeps { Keeps store.old store.new }
{
    let mut sound = sound_program(alloc, definitions)?;
    let one = read_type(alloc, &mut sound, left)?;
    let other = read_type(alloc, &mut sound, right)?;
    Ok(compare_types(alloc, &mut sound, one, other, store)?)
}

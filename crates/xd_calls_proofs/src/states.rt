//! The types that a call names, and their states.

ghost use Rattle.std.specs.Prelude.{IfOk, OnOk};
ghost use Rattle.xd_heads.specs.Mirrors.{Mirrors};
ghost use Rattle.xd_syntax.specs.ShallowTables.{IsShallow};
ghost use Rattle.xd_syntax.specs.declared.types.TypeId.{TypeId};
ghost use Rattle.xd_calls_proofs.specs.Known.{IsKnownState, IsKnownType};

use std::alloc::Global;
use xd_auto::{Auto, State};
use xd_calls_lines::{Call, CallError};
use xd_doc::NoMemory;
use xd_heads::{Cells, compile_type};
use xd_sound::SoundProgram;
use xd_syntax::TypeId;
use xd_uses::sound_program;

/// The program of a call, which is its text.
pub fn program_of(call: &Call<'_>) -> Result<SoundProgram, CallError>
    ensures { IfOk result (λ sound. IsShallow sound.types) }
{
    match sound_program(call.alloc, call.text) {
        Ok(sound) => Ok(sound),
        Err(_) => Err(CallError::Malformed),
    }
}

/// The type that the call's word of this number names.
pub fn named_type(
    call: &Call<'_>,
    number: usize,
    sound: &mut SoundProgram,
) -> Result<TypeId, CallError>
    ensures known { IfOk result (IsKnownType sound.new) }
    ensures keeps { (id : TypeId) → IsKnownType sound.old id → IsKnownType sound.new id }
    ensures shallow { IsShallow sound.old.types → IsShallow sound.new.types }
{
    let name = call.word(number)?;
    match sound.find_type(name)? {
        Some(id) => Ok(id),
        None => Err(CallError::Unknown),
    }
}

/// States of two types, in an automaton that the cells mirror.
pub fn both_states(
    alloc: Global,
    sound: &mut SoundProgram,
    cells: &mut Cells,
    auto: &mut Auto,
    left: TypeId,
    right: TypeId,
) -> Result<(State, State), NoMemory>
    requires left { IsKnownType sound.old left }
    requires right { IsKnownType sound.old right }
    requires mirrors { Mirrors sound.old cells.old auto.old }
    ensures left { IfOk result (λ states. IsKnownState sound.new cells.new auto.new states.0) }
    ensures right { IfOk result (λ states. IsKnownState sound.new cells.new auto.new states.1) }
    ensures mirrors { OnOk result (Mirrors sound.new cells.new auto.new) }
    ensures shallow { IsShallow sound.old.types → IsShallow sound.new.types }
{
    let one = compile_type(alloc, sound, cells, auto, left)?;
    let other = compile_type(alloc, sound, cells, auto, right)?;
    Ok((one, other))
}

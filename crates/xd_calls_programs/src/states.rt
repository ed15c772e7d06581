//! The types of a program, and states for them.

ghost use Rattle.std.specs.Prelude.{◌≡◌, IfOk};
ghost use Rattle.xd_auto.specs.Automaton.{IsState};
ghost use Rattle.xd_syntax.specs.Kept.{AddsTypes, program_tree};
ghost use Rattle.xd_syntax.specs.Types.{BelongsTo};

use std::alloc::Global;
use xd_auto::{Auto, State};
use xd_calls_lines::{Call, CallError};
use xd_doc::NoMemory;
use xd_heads::{Cells, compile_type};
use xd_names::resolve;
use xd_parse::{ParseError, parse_program};
use xd_rec::{Soundness, well_formed};
use xd_sound::SoundProgram;
use xd_syntax::TypeId;

/// The program of a text without faults.
fn sound_program(alloc: Global, text: &str) -> Result<SoundProgram, CallError> {
    let program = match parse_program(alloc, text.as_bytes()) {
        Ok(program) => program,
        Err(ParseError::Fault(_)) => return Err(CallError::Malformed),
        Err(ParseError::NoMemory) => return Err(CallError::Memory(NoMemory)),
    };
    if !resolve(alloc, &program)?.is_empty() {
        return Err(CallError::Malformed);
    }
    match well_formed(alloc, program)? {
        Soundness::Sound(sound) => Ok(sound),
        Soundness::Faults(_) => Err(CallError::Malformed),
    }
}

/// The type of this name.
pub fn find_type(sound: &mut SoundProgram, name: &str) -> Result<TypeId, CallError>
    ensures belongs { IfOk result (BelongsTo sound.new.types) }
    ensures adds { AddsTypes sound.old sound.new }
    ensures same { program_tree sound.new ≡ program_tree sound.old }
{
    match sound.find_type(name)? {
        Some(id) => Ok(id),
        None => Err(CallError::Unknown),
    }
}

/// The program of a call, which is its text.
pub fn program_of(call: &Call<'_>) -> Result<SoundProgram, CallError> {
    sound_program(call.alloc, call.text)
}

/// The program of a call, and the type that the call's word of this number names.
pub fn type_of(call: &Call<'_>, number: usize) -> Result<(SoundProgram, TypeId), CallError>
    ensures { IfOk result (λ made. BelongsTo made.0.types made.1) }
{
    let name = call.word(number)?;
    let mut sound = program_of(call)?;
    let id = find_type(&mut sound, name)?;
    Ok((sound, id))
}

/// A state for the type that the call's word of this number names, in an automaton of its own.
pub fn state_of(call: &Call<'_>, number: usize) -> Result<(Auto, State), CallError>
    ensures { IfOk result (λ made. IsState made.0 made.1) }
{
    let (mut sound, id) = type_of(call, number)?;
    state_at(call.alloc, &mut sound, id)
}

/// A state for this type.
pub fn state_at(
    alloc: Global,
    sound: &mut SoundProgram,
    id: TypeId,
) -> Result<(Auto, State), CallError>
    requires { BelongsTo sound.old.types id }
    ensures { IfOk result (λ made. IsState made.0 made.1) }
{
    let mut cells = Cells::new(alloc);
    let mut auto = Auto::new(alloc);
    let state = compile_type(alloc, sound, &mut cells, &mut auto, id)?;
    Ok((auto, state))
}

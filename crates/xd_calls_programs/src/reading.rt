//! Programs and types as calls read them.

use crate::trees::{show_program, show_type};
use std::alloc::Global;
use std::io::Write;
use xd_calls_lines::{CallError, show_place};
use xd_doc::NoMemory;
use xd_names::resolve;
use xd_parse::{ParseError, parse_program, parse_type};
use xd_rec::{Soundness, well_formed};
use xd_sound::SoundProgram;
use xd_syntax::{Fault, Program, TypeId, Types};

/// The program that was read last, the sound one that was made of one last, and a table of types
/// beside them.
#[derive(Drop)]
pub struct Programs {
    pub alloc: Global,
    pub program: Option<Program>,
    pub sound: Option<SoundProgram>,
    pub types: Types,
    /// The type that was read last.
    pub newest: Option<TypeId>,
}

impl Programs {
    /// With no program yet.
    pub fn new(alloc: Global) -> Programs {
        Programs {
            alloc,
            program: None,
            sound: None,
            types: Types::new(alloc),
            newest: None,
        }
    }
}

/// The number of a fault, after its place.
fn show_fault(fault: &Fault, out: &mut Vec<u8>) -> Result<(), CallError> {
    if let Some(place) = fault.place {
        show_place(place, out)?;
        out.push(b' ')?;
    }
    writeln!(out, "fault {}", fault.kind.number())?;
    Ok(())
}

fn show_faults(faults: &[Fault], out: &mut Vec<u8>) -> Result<(), CallError> {
    for fault in faults {
        show_fault(fault, out)?;
    }
    Ok(())
}

fn show_refusal(error: ParseError, out: &mut Vec<u8>) -> Result<(), CallError> {
    match error {
        ParseError::Fault(fault) => show_fault(&fault, out),
        ParseError::NoMemory => Err(CallError::Memory(NoMemory)),
    }
}

/// The type with this number, as a tree.
pub fn show_type_line(types: &Types, id: TypeId, out: &mut Vec<u8>) -> Result<(), CallError> {
    if id.at() < types.len() {
        out.extend_from_slice(b"type")?;
        show_type(out, types, id)?;
        out.push(b'\n')?;
    }
    Ok(())
}

/// Reads a program, and shows it or where it is refused.
pub fn show_read_program(
    fixture: &mut Programs,
    text: &str,
    out: &mut Vec<u8>,
) -> Result<(), CallError> {
    match parse_program(fixture.alloc, text.as_bytes()) {
        Ok(program) => {
            show_program(out, &program)?;
            fixture.program = Some(program);
            Ok(())
        }
        Err(error) => show_refusal(error, out),
    }
}

/// Reads a type into the table, or shows where it is refused.
pub fn read_type_into(
    fixture: &mut Programs,
    text: &str,
    out: &mut Vec<u8>,
) -> Result<Option<TypeId>, CallError> {
    match parse_type(fixture.alloc, &mut fixture.types, text.as_bytes()) {
        Ok(id) => {
            fixture.newest = Some(id);
            Ok(Some(id))
        }
        Err(error) => {
            show_refusal(error, out)?;
            Ok(None)
        }
    }
}

/// Reads a type into the table, and shows it or where it is refused.
pub fn show_read_type(
    fixture: &mut Programs,
    text: &str,
    out: &mut Vec<u8>,
) -> Result<(), CallError> {
    match read_type_into(fixture, text, out)? {
        Some(id) => show_type_line(&fixture.types, id, out),
        None => Ok(()),
    }
}

/// Shows the faults of names of the program that was read last.
pub fn show_resolved(fixture: &Programs, out: &mut Vec<u8>) -> Result<(), CallError> {
    let program = fixture.program.as_ref().ok_or(CallError::Unknown)?;
    let faults = resolve(fixture.alloc, program)?;
    writeln!(out, "{} faults", faults.len())?;
    show_faults(&faults, out)
}

/// Makes a sound program of the one that was read last, or shows its faults.
pub fn show_soundness(fixture: &mut Programs, out: &mut Vec<u8>) -> Result<(), CallError> {
    let program = fixture.program.take().ok_or(CallError::Unknown)?;
    if !resolve(fixture.alloc, &program)?.is_empty() {
        return Err(CallError::Malformed);
    }
    match well_formed(fixture.alloc, program)? {
        Soundness::Sound(sound) => {
            fixture.sound = Some(sound);
            out.extend_from_slice(b"sound\n")?;
            Ok(())
        }
        Soundness::Faults(faults) => show_faults(&faults, out),
    }
}

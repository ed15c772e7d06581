//! Calls about programs and types.

use std::io::Write;
use xd_calls_lines::{Call, CallError};
use xd_calls_programs::{
    Programs, read_type_into, show_program, show_read_program, show_read_type, show_resolved,
    show_soundness, show_type_line,
};
use xd_sound::SoundProgram;
use xd_syntax::{Program, Types};

/// `parse_program`, `resolve` and `well_formed` of the program that was read last, and about the
/// sound one that came of it `find_type NAME`, `find_in_copy NAME`, in a copy of it, and `adopt`,
/// of the type that was read last. `copy` shows a copy of the program that was read last.
pub fn program(
    fixture: &mut Programs,
    call: &Call<'_>,
    out: &mut Vec<u8>,
) -> Result<(), CallError> {
    match call.name {
        "parse_program" => show_read_program(fixture, call.text, out),
        "copy" => show_copy(fixture, out),
        "resolve" => show_resolved(fixture, out),
        "well_formed" => show_soundness(fixture, out),
        "find_type" => find_type(fixture, call.word(0)?, out),
        "find_in_copy" => find_in_copy(fixture, call.word(0)?, out),
        "adopt" => adopt(fixture, out),
        _ => Err(CallError::Call),
    }
}

/// `parse_type` of its text, into a table beside the program, and `count`, which shows the number
/// of the table's nodes after that; `copy` shows the type that was read last, in a copy of the
/// table.
pub fn types(fixture: &mut Programs, call: &Call<'_>, out: &mut Vec<u8>) -> Result<(), CallError> {
    match call.name {
        "parse_type" => show_read_type(fixture, call.text, out),
        "copy" => show_type_in_copy(fixture, out),
        "count" => count_nodes(fixture, call.text, out),
        _ => Err(CallError::Call),
    }
}

fn count_nodes(fixture: &mut Programs, text: &str, out: &mut Vec<u8>) -> Result<(), CallError> {
    if read_type_into(fixture, text, out)?.is_some() {
        writeln!(out, "{} nodes", fixture.types.len())?;
    }
    Ok(())
}

fn show_copy(fixture: &Programs, out: &mut Vec<u8>) -> Result<(), CallError> {
    let program = fixture.program.as_ref().ok_or(CallError::Unknown)?;
    let copy: Program = program.copy(fixture.alloc)?;
    show_program(out, &copy)
}

fn show_type_in_copy(fixture: &Programs, out: &mut Vec<u8>) -> Result<(), CallError> {
    let newest = fixture.newest.ok_or(CallError::Unknown)?;
    let copy: Types = fixture.types.copy(fixture.alloc)?;
    show_type_line(&copy, newest, out)
}

fn find_type(fixture: &mut Programs, word: &str, out: &mut Vec<u8>) -> Result<(), CallError> {
    let sound = fixture.sound.as_mut().ok_or(CallError::Unknown)?;
    show_found(sound, word, out)
}

fn find_in_copy(fixture: &Programs, word: &str, out: &mut Vec<u8>) -> Result<(), CallError> {
    let sound = fixture.sound.as_ref().ok_or(CallError::Unknown)?;
    let mut copy = sound.copy(fixture.alloc)?;
    show_found(&mut copy, word, out)
}

/// The type of this name, or that there is none.
fn show_found(sound: &mut SoundProgram, word: &str, out: &mut Vec<u8>) -> Result<(), CallError> {
    match sound.find_type(word)? {
        Some(id) => show_type_line(sound.program().types(), id, out),
        None => {
            out.extend_from_slice(b"none\n")?;
            Ok(())
        }
    }
}

fn adopt(fixture: &mut Programs, out: &mut Vec<u8>) -> Result<(), CallError> {
    let sound = fixture.sound.as_mut().ok_or(CallError::Unknown)?;
    let newest = fixture.newest.ok_or(CallError::Unknown)?;
    if newest.at() >= fixture.types.len() {
        return Err(CallError::Unknown);
    }
    let before = sound.program().types().len();
    match sound.adopt(&fixture.types, newest)? {
        Some(id) => {
            let after = sound.program().types().len();
            write!(out, "{} more nodes: ", after.saturating_sub(before))?;
            show_type_line(sound.program().types(), id, out)
        }
        None => {
            out.extend_from_slice(b"none\n")?;
            Ok(())
        }
    }
}

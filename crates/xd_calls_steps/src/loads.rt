//! What is read from the shelf, or the output that ends a command there.

ghost use Rattle.std.specs.Prelude.{IfOk};
ghost use Rattle.xd_proof.specs.Goals.{GoalsBelong};

use crate::outputs::show_output;
use std::alloc::Global;
use std::io::Write;
use xd_base::MemoryShelf;
use xd_calls_lines::{Call, CallError};
use xd_command_steps::{
    Output, Stop, load_bytes, load_document, load_program, load_proof, sound_program,
};
use xd_doc::{NoMemory, Store};
use xd_proof::Proof;
use xd_sound::SoundProgram;
use xd_write::write_document;

/// `load add NAME : TEXT` puts a text on the shelf. `bytes NAME` says how many it has, `document
/// NAME` writes its document, `program NAME` says how many types it defines, and `proof FILE NAME`
/// how many goals it has over the types of the program in FILE; `claim FILE NAME` and `second FILE
/// NAME` are the outputs with that proof's claim and with its text in the second format. `sound :
/// TEXT` says how many types the program of its own text defines.
pub fn load(shelf: &mut MemoryShelf, call: &Call<'_>, out: &mut Vec<u8>) -> Result<(), CallError> {
    if call.name == "sound" {
        return show_sound(call, out);
    }
    let name = call.word(0)?;
    match call.name {
        "add" => Ok(shelf.add(name, call.text.as_bytes())?),
        "bytes" => show_bytes(shelf, call, name, out),
        "document" => show_document(shelf, call, name, out),
        "program" => show_program(shelf, call, name, out),
        "proof" | "claim" | "second" => show_proof(shelf, call, name, out),
        _ => Err(CallError::Call),
    }
}

/// The output that ends a command.
fn show_stop(alloc: Global, stop: Stop, out: &mut Vec<u8>) -> Result<(), CallError> {
    match stop {
        Stop::Refused(output) => show_output(alloc, &output, out),
        Stop::NoMemory => Err(CallError::Memory(NoMemory)),
    }
}

fn show_bytes(
    shelf: &mut MemoryShelf,
    call: &Call<'_>,
    name: &str,
    out: &mut Vec<u8>,
) -> Result<(), CallError> {
    match load_bytes(call.alloc, name, shelf) {
        Ok(bytes) => writeln!(out, "{} bytes", bytes.len())?,
        Err(stop) => show_stop(call.alloc, stop, out)?,
    }
    Ok(())
}

fn show_document(
    shelf: &mut MemoryShelf,
    call: &Call<'_>,
    name: &str,
    out: &mut Vec<u8>,
) -> Result<(), CallError> {
    let mut store = Store::new(call.alloc);
    match load_document(call.alloc, name, shelf, &mut store) {
        Ok(seq) => {
            write_document(call.alloc, &store, seq, out)?;
            out.push(b'\n')?;
        }
        Err(stop) => show_stop(call.alloc, stop, out)?,
    }
    Ok(())
}

fn show_program(
    shelf: &mut MemoryShelf,
    call: &Call<'_>,
    name: &str,
    out: &mut Vec<u8>,
) -> Result<(), CallError> {
    match load_program(call.alloc, name, shelf) {
        Ok(sound) => writeln!(out, "{} types", sound.program().type_defs().len())?,
        Err(stop) => show_stop(call.alloc, stop, out)?,
    }
    Ok(())
}

fn show_sound(call: &Call<'_>, out: &mut Vec<u8>) -> Result<(), CallError> {
    match sound_program(call.alloc, call.text.as_bytes()) {
        Ok(sound) => writeln!(out, "{} types", sound.program().type_defs().len())?,
        Err(stop) => show_stop(call.alloc, stop, out)?,
    }
    Ok(())
}

fn show_proof(
    shelf: &mut MemoryShelf,
    call: &Call<'_>,
    name: &str,
    out: &mut Vec<u8>,
) -> Result<(), CallError> {
    match proof_of(call.alloc, shelf, name, call.word(1)?) {
        Ok((sound, proof)) => show_read_proof(call, &sound, &proof, out),
        Err(stop) => show_stop(call.alloc, stop, out),
    }
}

/// The proof that a file holds, over the types of the program in another.
fn proof_of(
    alloc: Global,
    shelf: &mut MemoryShelf,
    program: &str,
    file: &str,
) -> Result<(SoundProgram, Proof), Stop>
    ensures { IfOk result (λ made. GoalsBelong made.0.types made.1) }
{
    let mut sound = load_program(alloc, program, shelf)?;
    let proof = load_proof(alloc, &mut sound, file, shelf)?;
    Ok((sound, proof))
}

/// What the call's name says of a proof that was read.
fn show_read_proof(
    call: &Call<'_>,
    sound: &SoundProgram,
    proof: &Proof,
    out: &mut Vec<u8>,
) -> Result<(), CallError>
    requires { GoalsBelong sound.now.types proof.now }
{
    match call.name {
        "claim" => show_output(call.alloc, &Output::claim(call.alloc, sound, proof)?, out),
        "second" => show_output(call.alloc, &Output::proof(call.alloc, sound, proof)?, out),
        _ => {
            writeln!(out, "{} goals", proof.goals().len())?;
            Ok(())
        }
    }
}

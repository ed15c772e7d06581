//! Calls of the shelf and of the sink in memory.

use std::io::Write;
use xd_base::{FetchError, MemoryShelf, MemorySink, PutError, Shelf, Sink};
use xd_calls_lines::{Call, CallError};

/// `add NAME : TEXT`, `fail_at NUMBER`, `fetch NAME MOST`.
pub fn shelf(shelf: &mut MemoryShelf, call: &Call<'_>, out: &mut Vec<u8>) -> Result<(), CallError> {
    match call.name {
        "add" => shelf.add(call.word(0)?, call.text.as_bytes())?,
        "fail_at" => shelf.fail_at(call.number(0)?)?,
        "fetch" => fetch(shelf, call, out)?,
        _ => return Err(CallError::Call),
    }
    Ok(())
}

fn fetch(shelf: &mut MemoryShelf, call: &Call<'_>, out: &mut Vec<u8>) -> Result<(), CallError> {
    let name = call.word(0)?;
    let most = call.size(1)?;
    if most == 0 {
        return Err(CallError::Words);
    }
    match shelf.fetch(call.alloc, name, most) {
        Ok(text) => out.extend_from_slice(&text)?,
        Err(FetchError::Failed) => out.extend_from_slice(b"failed")?,
        Err(FetchError::Missing) => out.extend_from_slice(b"missing")?,
        Err(error) => return Err(CallError::from(error)),
    }
    Ok(())
}

/// `new ROOM PIECE`, `fail_at NUMBER`, `put : TEXT`, `written`.
pub fn sink(
    sink: &mut Option<MemorySink>,
    call: &Call<'_>,
    out: &mut Vec<u8>,
) -> Result<(), CallError> {
    if call.name == "new" {
        *sink = Some(new_sink(call)?);
        return Ok(());
    }
    let sink = sink.as_mut().ok_or(CallError::Unknown)?;
    match call.name {
        "fail_at" => sink.fail_at(call.number(0)?)?,
        "put" => match sink.put(call.text.as_bytes()) {
            Ok(taken) => writeln!(out, "{taken}")?,
            Err(PutError::Failed) => out.extend_from_slice(b"failed")?,
        },
        "written" => out.extend_from_slice(sink.written())?,
        _ => return Err(CallError::Call),
    }
    Ok(())
}

fn new_sink(call: &Call<'_>) -> Result<MemorySink, CallError> {
    let piece = call.size(1)?;
    if piece == 0 {
        return Err(CallError::Words);
    }
    Ok(MemorySink::new(call.alloc, call.size(0)?, piece)?)
}

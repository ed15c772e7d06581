//! Calls of streams of bytes.

ghost use Rattle.xd_auto.specs.Automaton.{IsState};

use std::io::Write;
use xd_auto::{Auto, State};
use xd_calls_lines::{Call, CallError, show_class, show_place, show_words};
use xd_calls_programs::state_of;
use xd_doc::NoMemory;
use xd_stream::{Expected, Stream, StreamError};

/// `stream TYPE PIECES`: what is open after each piece, then what may come, and whether the bytes
/// may end there.
pub fn show_stream(call: &Call<'_>, out: &mut Vec<u8>) -> Result<(), CallError> {
    let (auto, state) = state_of(call, 0)?;
    show_stream_of(call, auto, state, out)
}

fn show_stream_of(
    call: &Call<'_>,
    auto: Auto,
    state: State,
    out: &mut Vec<u8>,
) -> Result<(), CallError>
    requires { IsState auto state }
{
    let mut stream = Stream::new(call.alloc, auto, state)?;
    for piece in call.behind.split_whitespace().skip(1) {
        show_piece(&mut stream, piece, out)?;
    }
    match stream.expected() {
        Ok(expected) => show_expected(&expected, out)?,
        Err(error) => show_stop(error, out)?,
    }
    match stream.finish() {
        Ok(()) => out.extend_from_slice(b"whole\n")?,
        Err(error) => show_stop(error, out)?,
    }
    Ok(())
}

/// How many frames there are after a piece, and how many bytes are held; or where the bytes stop.
fn show_piece(stream: &mut Stream, piece: &str, out: &mut Vec<u8>) -> Result<(), CallError> {
    if let Err(error) = stream.feed(piece.as_bytes()) {
        return show_stop(error, out);
    }
    let frames = stream.frames();
    let carried = stream.carried();
    writeln!(out, "frames {frames}, carried {carried}")?;
    Ok(())
}

fn show_stop(error: StreamError, out: &mut Vec<u8>) -> Result<(), CallError> {
    let (name, place) = match error {
        StreamError::Malformed(place) => ("malformed ", place),
        StreamError::Outside(place) => ("outside ", place),
        StreamError::NoMemory => return Err(CallError::from(NoMemory)),
    };
    out.extend_from_slice(name.as_bytes())?;
    show_place(place, out)?;
    out.push(b'\n')?;
    Ok(())
}

/// A line for each class, and one for the other tokens.
fn show_expected(expected: &Expected, out: &mut Vec<u8>) -> Result<(), CallError> {
    for class in &expected.labels {
        out.extend_from_slice(b"label ")?;
        show_class(class, out)?;
        out.push(b'\n')?;
    }
    for words in &expected.texts {
        out.extend_from_slice(b"text ")?;
        show_words(words, out)?;
        out.push(b'\n')?;
    }
    out.extend_from_slice(b"signs")?;
    show_sign(expected.comma, " ,", out)?;
    show_sign(expected.bracket_r, " ]", out)?;
    show_sign(expected.paren_l, " (", out)?;
    show_sign(expected.paren_r, " )", out)?;
    show_sign(expected.end, " end", out)?;
    out.push(b'\n')?;
    Ok(())
}

fn show_sign(may_come: bool, sign: &str, out: &mut Vec<u8>) -> Result<(), CallError> {
    if may_come {
        out.extend_from_slice(sign.as_bytes())?;
    }
    Ok(())
}

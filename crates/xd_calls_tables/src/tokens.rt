//! Calls about texts and the tokens that are left of one.

use std::io::Write;
use xd_calls_lines::{Call, CallError, label, show_place};
use xd_calls_programs::{show_pattern, show_type_line};
use xd_lex::{Lexer, text_of};
use xd_parse_trees::{Cursor, read_pattern_seq, read_type};
use xd_syntax::{Patterns, Types};

/// `text_of : TEXT`; `word : TEXT`, `label : TEXT` and `quoted : TEXT`, the place of the first
/// token and what it is taken as; `shared_label WORD`; `read_pattern_seq : TEXT`; `read_type :
/// TEXT`.
pub fn token_calls(call: &Call<'_>, out: &mut Vec<u8>) -> Result<(), CallError> {
    match call.name {
        "text_of" => show_text(call.text.as_bytes(), out),
        "word" => show_word(call, out),
        "label" => show_label(call, out),
        "quoted" => show_quoted(call, out),
        "shared_label" => show_shared(call, out),
        "read_pattern_seq" => show_read(call, out),
        "read_type" => show_type(call, out),
        _ => Err(CallError::Call),
    }
}

fn show_text(bytes: &[u8], out: &mut Vec<u8>) -> Result<(), CallError> {
    match text_of(bytes) {
        Ok(text) => writeln!(out, "{text}")?,
        Err(_) => return Err(CallError::Malformed),
    }
    Ok(())
}

/// The tokens of the call's text.
fn cursor_of<'a>(text: &'a str) -> Result<Cursor<'a>, CallError> {
    match Lexer::new(text.as_bytes()) {
        Ok(lexer) => Ok(Cursor::new(lexer)),
        Err(_) => Err(CallError::Malformed),
    }
}

fn show_word(call: &Call<'_>, out: &mut Vec<u8>) -> Result<(), CallError> {
    let word = cursor_of(call.text)?.word(call.alloc)?;
    show_place(word.place, out)?;
    writeln!(out, " {}", word.word.as_str())?;
    Ok(())
}

fn show_label(call: &Call<'_>, out: &mut Vec<u8>) -> Result<(), CallError> {
    let word = cursor_of(call.text)?.label(call.alloc)?;
    show_place(word.place, out)?;
    writeln!(out, " {}", word.word.as_str())?;
    Ok(())
}

fn show_quoted(call: &Call<'_>, out: &mut Vec<u8>) -> Result<(), CallError> {
    let quoted = cursor_of(call.text)?.quoted(call.alloc)?;
    show_place(quoted.place, out)?;
    writeln!(out, " {}", quoted.text.as_str())?;
    Ok(())
}

fn show_shared(call: &Call<'_>, out: &mut Vec<u8>) -> Result<(), CallError> {
    let made = label(call.alloc, call.word(0)?)?;
    let shared = cursor_of(call.text)?.shared_label(call.alloc, made.as_str())?;
    writeln!(out, "{}", shared.as_str())?;
    Ok(())
}

fn show_read(call: &Call<'_>, out: &mut Vec<u8>) -> Result<(), CallError> {
    let mut patterns = Patterns::new(call.alloc);
    let id = read_pattern_seq(call.alloc, &mut cursor_of(call.text)?, &mut patterns)?;
    out.extend_from_slice(b"pattern")?;
    show_pattern(out, &patterns, id)?;
    out.push(b'\n')?;
    Ok(())
}

fn show_type(call: &Call<'_>, out: &mut Vec<u8>) -> Result<(), CallError> {
    let mut types = Types::new(call.alloc);
    let id = read_type(call.alloc, &mut cursor_of(call.text)?, &mut types)?;
    show_type_line(&types, id, out)
}

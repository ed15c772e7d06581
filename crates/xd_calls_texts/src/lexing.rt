//! Calls about tokens.

use std::alloc::Global;
use std::io::Write;
use xd_calls_lines::{Call, CallError, show_place};
use xd_doc::NoMemory;
use xd_grammar::{Nonterminal, TextError, TextFault, spelled_tokens};
use xd_lex::{Kind, Lexer, tokens, unescape};

/// `tokens : TEXT`, `spelled : TEXT`, `unescape : TOKEN`.
pub fn lex(call: &Call<'_>, out: &mut Vec<u8>) -> Result<(), CallError> {
    match call.name {
        "tokens" => show_tokens(call.alloc, call.text.as_bytes(), out),
        "spelled" => show_spelled(call.alloc, call.text.as_bytes(), out),
        "unescape" => show_unescaped(call.alloc, call.text.as_bytes(), out),
        _ => Err(CallError::Call),
    }
}

/// The place, the kind and the text of each token.
fn show_tokens(alloc: Global, text: &[u8], out: &mut Vec<u8>) -> Result<(), CallError> {
    for token in &tokens(alloc, text)? {
        show_place(token.place, out)?;
        write!(out, " {:?}", token.kind)?;
        if !token.text.is_empty() {
            write!(out, " {}", token.text)?;
        }
        writeln!(out)?;
    }
    Ok(())
}

/// That the text spells definitions, or its first fault.
fn show_spelled(alloc: Global, text: &[u8], out: &mut Vec<u8>) -> Result<(), CallError> {
    match spelled_tokens(alloc, Nonterminal::Definitions, text) {
        Ok(_) => out.extend_from_slice(b"spelled\n")?,
        Err(TextError::Fault(fault)) => show_fault(fault, out)?,
        Err(TextError::NoMemory) => return Err(CallError::Memory(NoMemory)),
    }
    Ok(())
}

fn show_fault(fault: TextFault, out: &mut Vec<u8>) -> Result<(), CallError> {
    let (what, place) = match fault {
        TextFault::NotUtf8(place) => ("not UTF-8", place),
        TextFault::Syntax(place) => ("syntax", place),
        TextFault::TooDeep(place) => ("too deep", place),
    };
    show_place(place, out)?;
    writeln!(out, " {what}")?;
    Ok(())
}

fn show_unescaped(alloc: Global, text: &[u8], out: &mut Vec<u8>) -> Result<(), CallError> {
    let Ok(mut lexer) = Lexer::new(text) else {
        return Err(CallError::Malformed);
    };
    let token = lexer.next_token();
    match token.kind {
        Kind::Text => {
            out.extend_from_slice(unescape(alloc, token.text)?.as_str().as_bytes())?;
            Ok(())
        }
        _ => Err(CallError::Words),
    }
}

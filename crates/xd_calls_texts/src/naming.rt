//! Calls about labels, texts and classes of both.

use std::io::Write;
use xd_calls_lines::{Call, CallError, class, label, words};
use xd_doc::Text;

/// `label : WORD`, `text : TEXT`, `class CLASS LABELS`, `words CLASS TEXTS`: an equal label, text
/// or class that shares what was made, and of a class which of some labels or texts it has.
pub fn name(call: &Call<'_>, out: &mut Vec<u8>) -> Result<(), CallError> {
    match call.name {
        "label" => {
            let label = label(call.alloc, call.text)?.share()?;
            out.extend_from_slice(label.as_str().as_bytes())?;
        }
        "text" => {
            let text = Text::new(call.alloc, call.text)?.share()?;
            out.extend_from_slice(text.as_str().as_bytes())?;
        }
        "class" => show_class(call, out)?,
        "words" => show_words(call, out)?,
        _ => return Err(CallError::Call),
    }
    Ok(())
}

fn show_class(call: &Call<'_>, out: &mut Vec<u8>) -> Result<(), CallError> {
    let class = class(call.alloc, call.word(0)?)?.share()?;
    show_first(class.takes_others(), out)?;
    for name in class.names() {
        writeln!(out, "{}", name.as_str())?;
    }
    for word in call.behind.split_whitespace().skip(1) {
        let has = class.has(&label(call.alloc, word)?);
        writeln!(out, "{word}: {has}")?;
    }
    Ok(())
}

fn show_words(call: &Call<'_>, out: &mut Vec<u8>) -> Result<(), CallError> {
    let words = words(call.alloc, call.word(0)?)?.share()?;
    show_first(words.takes_others(), out)?;
    for text in words.texts() {
        writeln!(out, "{}", text.as_str())?;
    }
    for word in call.behind.split_whitespace().skip(1) {
        let has = words.has(&Text::new(call.alloc, word)?);
        writeln!(out, "{word}: {has}")?;
    }
    Ok(())
}

fn show_first(except: bool, out: &mut Vec<u8>) -> Result<(), CallError> {
    let first = if except { "all but\n" } else { "only\n" };
    out.extend_from_slice(first.as_bytes())?;
    Ok(())
}

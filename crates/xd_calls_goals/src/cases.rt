//! Calls about lines of proof texts.

use std::io::Write;
use xd_calls_lines::{Call, CallError};
use xd_proof::{Atom, ReadCase, Step, cut_lines, read_case, split_words};

/// `read_case LINE`: the number of the head, the atom, and the steps of the choice tree; or `none`.
pub fn show_read_case(call: &Call<'_>, out: &mut Vec<u8>) -> Result<(), CallError> {
    match read_case(call.alloc, call.behind.as_bytes())? {
        Some(read) => show_read(&read, out),
        None => Ok(out.extend_from_slice(b"none\n")?),
    }
}

fn show_read(read: &ReadCase, out: &mut Vec<u8>) -> Result<(), CallError> {
    write!(out, "head {} at ", read.head)?;
    show_atom(&read.atom, out)?;
    for step in &read.steps {
        show_step(*step, out)?;
    }
    Ok(())
}

fn show_atom(atom: &Atom, out: &mut Vec<u8>) -> Result<(), CallError> {
    match atom {
        Atom::Label(label) => show_named("label ", label.as_str(), out),
        Atom::OtherLabel => show_named("another label", "", out),
        Atom::Text(text) => show_named("text ", text.as_str(), out),
        Atom::OtherText => show_named("another text", "", out),
    }
}

fn show_named(kind: &str, name: &str, out: &mut Vec<u8>) -> Result<(), CallError> {
    out.extend_from_slice(kind.as_bytes())?;
    out.extend_from_slice(name.as_bytes())?;
    Ok(())
}

fn show_step(step: Step, out: &mut Vec<u8>) -> Result<(), CallError> {
    match step {
        Step::Content(goal) => write!(out, ", content by goal {goal}")?,
        Step::Rest(goal) => write!(out, ", rest by goal {goal}")?,
        Step::Split(right) => write!(out, ", split at head {right}")?,
    }
    Ok(())
}

/// `cut_lines`: how many bytes each line of the text has, and how many stand after the last line
/// feed.
pub fn show_cut_lines(call: &Call<'_>, out: &mut Vec<u8>) -> Result<(), CallError> {
    let cut = cut_lines(call.alloc, call.text.as_bytes())?;
    for line in &cut.lines {
        writeln!(out, "{} bytes", line.len())?;
    }
    writeln!(out, "{} after the last line feed", cut.left.len())?;
    Ok(())
}

/// `split_words LINE`: the words, which single spaces separate, one a line in brackets.
pub fn show_split_words(call: &Call<'_>, out: &mut Vec<u8>) -> Result<(), CallError> {
    for word in split_words(call.alloc, call.behind.as_bytes())?.iter() {
        out.push(b'[')?;
        out.extend_from_slice(word)?;
        out.extend_from_slice(b"]\n")?;
    }
    Ok(())
}

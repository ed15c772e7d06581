//! Calls about classes of labels and of texts.

use xd_calls_lines::{Call, CallError, class, show_answer, show_class, show_words, words};
use xd_doc::{Class, Words};
use xd_empty::{some_label, some_text};

/// `meet ONE TWO`, `without ONE TWO`: the class that two classes of labels come to, or `none`;
/// `shared ONE`; `some_label ONE`, whether the class has the label that is given.
pub fn labels(call: &Call<'_>, out: &mut Vec<u8>) -> Result<(), CallError> {
    let one = class(call.alloc, call.word(0)?)?;
    match call.name {
        "meet" => show_part(one.meet(&other(call)?)?, out),
        "without" => show_part(one.without(&other(call)?)?, out),
        "shared" => show_part(Some(one.share()?), out),
        "some_label" => show_answer(one.has(&some_label(call.alloc, &one)?), out),
        _ => Err(CallError::Call),
    }
}

/// The same of classes of texts: `meet`, `without`, `some_text`.
pub fn texts(call: &Call<'_>, out: &mut Vec<u8>) -> Result<(), CallError> {
    let one = words(call.alloc, call.word(0)?)?;
    match call.name {
        "meet" => show_texts(one.meet(&others(call)?)?, out),
        "without" => show_texts(one.without(&others(call)?)?, out),
        "some_text" => show_answer(one.has(&some_text(call.alloc, &one)?), out),
        _ => Err(CallError::Call),
    }
}

/// The second class of labels of a call.
fn other(call: &Call<'_>) -> Result<Class, CallError> {
    class(call.alloc, call.word(1)?)
}

/// The second class of texts of a call.
fn others(call: &Call<'_>) -> Result<Words, CallError> {
    words(call.alloc, call.word(1)?)
}

fn show_part(part: Option<Class>, out: &mut Vec<u8>) -> Result<(), CallError> {
    match part {
        Some(class) => show_class(&class, out)?,
        None => out.extend_from_slice(b"none")?,
    }
    out.push(b'\n')?;
    Ok(())
}

fn show_texts(part: Option<Words>, out: &mut Vec<u8>) -> Result<(), CallError> {
    match part {
        Some(words) => show_words(&words, out)?,
        None => out.extend_from_slice(b"none")?,
    }
    out.push(b'\n')?;
    Ok(())
}

//! What words of calls spell, and how that and answers are written.

use crate::error::CallError;
use std::alloc::Global;
use std::io::Write;
use xd_base::Place;
use xd_doc::{Class, Label, Text, Words};
use xd_lex::{Kind, Lexer};

/// The label that a word spells.
pub fn label(alloc: Global, word: &str) -> Result<Label, CallError> {
    let Ok(mut lexer) = Lexer::new(word.as_bytes()) else {
        return Err(CallError::Label);
    };
    let token = lexer.next_token();
    match token.kind {
        Kind::Word => Ok(Label::new(alloc, token.text)?),
        _ => Err(CallError::Label),
    }
}

/// What a class names, and whether it excepts that: `a|b`, `^a|b`, or `^` for a class that has all.
fn named(class: &str) -> (&str, bool) {
    match class.strip_prefix("^") {
        Some(names) => (names, true),
        None => (class, false),
    }
}

/// A class of labels.
pub fn class(alloc: Global, class: &str) -> Result<Class, CallError> {
    let (names, except) = named(class);
    let mut labels = Vec::new(alloc);
    for name in names.split('|') {
        if !name.is_empty() {
            labels.push(label(alloc, name)?)?;
        }
    }
    if labels.is_empty() && !except {
        return Err(CallError::Words);
    }
    Ok(Class::new(alloc, labels, except)?)
}

/// A class of texts, which have no bar and no space; `""` stands for the empty one.
pub fn words(alloc: Global, class: &str) -> Result<Words, CallError> {
    let (names, except) = named(class);
    let mut texts = Vec::new(alloc);
    for name in names.split('|') {
        match name {
            "" => {}
            "\"\"" => texts.push(Text::new(alloc, "")?)?,
            _ => texts.push(Text::new(alloc, name)?)?,
        }
    }
    if texts.is_empty() && !except {
        return Err(CallError::Words);
    }
    Ok(Words::new(alloc, texts, except)?)
}

/// Labels, as `a|b`; `^` stands before those that are excepted.
pub fn show_class(class: &Class, out: &mut Vec<u8>) -> Result<(), CallError> {
    if class.takes_others() {
        out.push(b'^')?;
    }
    for (i, name) in class.names().iter().enumerate() {
        if i > 0 {
            out.push(b'|')?;
        }
        out.extend_from_slice(name.as_str().as_bytes())?;
    }
    Ok(())
}

/// Texts, as `"a"|"b"`; `^` stands before those that are excepted.
pub fn show_words(words: &Words, out: &mut Vec<u8>) -> Result<(), CallError> {
    if words.takes_others() {
        out.push(b'^')?;
    }
    for (i, text) in words.texts().iter().enumerate() {
        if i > 0 {
            out.push(b'|')?;
        }
        write!(out, "\"{}\"", text.as_str())?;
    }
    Ok(())
}

/// A place, as `LINE:COLUMN`.
pub fn show_place(place: Place, out: &mut Vec<u8>) -> Result<(), CallError> {
    write!(out, "{}:{}", place.line, place.column)?;
    Ok(())
}

/// `yes` or `no`.
pub fn show_answer(is: bool, out: &mut Vec<u8>) -> Result<(), CallError> {
    let answer = if is { "yes\n" } else { "no\n" };
    out.extend_from_slice(answer.as_bytes())?;
    Ok(())
}

/// `yes` or `no`, and after it what it is said of.
pub fn show_answer_on(is: bool, asked: &str, out: &mut Vec<u8>) -> Result<(), CallError> {
    let answer = if is { "yes " } else { "no " };
    out.extend_from_slice(answer.as_bytes())?;
    out.extend_from_slice(asked.as_bytes())?;
    out.push(b'\n')?;
    Ok(())
}

//! What a line of the cases says.

use crate::error::CaseError;
use std::alloc::Global;

/// What a line of the cases says.
#[derive(Drop)]
pub enum Directive<'a> {
    /// Nothing: the line is blank or a comment.
    Blank,
    /// A case begins.
    Case,
    /// A text of this name begins, in place of an earlier one, with its first line where one is
    /// given.
    File(&'a str, Option<&'a str>),
    /// A line of the text.
    Line(&'a str),
    /// So many times these characters, in the text's last line.
    Repeat(usize, &'a str),
    /// These bytes, in the text's last line.
    Bytes(Vec<u8>),
    /// The calls of the shelf with these numbers fail.
    ShelfFails(Vec<u64>),
    /// The calls of the sink with these numbers fail.
    SinkFails(Vec<u64>),
    /// The sink has room for so many bytes.
    Room(usize),
    /// The sink takes so many bytes in a call.
    Piece(usize),
    /// The document of so many persons is written, which the sample is run on.
    Persons(u64),
    /// The command runs on these words.
    Run(&'a str),
    /// The command runs on these words, once for each variation.
    Vary(Variation<'a>, Shown, &'a str),
}

/// What is shown of a variation's runs.
#[derive(Clone, Copy)]
pub enum Shown {
    /// The statuses.
    Statuses,
    /// The statuses and what is written.
    Outputs,
}

/// What is different from one run to the next.
#[derive(Clone, Copy)]
pub enum Variation<'a> {
    /// The text of this name is cut after each of its bytes but the last.
    Prefix(&'a str),
    /// Each number of the text of this name is one up, then one down.
    Number(&'a str),
    /// Each call of the shelf fails.
    Fetch,
    /// Each call of the sink fails.
    Put,
    /// The sink has room for each number of bytes from none on.
    Room,
}

/// The numbers of a list, between spaces.
fn numbers(alloc: Global, list: &str) -> Result<Vec<u64>, CaseError> {
    let mut numbers = Vec::new(alloc);
    for number in list.split_whitespace() {
        numbers.push(number.parse::<u64>()?)?;
    }
    Ok(numbers)
}

/// The bytes of a list, each of two hexadecimal digits.
fn bytes(alloc: Global, list: &str) -> Result<Directive<'_>, CaseError> {
    let mut bytes = Vec::new(alloc);
    for byte in list.split_whitespace() {
        let byte = hex::decode(alloc, byte)?;
        bytes.extend_from_slice(&byte)?;
    }
    Ok(Directive::Bytes(bytes))
}

/// A piece of a text: `"TEXT"`, `NUMBER "TEXT"` or `hex BYTES`.
fn piece(alloc: Global, line: &str) -> Result<Directive<'_>, CaseError> {
    if let Some(list) = line.strip_prefix("hex ") {
        return bytes(alloc, list);
    }
    let Some((times, quoted)) = line.split_once('"') else {
        return Err(CaseError::Quotes);
    };
    let Some(text) = quoted.strip_suffix('"') else {
        return Err(CaseError::Quotes);
    };
    let times = match times.trim() {
        "" => 1,
        number => number.parse::<usize>()?,
    };
    Ok(Directive::Repeat(times, text))
}

/// What is said of the sink: `fails NUMBERS`, `room NUMBER` or `piece NUMBER`.
fn sink(alloc: Global, line: &str) -> Result<Directive<'_>, CaseError> {
    let (what, rest) = line.split_once(' ').unwrap_or((line, ""));
    match what {
        "fails" => Ok(Directive::SinkFails(numbers(alloc, rest)?)),
        "room" => Ok(Directive::Room(rest.parse::<usize>()?)),
        "piece" => Ok(Directive::Piece(rest.parse::<usize>()?)),
        _ => Err(CaseError::Directive),
    }
}

/// A variation of a text: `prefix of NAME` or `number of NAME`.
fn text_variation(line: &str) -> Result<Variation<'_>, CaseError> {
    if let Some(name) = line.strip_prefix("prefix of ") {
        return Ok(Variation::Prefix(name));
    }
    match line.strip_prefix("number of ") {
        Some(name) => Ok(Variation::Number(name)),
        None => Err(CaseError::Directive),
    }
}

/// A variation, ` $ `, and the words of its runs.
fn varied(line: &str, shown: Shown) -> Result<Directive<'_>, CaseError> {
    let Some((variation, words)) = line.split_once(" $ ") else {
        return Err(CaseError::Directive);
    };
    let variation = match variation {
        "fetch" => Variation::Fetch,
        "put" => Variation::Put,
        "room" => Variation::Room,
        other => text_variation(other)?,
    };
    Ok(Directive::Vary(variation, shown, words))
}

/// A text's name, with the first line after it where one is given.
fn file(line: &str) -> Directive<'_> {
    match line.split_once(' ') {
        Some((name, line)) => Directive::File(name, Some(line)),
        None => Directive::File(line, None),
    }
}

/// What is said of the shelf: `fails NUMBERS`.
fn shelf(alloc: Global, line: &str) -> Result<Directive<'_>, CaseError> {
    match line.strip_prefix("fails") {
        Some(list) => Ok(Directive::ShelfFails(numbers(alloc, list)?)),
        None => Err(CaseError::Directive),
    }
}

/// What a line says.
pub fn parse(alloc: Global, line: &str) -> Result<Directive<'_>, CaseError> {
    let (head, rest) = line.split_once(' ').unwrap_or((line, ""));
    match head {
        "" | "#" => Ok(Directive::Blank),
        "case" => Ok(Directive::Case),
        "file" => Ok(file(rest)),
        "|" => Ok(Directive::Line(rest)),
        "+" => piece(alloc, rest),
        "shelf" => shelf(alloc, rest),
        "sink" => sink(alloc, rest),
        "persons" => Ok(Directive::Persons(rest.parse::<u64>()?)),
        "$" => Ok(Directive::Run(rest)),
        "each" => varied(rest, Shown::Statuses),
        "every" => varied(rest, Shown::Outputs),
        _ => Err(CaseError::Directive),
    }
}

//! The lines of the input, one after the other.

use crate::call::Call;
use crate::error::CallError;
use anyhow::{Context, Result};
use std::alloc::Global;
use std::io;
use std::io::Write;

/// What the calls of a case are made at.
pub trait Fixture: Drop {
    /// Makes a call, and appends what came.
    fn answer(&mut self, call: &Call<'_>, out: &mut Vec<u8>) -> Result<(), CallError>;
}

/// One of several fixtures, which lines of the input choose by their names.
pub trait NamedFixture: Fixture + Sized {
    /// A new fixture of this name.
    fn named(alloc: Global, name: &str) -> Result<Self, CallError>;
}

/// Appends what came, a line after each `>`.
fn show(answer: &[u8], out: &mut Vec<u8>) -> Result<(), CallError> {
    let mut begins = true;
    for byte in answer {
        if begins {
            out.extend_from_slice(b"> ")?;
        }
        out.push(*byte)?;
        begins = *byte == b'\n';
    }
    if !begins {
        out.push(b'\n')?;
    }
    Ok(())
}

/// Adds the line's piece of the text that the next call takes: `| LINE`, or `* TIMES TEXT` with no
/// line feed between.
fn gather(text: &mut String, line: &str) -> Result<(), CallError> {
    match line.strip_prefix("* ") {
        Some(repeated) => add_repeated(text, repeated),
        None => add_line(text, line.strip_prefix("| ").unwrap_or("")),
    }
}

fn add_repeated(text: &mut String, repeated: &str) -> Result<(), CallError> {
    let (times, piece) = repeated.split_once(' ').ok_or(CallError::Missing)?;
    for _ in 0..times.parse::<usize>()? {
        text.push_str(piece)?;
    }
    Ok(())
}

fn add_line(text: &mut String, line: &str) -> Result<(), CallError> {
    if !text.is_empty() {
        text.push('\n')?;
    }
    text.push_str(line)?;
    Ok(())
}

/// What lines have said so far: the fixture that was chosen, as it stands in this case, and the
/// text that the next call takes.
#[derive(Drop)]
struct Reading<'a, D> {
    alloc: Global,
    name: &'a str,
    fixture: Option<D>,
    text: String,
}

impl<'a, D: NamedFixture> Reading<'a, D> {
    fn new(alloc: Global) -> Reading<'a, D> {
        Reading {
            alloc,
            name: "",
            fixture: None,
            text: String::new(alloc),
        }
    }

    /// Chooses the fixture for what comes after.
    fn choose(&mut self, name: &'a str) -> Result<(), CallError> {
        self.name = name;
        self.begin_case()
    }

    /// Begins with a new fixture and no text.
    fn begin_case(&mut self) -> Result<(), CallError> {
        self.fixture = Some(D::named(self.alloc, self.name)?);
        self.text.clear();
        Ok(())
    }

    /// Makes the call of a line, which takes the text that was gathered and what stands after a
    /// colon, and appends what came.
    fn make_call(&mut self, line: &str, out: &mut Vec<u8>) -> Result<(), CallError> {
        let Some(fixture) = &mut self.fixture else {
            return Err(CallError::Fixture);
        };
        let (head, behind) = line.split_once(" : ").unwrap_or((line, ""));
        self.text.push_str(behind)?;
        let mut came = Vec::new(self.alloc);
        fixture.answer(&Call::new(self.alloc, head, self.text.as_str()), &mut came)?;
        self.text.clear();
        show(&came, out)
    }

    /// Does what a line says, and appends what came.
    fn obey(&mut self, line: &'a str, out: &mut Vec<u8>) -> Result<(), CallError> {
        if line.is_empty() || line.starts_with("#") {
            return Ok(());
        }
        if line.starts_with("|") || line.starts_with("*") {
            return gather(&mut self.text, line);
        }
        if let Some(name) = line.strip_prefix("fixture ") {
            return self.choose(name);
        }
        if line.starts_with("case ") {
            return self.begin_case();
        }
        self.make_call(line, out)
    }
}

/// The input with what came after each call.
fn answered<D: NamedFixture>(alloc: Global, input: &str) -> Result<Vec<u8>> {
    let mut out = Vec::new(alloc);
    let mut reading = Reading::<D>::new(alloc);
    for (number, line) in (1..u64::MAX).zip(input.lines()) {
        writeln!(out, "{line}")?;
        reading
            .obey(line, &mut out)
            .context(format_args!("line {number}"))?;
    }
    Ok(out)
}

/// Reads calls from the standard input, and writes them again with what came after each.
pub fn run<D: NamedFixture>(rt: &(impl Input + Print + AllocGlobal)) -> Result<()> {
    let input = io::read_to_string(rt.alloc(), rt.reader())?;
    let out = answered::<D>(rt.alloc(), input.as_str())?;
    io::writer(rt).write_all(&out)?;
    Ok(())
}

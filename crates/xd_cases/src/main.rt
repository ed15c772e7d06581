//! Runs the command `xduce` on worked cases, over the shelf and the sink in memory: reads the cases
//! from the standard input, and writes them again with the status and the output after each run.
#![tactic(auto)]

mod case;
mod directive;
mod error;
mod numbers;
mod report;
mod run;

use crate::case::Case;
use crate::directive::{Directive, Shown, Variation};
use crate::error::CaseError;
use anyhow::{Context, Result};
use std::alloc::Global;
use std::io;
use std::io::Write;
use xd_command_programs::sample_document;
use xd_doc::Store;
use xd_write::write_document;

/// Appends the status and the output of a run.
fn show_run(
    alloc: Global,
    case: &Case<'_>,
    words: &str,
    out: &mut Vec<u8>,
) -> Result<(), CaseError> {
    let (status, sink) = run::run(alloc, case, words)?;
    report::show_run(out, status, sink.written())
}

/// Appends what is shown of a run's variations.
fn show_runs(
    alloc: Global,
    case: &Case<'_>,
    variation: Variation<'_>,
    shown: Shown,
    words: &str,
    out: &mut Vec<u8>,
) -> Result<(), CaseError> {
    let ended = run::run_each(alloc, case, variation, words)?;
    report::show_runs(out, &ended, shown)
}

/// Appends the document of so many persons, which the sample is run on.
fn show_persons(alloc: Global, persons: u64, out: &mut Vec<u8>) -> Result<(), CaseError> {
    let mut store = Store::new(alloc);
    let document = sample_document(alloc, &mut store, persons)?;
    let mut text = Vec::new(alloc);
    write_document(alloc, &store, document, &mut text)?;
    text.push(b'\n')?;
    report::show_output(out, &text)
}

/// Does what a line says, and appends its answer.
fn obey<'a>(
    alloc: Global,
    case: &mut Case<'a>,
    line: &'a str,
    out: &mut Vec<u8>,
) -> Result<(), CaseError> {
    match directive::parse(alloc, line)? {
        Directive::Blank => Ok(()),
        Directive::Case => {
            *case = Case::new(alloc);
            Ok(())
        }
        Directive::File(name, line) => case.begin_with(name, line),
        Directive::Line(text) => case.add_line(text),
        Directive::Repeat(times, text) => case.add(times, text.as_bytes()),
        Directive::Bytes(bytes) => case.add(1, &bytes),
        Directive::ShelfFails(calls) => {
            case.shelf_fails = calls;
            Ok(())
        }
        Directive::SinkFails(calls) => {
            case.sink_fails = calls;
            Ok(())
        }
        Directive::Room(room) => {
            case.room = room;
            Ok(())
        }
        Directive::Piece(piece) => {
            case.piece = piece;
            Ok(())
        }
        Directive::Persons(persons) => show_persons(alloc, persons, out),
        Directive::Run(words) => show_run(alloc, case, words, out),
        Directive::Vary(variation, shown, words) => {
            show_runs(alloc, case, variation, shown, words, out)
        }
    }
}

/// Appends each line of the input, with an answer after each run.
fn answer_lines<'a>(
    alloc: Global,
    input: &'a str,
    case: &mut Case<'a>,
    out: &mut Vec<u8>,
) -> Result<()> {
    for (number, line) in (1..u64::MAX).zip(input.lines()) {
        writeln!(out, "{line}")?;
        obey(alloc, case, line, out).context(format_args!("line {number}"))?;
    }
    Ok(())
}

/// The input with an answer after each of its runs.
fn answered(alloc: Global, input: &str) -> Result<Vec<u8>> {
    let mut out = Vec::new(alloc);
    let mut case = Case::new(alloc);
    answer_lines(alloc, input, &mut case, &mut out)?;
    Ok(out)
}

fn main(rt: HostRuntime) -> Result<()> {
    let input = io::read_to_string(rt.alloc(), rt.reader())?;
    let out = answered(rt.alloc(), input.as_str())?;
    io::writer(&rt).write_all(&out)?;
    Ok(())
}

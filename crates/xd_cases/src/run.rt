//! Runs of the command on a case.

use crate::case::Case;
use crate::directive::Variation;
use crate::error::CaseError;
use crate::numbers::{count_numbers, with_changed_number};
use std::alloc::Global;
use xd_base::{MemoryShelf, MemorySink};
use xd_command::xduce;

/// The status where a text can't be read.
const CANNOT_READ: u8 = 3;

/// The status where the output can't be written.
const CANNOT_WRITE: u8 = 4;

/// How a run ended: its status, and what is written.
#[derive(Drop)]
pub struct Ended {
    pub status: u8,
    pub output: Vec<u8>,
}

/// The words between the spaces of a line.
fn split_words(alloc: Global, line: &str) -> Result<Vec<String>, CaseError> {
    let mut words = Vec::new(alloc);
    for word in line.split_whitespace() {
        words.push(String::from_str(alloc, word)?)?;
    }
    Ok(words)
}

/// Runs the command once on the words of a line: its status, and the sink that it wrote to.
pub fn run(alloc: Global, case: &Case<'_>, words: &str) -> Result<(u8, MemorySink), CaseError> {
    let words = split_words(alloc, words)?;
    run_words(alloc, case, &words)
}

/// The same on these words.
fn run_words(
    alloc: Global,
    case: &Case<'_>,
    words: &[String],
) -> Result<(u8, MemorySink), CaseError> {
    let mut shelf = case.shelf()?;
    let mut sink = case.sink(case.room)?;
    let status = xduce(alloc, words, &mut shelf, &mut sink);
    Ok((status.code, sink))
}

/// The shelf and the sink of the run with this number, counted from 0.
fn varied(
    alloc: Global,
    case: &Case<'_>,
    variation: Variation<'_>,
    number: usize,
) -> Result<(MemoryShelf, MemorySink), CaseError> {
    let mut shelf = case.shelf()?;
    let mut sink = case.sink(case.room)?;
    vary(alloc, case, variation, number, &mut shelf, &mut sink)?;
    Ok((shelf, sink))
}

/// Changes the shelf or the sink of a case to that of the run with this number.
fn vary(
    alloc: Global,
    case: &Case<'_>,
    variation: Variation<'_>,
    number: usize,
    shelf: &mut MemoryShelf,
    sink: &mut MemorySink,
) -> Result<(), CaseError> {
    let call = (number as u64).saturating_add(1);
    match variation {
        Variation::Prefix(name) => put_prefix(shelf, name, case.text(name)?, number),
        Variation::Number(name) => put_changed(alloc, shelf, name, case.text(name)?, number),
        Variation::Fetch => Ok(shelf.fail_at(call)?),
        Variation::Put => Ok(sink.fail_at(call)?),
        Variation::Room => {
            *sink = case.sink(number)?;
            Ok(())
        }
    }
}

/// Puts so many bytes of the text into the shelf, from its first on.
fn put_prefix(
    shelf: &mut MemoryShelf,
    name: &str,
    text: &[u8],
    length: usize,
) -> Result<(), CaseError> {
    shelf.add(name, &text[..length.min(text.len())])?;
    Ok(())
}

/// Puts the text into the shelf as the run with this number changes it: each of its numbers one up,
/// then one down.
fn put_changed(
    alloc: Global,
    shelf: &mut MemoryShelf,
    name: &str,
    text: &[u8],
    number: usize,
) -> Result<(), CaseError> {
    let changed = with_changed_number(alloc, text, number / 2, number % 2 == 0)?;
    shelf.add(name, &changed)?;
    Ok(())
}

/// The status that each run but the last one has, or `None` where the text says how many runs there
/// are.
fn failure(variation: Variation<'_>) -> Option<u8> {
    match variation {
        Variation::Prefix(_) | Variation::Number(_) => None,
        Variation::Fetch => Some(CANNOT_READ),
        Variation::Put | Variation::Room => Some(CANNOT_WRITE),
    }
}

/// How many runs a variation has at most: the text says it, or nothing does.
fn most_runs(case: &Case<'_>, variation: Variation<'_>) -> Result<usize, CaseError> {
    match variation {
        Variation::Prefix(name) => Ok(case.text(name)?.len()),
        Variation::Number(name) => Ok(count_numbers(case.text(name)?).saturating_mul(2)),
        _ => Ok(usize::MAX),
    }
}

/// How the run with this number ends, counted from 0.
fn run_varied(
    alloc: Global,
    case: &Case<'_>,
    variation: Variation<'_>,
    number: usize,
    words: &[String],
) -> Result<Ended, CaseError> {
    let (mut shelf, mut sink) = varied(alloc, case, variation, number)?;
    let status = xduce(alloc, words, &mut shelf, &mut sink).code;
    let output = Vec::from_slice(alloc, sink.written())?;
    Ok(Ended { status, output })
}

/// Runs the command once for each variation, and puts how the runs ended after the others.
fn add_runs(
    alloc: Global,
    case: &Case<'_>,
    variation: Variation<'_>,
    words: &[String],
    ended: &mut Vec<Ended>,
) -> Result<(), CaseError> {
    let failure = failure(variation);
    for number in 0..most_runs(case, variation)? {
        let run = run_varied(alloc, case, variation, number, words)?;
        let status = run.status;
        ended.push(run)?;
        if failure.is_some_and(|code| code != status) {
            break;
        }
    }
    Ok(())
}

/// Runs the command once for each variation on the words of a line: how the runs ended, in order.
///
/// Where calls fail or the room is short, the last run is the first that doesn't end for it.
pub fn run_each(
    alloc: Global,
    case: &Case<'_>,
    variation: Variation<'_>,
    words: &str,
) -> Result<Vec<Ended>, CaseError> {
    let words = split_words(alloc, words)?;
    let mut ended = Vec::new(alloc);
    add_runs(alloc, case, variation, &words, &mut ended)?;
    Ok(ended)
}

//! The command `xduce-validate`: whether documents fit a type, each of any length.
#![tactic(auto)]

ghost use Rattle.std.specs.Prelude.{◌≡◌, map};
ghost use Rattle.std.specs.String.{string_bytes};
ghost use Rattle.xd_auto.specs.Automaton.{IsState};
ghost use Rattle.xd_base.specs.Outside.{HasRisen};
ghost use Rattle.xd_command_documents.specs.Fits.{EndsAtName};
ghost use Rattle.xd_command_steps.specs.DoneSteps.{DoesStep};
ghost use Rattle.xd_command_steps.specs.Output.{IsSent};
ghost use Rattle.xd_stream.specs.StopByState.{IsAccepted};
ghost use Rattle.xd_syntax.specs.Kept.{program_tree};
ghost use Rattle.xd_validate.specs.Answers.{EndsAll};
ghost use Rattle.xd_validate.specs.Outcome.{EndsAtType, IsAcceptorIn, IsAcceptorOf, IsOutcome, IsOutcomeOn, asked, usage};

mod line;
mod reading;
mod run;
mod source;
mod stand;

use crate::run::run;
pub use source::{FileSource, Source, Unreadable};
use std::alloc::Global;
use xd_auto::{Auto, State};
use xd_base::{Shelf, Sink};
use xd_command_documents::acceptor;
use xd_command_steps::{Output, Status, Stop, load_program, put_all};
use xd_sound::SoundProgram;

/// A state that accepts what fits the type of this name in the program.
fn named_type(alloc: Global, sound: &mut SoundProgram, name: &str) -> Result<(Auto, State), Stop>
    ensures { DoesStep result (EndsAtName (program_tree sound.old) name.now) (λ made. IsAcceptorIn (program_tree sound.old) name.now made.0 made.1) }
{
    let Some(id) = sound.find_type(name)? else {
        return Err(Stop::Refused(Output::undefined_type(alloc, name)?));
    };
    Ok(acceptor(alloc, sound, id)?)
}

/// The same in the program of this file.
fn load_type<H: Shelf>(
    alloc: Global,
    file: &str,
    name: &str,
    shelf: &mut H,
) -> Result<(Auto, State), Stop>
    ensures { DoesStep result (EndsAtType (H.holds shelf.old) (HasRisen (H.faults shelf.old) (H.faults shelf.new)) file.now name.now) (λ made. IsAcceptorOf (H.holds shelf.old) file.now name.now made.0 made.1) }
{
    let mut sound = load_program(alloc, file, shelf)?;
    named_type(alloc, &mut sound, name)
}

/// Goes through these documents; where none is named, through the standard input.
fn run_asked<D: Source, S: Sink>(
    alloc: Global,
    auto: Auto,
    state: State,
    documents: &[String],
    source: &mut D,
    sink: &mut S,
) -> Status
    requires { IsState auto state }
    ensures { EndsAll (IsAccepted auto state) (D.holds source.old) (D.faults source.old) (D.faults source.new) (HasRisen (S.faults sink.old) (S.faults sink.new)) (S.written sink.old) (S.written sink.new) (asked (map string_bytes documents.now)) result.code }
{
    if !documents.is_empty() {
        return run(alloc, auto, state, documents, source, sink);
    }
    let Ok(name) = String::from_str(alloc, "-") else {
        return Status::NO_MEMORY;
    };
    run(alloc, auto, state, &[name], source, sink)
}

/// The same by the type of this name in the program of that file.
fn validate_by<H: Shelf, D: Source, S: Sink>(
    alloc: Global,
    file: &str,
    name: &str,
    documents: &[String],
    shelf: &mut H,
    source: &mut D,
    sink: &mut S,
) -> Status
    ensures { IsOutcomeOn (record { programs = H.holds shelf.old; documents = D.holds source.old; from = D.faults source.old; till = D.faults source.new; before = S.written sink.old; after = S.written sink.new }) (HasRisen (H.faults shelf.old) (H.faults shelf.new)) (HasRisen (S.faults sink.old) (S.faults sink.new)) file.now name.now (asked (map string_bytes documents.now)) result.code }
{
    match load_type(alloc, file, name, shelf) {
        Ok((auto, state)) => run_asked(alloc, auto, state, documents, source, sink),
        Err(Stop::Refused(output)) => output.send(sink),
        Err(Stop::NoMemory) => Status::NO_MEMORY,
    }
}

/// Says how it is called.
fn usage<S: Sink>(sink: &mut S) -> Status
    ensures { IsSent usage (HasRisen (S.faults sink.old) (S.faults sink.new)) (S.written sink.old) (S.written sink.new) result.code }
{
    if put_all(sink, b"usage: xduce-validate FILE TYPE [DOCUMENT ..]\n") {
        Status::USAGE
    } else {
        Status::UNWRITTEN
    }
}

/// Does what the words after the program's name ask for, and answers with the exit status: reads
/// each document, and writes a line for it.
///
/// The program comes from the shelf, the documents come from the source, each by its name among the
/// words, and the lines go to the sink.
pub fn validate<H: Shelf, D: Source, S: Sink>(
    alloc: Global,
    words: &[String],
    shelf: &mut H,
    source: &mut D,
    sink: &mut S,
) -> Status
    ensures outcome { IsOutcome (record { programs = H.holds shelf.old; documents = D.holds source.old; from = D.faults source.old; till = D.faults source.new; before = S.written sink.old; after = S.written sink.new }) (HasRisen (H.faults shelf.old) (H.faults shelf.new)) (HasRisen (S.faults sink.old) (S.faults sink.new)) (map string_bytes words.now) result.code }
{
    match words {
        [file, name, documents @ ..] => validate_by(
            alloc,
            file.as_str(),
            name.as_str(),
            documents,
            shelf,
            source,
            sink,
        ),
        _ => usage(sink),
    }
}

//! The program `xduce-validate`: files, the standard input and the standard output around the
//! command.
#![tactic(auto)]

ghost use Rattle.std.specs.Prelude.{map};
ghost use Rattle.std.specs.String.{string_bytes};
ghost use Rattle.std.specs.Process.{exit_status};
ghost use Rattle.xd_base.specs.Outside.{HasRisen};
ghost use Rattle.xd_validate.specs.Outcome.{IsOutcome};

use std::alloc::Global;
use std::process::ExitCode;
use std::rt::Env;
use std::{env, io};
use xd_base::{Shelf, Sink};
use xd_command_steps::Status;
use xd_files::{FileShelf, StreamSink, command_words, exit_code};
use xd_validate::{FileSource, Source, validate};

/// The words after the program's name.
fn words(rt: &(impl Env + AllocGlobal)) -> io::Result<Vec<String>> {
    let mut words = Vec::new(rt.alloc());
    for word in env::args(rt)?.skip(1) {
        words.push(word)?;
    }
    Ok(words)
}

/// Does what the words ask for, and ends with the status.
fn run<H: Shelf, D: Source, S: Sink>(
    alloc: Global,
    words: &[String],
    shelf: &mut H,
    source: &mut D,
    sink: &mut S,
) -> ExitCode
    ensures { IsOutcome (record { programs = H.holds shelf.old; documents = D.holds source.old; from = D.faults source.old; till = D.faults source.new; before = S.written sink.old; after = S.written sink.new }) (HasRisen (H.faults shelf.old) (H.faults shelf.new)) (HasRisen (S.faults sink.old) (S.faults sink.new)) (map string_bytes words.now) (exit_status result) }
{
    exit_code(validate(alloc, words, shelf, source, sink).code)
}

fn main(rt: HostRuntime) -> ExitCode {
    match command_words(rt.alloc(), words(&rt)) {
        Some(words) => {
            let mut shelf = FileShelf::new(&rt);
            let mut source = FileSource::new(&rt, rt.stdin());
            let mut sink = StreamSink::new(io::writer(&rt));
            run(rt.alloc(), &words, &mut shelf, &mut source, &mut sink)
        }
        None => exit_code(Status::NO_MEMORY.code),
    }
}

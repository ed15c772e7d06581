//! The command `xduce`: from its words and the texts that they name to a status and an output.
#![tactic(auto)]

ghost use Rattle.std.specs.Prelude.{map};
ghost use Rattle.std.specs.String.{string_bytes};
ghost use Rattle.xd_base.specs.Outside.{HasRisen};
ghost use Rattle.xd_command.specs.Answer.{IsAnswer};
ghost use Rattle.xd_command.specs.Command.{command_of};
ghost use Rattle.xd_command.specs.Outcome.{IsOutcome};
ghost use Rattle.xd_command_steps.specs.DoneSteps.{DoesAll};

use crate::command::Command;
use std::alloc::Global;
use xd_base::{Shelf, Sink};
use xd_command_steps::{Output, Stop};

mod command;

pub use xd_command_steps::Status;

/// What the words ask for, made in memory.
fn answer<H: Shelf>(alloc: Global, words: &[String], shelf: &mut H) -> Result<Output, Stop>
    ensures { DoesAll result (IsAnswer (command_of (map string_bytes words.now)) (H.holds shelf.old) (HasRisen (H.faults shelf.old) (H.faults shelf.new))) }
{
    match Command::parse(words) {
        Some(command) => command.answer(alloc, shelf),
        None => Ok(Output::usage(alloc)?),
    }
}

/// Does what the words after the program's name ask for, and answers with the exit status.
///
/// Texts come from the shelf by the names among the words, and the output goes to the sink once
/// it is made whole.
pub fn xduce<H: Shelf, S: Sink>(
    alloc: Global,
    words: &[String],
    shelf: &mut H,
    sink: &mut S,
) -> Status
    ensures outcome { IsOutcome (command_of (map string_bytes words.now)) (H.holds shelf.old) (HasRisen (H.faults shelf.old) (H.faults shelf.new)) (HasRisen (S.faults sink.old) (S.faults sink.new)) (S.written sink.old) (S.written sink.new) result.code }
{
    match answer(alloc, words, shelf) {
        Ok(output) | Err(Stop::Refused(output)) => output.send(sink),
        Err(Stop::NoMemory) => Status::NO_MEMORY,
    }
}

//! The command over texts in memory: from its words and the texts that they name to its answer.
#![tactic(auto)]

ghost use Rattle.std.specs.Prelude.{map, Some, IfOk};
ghost use Rattle.std.specs.String.{string_bytes};
ghost use Rattle.xd_answer.specs.Answered.{NoFault, held_text};
ghost use Rattle.xd_base.specs.MemoryShelf.{text_of};
ghost use Rattle.xd_command.specs.Answer.{IsAnswer};
ghost use Rattle.xd_command.specs.Command.{command_of};

mod texts;
mod written;

use crate::texts::Texts;
use crate::written::Written;
use std::alloc::Global;
pub use texts::Text;
use thiserror::Error;
use xd_command::{Status, xduce};

/// What the command answers: its exit status, and what it writes.
#[derive(Drop)]
pub struct Reply {
    pub status: u8,
    pub text: Vec<u8>,
}

/// There was not enough memory for an answer.
#[derive(Clone, Copy, Debug, PartialEq, Eq, Error)]
#[error("out of memory")]
pub struct NoMemory;

/// What the command answers to these words, where the texts that they name are these.
///
/// Of two texts of one name the first counts.
pub fn answer(alloc: Global, words: &[String], texts: &[Text<'_>]) -> Result<Reply, NoMemory>
    ensures { IfOk result (λ a. IsAnswer (command_of (map string_bytes words.now)) (Some (text_of (map held_text texts.now))) NoFault (record { status = a.status; text = a.text.items })) }
{
    let mut shelf = Texts::new(texts);
    let mut sink = Written::new(alloc);
    let status = xduce(alloc, words, &mut shelf, &mut sink);
    if status == Status::NO_MEMORY || status == Status::UNWRITTEN {
        return Err(NoMemory);
    }
    Ok(Reply {
        status: status.code,
        text: sink.into_bytes(),
    })
}

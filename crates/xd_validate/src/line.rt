//! What is told of a document.

ghost use Rattle.std.specs.Prelude.{◌≡◌, ◌≤◌, ◌<◌, ◌++◌, codes, length, IfOk, IfSome};
ghost use Rattle.xd_auto.specs.Automaton.{IsState};
ghost use Rattle.xd_base.specs.Outside.{HasRisen};
ghost use Rattle.xd_stream.specs.StopByState.{IsAccepted};
ghost use Rattle.xd_validate.specs.Answers.{HasMore, IsLine, IsTold, joined};

use crate::reading::{Ended, validate_open};
use crate::source::Source;
use crate::stand::may_stand;
use std::alloc::Global;
use std::marker::Model;
use xd_auto::{Auto, State};
use xd_command_steps::{Output, Status};
use xd_doc::NoMemory;
use xd_stream::StreamError;

/// The line of a document, with the status that is its own.
#[derive(Drop)]
pub struct Line {
    pub status: Status,
    pub text: Vec<u8>,
}

impl Model for Line {
    ghost use Rattle.xd_command_steps.specs.Output.{Output};

    ghost Value = { Output };

    ghost view = { λ l. record { status = l.status.code; text = l.text.items } };
}

impl Line {
    /// The line that begins with the name, and goes on with these.
    fn of(
        alloc: Global,
        status: Status,
        name: &str,
        gap: &str,
        answer: &[u8],
    ) -> Result<Line, NoMemory>
        ensures { IfOk result (λ line. line ≡ record { status = status.code; text = name.now ++ (gap.now ++ answer.now) }) }
    {
        let mut text = Vec::from_slice(alloc, name.as_bytes())?;
        text.extend_from_slice(gap.as_bytes())?;
        text.extend_from_slice(answer)?;
        Ok(Line { status, text })
    }

    /// The same with one more line, of what may stand there, unless that is nothing.
    fn with(self, name: &str, may_stand: &[u8]) -> Result<Line, NoMemory>
        ensures { IfOk result (HasMore self) }
    {
        if may_stand.is_empty() {
            return Ok(self);
        }
        let Line { status, text } = self;
        let mut text = text;
        text.extend_from_slice(name.as_bytes())?;
        text.extend_from_slice(b": here may stand:")?;
        text.extend_from_slice(may_stand)?;
        text.extend_from_slice(b"\n")?;
        Ok(Line { status, text })
    }

    /// The line of the document of this name that was read so, and where it stops what may stand
    /// there.
    fn ended(alloc: Global, name: &str, ended: Ended, may_stand: &[u8]) -> Result<Line, NoMemory>
        ensures { IfOk result (IsLine name.now ended) }
    {
        match ended {
            Ended::Accepted => {
                let answer = Output::yes(alloc)?;
                Line::of(alloc, Status::SUCCESS, name, ": ", answer.text())
            }
            Ended::Stopped(StreamError::Malformed(place)) => {
                let answer = Output::malformed_document(alloc, place)?;
                Line::of(alloc, Status::MALFORMED, name, ":", answer.text())?.with(name, may_stand)
            }
            Ended::Stopped(StreamError::Outside(place)) => {
                let answer = Output::outside_type(alloc, place)?;
                Line::of(alloc, Status::NO, name, ":", answer.text())?.with(name, may_stand)
            }
            Ended::Stopped(StreamError::NoMemory) => Err(NoMemory),
            Ended::Unread => Line::of(alloc, Status::UNREAD, name, ": ", b"cannot be read\n"),
        }
    }
}

/// Reads the document of this name, and gives its line. The automaton is given back.
pub fn tell<D: Source>(
    alloc: Global,
    auto: Auto,
    state: State,
    name: &str,
    source: &mut D,
    buffer: &mut [u8],
) -> Result<(Line, Auto), NoMemory>
    requires state { IsState auto state }
    requires room { 0 < length buffer.old }
    ensures told { IfOk result (λ r. IsTold (IsAccepted auto state) (D.holds source.old) (HasRisen (D.faults source.old) (D.faults source.new)) name.now r.0) }
    ensures automaton { IfOk result (λ r. r.1 ≡ auto) }
    ensures same { D.holds source.new ≡ D.holds source.old }
    ensures never_falls { D.faults source.old ≤ D.faults source.new }
    ensures length { length buffer.new ≡ length buffer.old }
{
    if let Err(_) = source.open(name) {
        let line = Line::ended(alloc, name, Ended::Unread, b"")?;
        return Ok((line, auto));
    }
    let (ended, front, auto) = validate_open(alloc, auto, state, source, buffer)?;
    let (may_stand, auto) = hint(alloc, auto, state, ended, front, buffer)?;
    let line = Line::ended(alloc, name, ended, &may_stand)?;
    Ok((line, auto))
}

/// What may stand where the document stops, if so many bytes at the front of the buffer are all that
/// were read of it. The automaton is given back.
fn hint(
    alloc: Global,
    auto: Auto,
    state: State,
    ended: Ended,
    front: Option<usize>,
    buffer: &[u8],
) -> Result<(Vec<u8>, Auto), NoMemory>
    requires state { IsState auto state }
    requires front { IfSome front (λ n. n ≤ length buffer.now) }
    ensures { IfOk result (λ r. r.1 ≡ auto) }
{
    let Some(place) = ended.place() else {
        return Ok((Vec::new(alloc), auto));
    };
    let Some(n) = front else {
        return Ok((Vec::new(alloc), auto));
    };
    may_stand(alloc, auto, state, &buffer[..n], place)
}

/// The status of both.
pub fn joined(one: Status, other: Status) -> Status
    ensures { result.code ≡ joined one.code other.code }
{
    if one.code == Status::UNREAD.code || other.code == Status::UNREAD.code {
        Status::UNREAD
    } else if one.code < other.code {
        other
    } else {
        one
    }
}

//! Goes through the documents, and writes their lines.

ghost use Rattle.std.specs.Prelude.{◌≡◌, ◌≤◌, ◌⊎◌, map};
ghost use Rattle.std.specs.String.{string_bytes};
ghost use Rattle.xd_auto.specs.Automaton.{IsState};
ghost use Rattle.xd_base.specs.Outside.{HasGrown, HasRisen};
ghost use Rattle.xd_stream.specs.StopByState.{IsAccepted};
ghost use Rattle.xd_validate.specs.Answers.{EndsAll, IsCutOff};

use crate::line::{joined, tell};
use crate::source::Source;
use std::alloc::Global;
use xd_auto::{Auto, State};
use xd_base::Sink;
use xd_command_steps::{Status, put_all};

/// How many bytes of a document are asked for at a time.
const PIECE: usize = 65536;

/// How many bytes of lines are held back before they are written together. With a line more they are
/// still written at once, so that those of several processes don't mix in a pipe.
const HELD: usize = 2048;

/// Reads each document in order and writes its line. It ends with the status of all.
pub fn run<D: Source, S: Sink>(
    alloc: Global,
    auto: Auto,
    state: State,
    names: &[String],
    source: &mut D,
    sink: &mut S,
) -> Status
    requires { IsState auto state }
    ensures { EndsAll (IsAccepted auto state) (D.holds source.old) (D.faults source.old) (D.faults source.new) (HasRisen (S.faults sink.old) (S.faults sink.new)) (S.written sink.old) (S.written sink.new) (map string_bytes names.now) result.code }
{
    let mut buffer = [0; PIECE];
    let mut automaton = auto;
    let mut status = Status::SUCCESS;
    let mut held = Vec::new(alloc);
    'documents: for name in names {
        let Ok((line, kept)) = tell(
            alloc,
            automaton,
            state,
            name.as_str(),
            source,
            &mut buffer[..],
        ) else {
            return end(&held, Status::NO_MEMORY, sink);
        };
        automaton = kept;
        if held.extend_from_slice(&line.text).is_err() {
            return end(&held, Status::NO_MEMORY, sink);
        }
        status = joined(status, line.status);
        if HELD <= held.len() {
            if !put_all(sink, &held) {
                return Status::UNWRITTEN;
            }
            held.clear();
        }
    }
    end(&held, status, sink)
}

/// Writes what is held back, and gives the status, or that of a sink which didn't take it.
fn end<S: Sink>(held: &[u8], status: Status, sink: &mut S) -> Status
    ensures sent { ((result.code ≡ status.code) × HasGrown (S.written sink.old) (S.written sink.new) held.now) ⊎ ((result.code ≡ 4) × IsCutOff (HasRisen (S.faults sink.old) (S.faults sink.new)) (S.written sink.old) (S.written sink.new) held.now) }
    ensures never_falls { S.faults sink.old ≤ S.faults sink.new }
{
    if put_all(sink, held) {
        status
    } else {
        Status::UNWRITTEN
    }
}

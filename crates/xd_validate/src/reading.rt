//! Reads a document to its end, or to where its bytes stop.

ghost use Rattle.std.specs.Prelude.{◌≡◌, ◌≤◌, ◌<◌, ℕ, List, [], length, IfErr, IfOk, IfSome, OnOk};
ghost use Rattle.xd_auto.specs.Automaton.{IsState};
ghost use Rattle.xd_base.specs.Outside.{HasRisen};
ghost use Rattle.xd_stream.specs.Streams.{StandsFor, automaton_of, start_of};
ghost use Rattle.xd_validate.specs.Reading.{IsAllOf};
ghost use Rattle.xd_validate.specs.Ended.{EndsAs, IsBroken};

use crate::source::Source;
use std::alloc::Global;
use xd_auto::{Auto, State};
use xd_base::Place;
use xd_doc::NoMemory;
use xd_stream::{Stream, StreamError};

/// How a document was read.
#[derive(Clone, Copy, Debug)]
pub enum Ended {
    /// To its end: it is a document that the state accepts.
    Accepted,
    /// To where its bytes stop.
    Stopped(StreamError),
    /// To where no more could be read.
    Unread,
}

impl Ended {
    /// Where the bytes stop.
    pub fn place(self) -> Option<Place> {
        match self {
            Ended::Stopped(error) => match error {
                StreamError::Malformed(place) | StreamError::Outside(place) => Some(place),
                StreamError::NoMemory => None,
            },
            Ended::Accepted | Ended::Unread => None,
        }
    }
}

/// Why a document was not read to its end.
#[derive(Clone, Copy, Debug)]
pub enum Broken {
    Stopped(StreamError),
    Unread,
}

/// Feeds the stream what is left of the open document, by way of the buffer, up to where the stream
/// refuses it.
///
/// It also tells how many bytes these are, if the buffer has them all, at its front.
fn feed_rest<D: Source>(
    source: &mut D,
    stream: &mut Stream,
    buffer: &mut [u8],
) -> (Result<(), Broken>, Option<usize>)
    requires room { 0 < length buffer.old }
    requires fresh { StandsFor stream.old [] }
    ensures whole { OnOk result.0 ((bytes : List ℕ) × IsAllOf (D.remaining source.old) bytes × StandsFor stream.new bytes) }
    ensures broken { IfErr result.0 (IsBroken (automaton_of stream.old) (start_of stream.old) (D.remaining source.old) (HasRisen (D.faults source.old) (D.faults source.new))) }
    ensures automaton { automaton_of stream.new ≡ automaton_of stream.old }
    ensures start { start_of stream.new ≡ start_of stream.old }
    ensures same { D.holds source.new ≡ D.holds source.old }
    ensures never_falls { D.faults source.old ≤ D.faults source.new }
    ensures length { length buffer.new ≡ length buffer.old }
    ensures front { IfSome result.1 (λ n. n ≤ length buffer.new) }
{
    let mut at = 0;
    let mut is_front = true;
    'pieces: for _ in 0..u64::MAX {
        if at == buffer.len() {
            at = 0;
            is_front = false;
        }
        let room = &mut buffer[at..];
        let Ok(n) = source.read(room) else {
            return (Err(Broken::Unread), None);
        };
        if n == 0 {
            return (Ok(()), where_all(is_front, at));
        }
        if let Err(error) = stream.feed(&room[..n]) {
            return (Err(Broken::Stopped(error)), where_all(is_front, at + n));
        }
        at += n;
    }
    // More pieces than are ever counted.
    (Err(Broken::Stopped(StreamError::NoMemory)), None)
}

fn where_all(is_front: bool, count: usize) -> Option<usize>
    ensures { IfSome result (λ n. n ≡ count) }
{
    if is_front { Some(count) } else { None }
}

/// Whether what is left of the open document spells a document that the state accepts; else where
/// it stops. The automaton is given back.
///
/// It also tells how many bytes were read, if the buffer has them all, at its front.
pub fn validate_open<D: Source>(
    alloc: Global,
    auto: Auto,
    state: State,
    source: &mut D,
    buffer: &mut [u8],
) -> Result<(Ended, Option<usize>, Auto), NoMemory>
    requires state { IsState auto state }
    requires room { 0 < length buffer.old }
    ensures ended { IfOk result (λ r. EndsAs auto state (D.remaining source.old) (HasRisen (D.faults source.old) (D.faults source.new)) r.0) }
    ensures automaton { IfOk result (λ r. r.2 ≡ auto) }
    ensures front { IfOk result (λ r. IfSome r.1 (λ n. n ≤ length buffer.new)) }
    ensures same { D.holds source.new ≡ D.holds source.old }
    ensures never_falls { D.faults source.old ≤ D.faults source.new }
    ensures length { length buffer.new ≡ length buffer.old }
{
    let mut stream = Stream::new(alloc, auto, state)?;
    let (fed, front) = feed_rest(source, &mut stream, buffer);
    let (finished, auto) = stream.finish_and_release();
    let ended = match fed {
        Ok(()) => match finished {
            Ok(()) => Ended::Accepted,
            Err(error) => Ended::Stopped(error),
        },
        Err(Broken::Stopped(error)) => Ended::Stopped(error),
        Err(Broken::Unread) => Ended::Unread,
    };
    Ok((ended, front, auto))
}

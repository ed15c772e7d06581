//! The command `stream`.

ghost use Rattle.std.specs.Prelude.{◌<◌, ◌≤◌, IfErr, IfOk, OnOk};
ghost use Rattle.xd_auto.specs.Automaton.{IsState};
ghost use Rattle.xd_base.specs.Outside.{HasRisen};
ghost use Rattle.xd_command_documents.specs.Stream.{piece_limit, AnswersStream, TellsStop};
ghost use Rattle.xd_command_documents.specs.StreamByState.{StreamsByState};
ghost use Rattle.xd_command_steps.specs.Programs.{AnswersOn};
ghost use Rattle.xd_command_steps.specs.DoneSteps.{DoesAll};
ghost use Rattle.xd_stream.specs.Fed.{StopsAs};
ghost use Rattle.xd_stream.specs.StopByState.{IsAccepted, SpellsAccepted};
ghost use Rattle.xd_syntax.specs.Kept.{program_tree};

use crate::membership::acceptor;
use std::alloc::Global;
use xd_auto::{Auto, State};
use xd_base::Shelf;
use xd_command_steps::{Output, Stop, load_bytes, load_program};
use xd_doc::NoMemory;
use xd_sound::SoundProgram;
use xd_stream::{Stream, StreamError};

/// How many bytes a piece of a stream may have.
pub const PIECE_LIMIT: u64 = 65_536;

/// Whether the bytes spell a document that the state accepts, fed in pieces of this length; else
/// where they stop.
fn feed_all(
    alloc: Global,
    auto: Auto,
    state: State,
    bytes: &[u8],
    piece: usize,
) -> Result<(), StreamError>
    requires state { IsState auto state }
    requires piece { 0 < piece }
    ensures ok { OnOk result (SpellsAccepted auto state bytes.now) }
    ensures err { IfErr result (StopsAs auto state bytes.now) }
{
    let mut stream = Stream::new(alloc, auto, state)?;
    for next in bytes.chunks(piece) {
        stream.feed(next)?;
    }
    stream.finish()
}

/// The same, as an output.
fn stop_of(
    alloc: Global,
    auto: Auto,
    state: State,
    bytes: &[u8],
    piece: usize,
) -> Result<Output, NoMemory>
    requires state { IsState auto state }
    requires piece { 0 < piece }
    ensures { IfOk result (TellsStop (IsAccepted auto state) bytes.now) }
{
    match feed_all(alloc, auto, state, bytes, piece) {
        Ok(()) => Output::yes(alloc),
        Err(StreamError::Malformed(place)) => Output::malformed_document(alloc, place),
        Err(StreamError::Outside(place)) => Output::outside_type(alloc, place),
        Err(StreamError::NoMemory) => Err(NoMemory),
    }
}

/// The same of the bytes of this file.
fn stream_file<H: Shelf>(
    alloc: Global,
    auto: Auto,
    state: State,
    document: &str,
    piece: usize,
    shelf: &mut H,
) -> Result<Output, Stop>
    requires state { IsState auto state }
    requires piece { 0 < piece }
    ensures { DoesAll result (StreamsByState auto state (H.holds shelf.old) (HasRisen (H.faults shelf.old) (H.faults shelf.new)) document.now) }
{
    let bytes = load_bytes(alloc, document, shelf)?;
    Ok(stop_of(alloc, auto, state, &bytes, piece)?)
}

/// The same by the type of this name in the sound program.
fn stream_program<H: Shelf>(
    alloc: Global,
    sound: &mut SoundProgram,
    name: &str,
    document: &str,
    piece: usize,
    shelf: &mut H,
) -> Result<Output, Stop>
    requires { 0 < piece }
    ensures { DoesAll result (AnswersStream (H.holds shelf.old) (HasRisen (H.faults shelf.old) (H.faults shelf.new)) name.now document.now (program_tree sound.old)) }
{
    let Some(id) = sound.find_type(name)? else {
        return Ok(Output::undefined_type(alloc, name)?);
    };
    let (auto, state) = acceptor(alloc, sound, id)?;
    stream_file(alloc, auto, state, document, piece, shelf)
}

/// Whether the bytes of this file spell a document of the type of this name in the program of that
/// file, fed in pieces of this length; else where they stop.
pub fn stream<H: Shelf>(
    alloc: Global,
    file: &str,
    name: &str,
    document: &str,
    piece: u64,
    shelf: &mut H,
) -> Result<Output, Stop>
    requires { (1 ≤ piece) × (piece ≤ piece_limit) }
    ensures { DoesAll result (AnswersOn (H.holds shelf.old) (HasRisen (H.faults shelf.old) (H.faults shelf.new)) file.now (AnswersStream (H.holds shelf.old) (HasRisen (H.faults shelf.old) (H.faults shelf.new)) name.now document.now)) }
{
    let mut sound = load_program(alloc, file, shelf)?;
    stream_program(alloc, &mut sound, name, document, piece as usize, shelf)
}

//! The command `fits`.

ghost use Rattle.std.specs.Prelude.{IfOk};
ghost use Rattle.xd_auto.specs.Automaton.{IsState};
ghost use Rattle.xd_base.specs.Outside.{HasRisen};
ghost use Rattle.xd_doc.specs.Stored.{document_at};
ghost use Rattle.xd_doc.specs.StoredSeq.{BelongsTo};
ghost use Rattle.xd_syntax.specs.Kept.{program_tree};
ghost use Rattle.xd_command_documents.specs.FitsByState.{AnswersByState, TellsMembership};
ghost use Rattle.xd_command_documents.specs.Fits.{AnswersFits};
ghost use Rattle.xd_command_steps.specs.Programs.{AnswersOn};
ghost use Rattle.xd_command_steps.specs.DoneSteps.{DoesAll};

use crate::membership::{acceptor, accepts};
use std::alloc::Global;
use xd_auto::{Auto, State};
use xd_base::Shelf;
use xd_command_steps::{Output, Stop, load_document, load_program};
use xd_doc::{NoMemory, Seq, Store};
use xd_sound::SoundProgram;

/// Whether the state accepts the document.
fn membership(
    alloc: Global,
    auto: &Auto,
    state: State,
    store: &Store,
    seq: Seq,
) -> Result<Output, NoMemory>
    requires state { IsState auto.now state }
    requires seq { BelongsTo store.now seq }
    ensures { IfOk result (TellsMembership auto.now state (document_at store.now seq)) }
{
    if accepts(alloc, auto, state, store, seq)? {
        Output::yes(alloc)
    } else {
        Output::no(alloc)
    }
}

/// Whether the state accepts the document of this file, which is added to the store.
fn accepts_in<H: Shelf>(
    alloc: Global,
    auto: &Auto,
    state: State,
    document: &str,
    shelf: &mut H,
    store: &mut Store,
) -> Result<Output, Stop>
    requires { IsState auto.now state }
    ensures { DoesAll result (AnswersByState auto.now state (H.holds shelf.old) (HasRisen (H.faults shelf.old) (H.faults shelf.new)) document.now) }
{
    let seq = load_document(alloc, document, shelf, store)?;
    Ok(membership(alloc, auto, state, store, seq)?)
}

/// Whether the state accepts the document of this file.
fn accepts_file<H: Shelf>(
    alloc: Global,
    auto: &Auto,
    state: State,
    document: &str,
    shelf: &mut H,
) -> Result<Output, Stop>
    requires { IsState auto.now state }
    ensures { DoesAll result (AnswersByState auto.now state (H.holds shelf.old) (HasRisen (H.faults shelf.old) (H.faults shelf.new)) document.now) }
{
    let mut store = Store::new(alloc);
    accepts_in(alloc, auto, state, document, shelf, &mut store)
}

/// Whether the document of this file fits the type of this name in the sound program.
fn fits_program<H: Shelf>(
    alloc: Global,
    sound: &mut SoundProgram,
    name: &str,
    document: &str,
    shelf: &mut H,
) -> Result<Output, Stop>
    ensures { DoesAll result (AnswersFits (H.holds shelf.old) (HasRisen (H.faults shelf.old) (H.faults shelf.new)) name.now document.now (program_tree sound.old)) }
{
    let Some(id) = sound.find_type(name)? else {
        return Ok(Output::undefined_type(alloc, name)?);
    };
    let (auto, state) = acceptor(alloc, sound, id)?;
    accepts_file(alloc, &auto, state, document, shelf)
}

/// Whether the document of this file fits the type of this name in the program of that file.
pub fn fits<H: Shelf>(
    alloc: Global,
    file: &str,
    name: &str,
    document: &str,
    shelf: &mut H,
) -> Result<Output, Stop>
    ensures { DoesAll result (AnswersOn (H.holds shelf.old) (HasRisen (H.faults shelf.old) (H.faults shelf.new)) file.now (AnswersFits (H.holds shelf.old) (HasRisen (H.faults shelf.old) (H.faults shelf.new)) name.now document.now)) }
{
    let mut sound = load_program(alloc, file, shelf)?;
    fits_program(alloc, &mut sound, name, document, shelf)
}

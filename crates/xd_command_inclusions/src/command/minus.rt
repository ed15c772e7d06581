//! The command `minus`.

ghost use Rattle.std.specs.Prelude.{◌≡◌, ◌↔◌, true, IfOk};
ghost use Rattle.xd_auto.specs.Automaton.{IsState, accepts};
ghost use Rattle.xd_base.specs.Outside.{HasRisen};
ghost use Rattle.xd_doc.specs.Document.{Document};
ghost use Rattle.xd_syntax.specs.Kept.{program_tree};
ghost use Rattle.xd_syntax.specs.Program.{names_of};
ghost use Rattle.xd_syntax.specs.Types as types;
ghost use Rattle.xd_command_inclusions.specs.Minus.{AnswersDifference, AnswersMinus};
ghost use Rattle.xd_command_inclusions.specs.MinusAlone.{IsAlone};
ghost use Rattle.xd_command_steps.specs.Programs.{AnswersOn};
ghost use Rattle.xd_command_steps.specs.DoneSteps.{DoesAll};

use crate::command::subtype::named_types;
use std::alloc::Global;
use xd_auto::{Auto, State};
use xd_base::Shelf;
use xd_command_documents::acceptor;
use xd_command_steps::{Output, Stop, load_program};
use xd_doc::NoMemory;
use xd_show_blocks::{shown_text, type_names};
use xd_sound::SoundProgram;
use xd_syntax::TypeId;

/// A state that accepts exactly the documents that fit the first type and not the second.
fn difference(
    alloc: Global,
    sound: &mut SoundProgram,
    left: TypeId,
    right: TypeId,
) -> Result<(Auto, State), NoMemory>
    requires left { types.BelongsTo sound.old.types left }
    requires right { types.BelongsTo sound.old.types right }
    ensures belongs { IfOk result (λ made. IsState made.0 made.1) }
    ensures exact { IfOk result (λ made. (d : Document) → (accepts made.0 d made.1 ≡ true) ↔ IsAlone (names_of (program_tree sound.old)) (types.tree sound.old.types left) (types.tree sound.old.types right) d) }
    ensures same { program_tree sound.new ≡ program_tree sound.old }
{
    let (one, first) = acceptor(alloc, sound, left)?;
    let (two, second) = acceptor(alloc, sound, right)?;
    xd_points::minus(alloc, &one, first, &two, second)
}

/// Definitions of types that show the documents of the one type alone.
fn show_difference(
    alloc: Global,
    sound: &mut SoundProgram,
    left: TypeId,
    right: TypeId,
) -> Result<Output, NoMemory>
    requires left { types.BelongsTo sound.old.types left }
    requires right { types.BelongsTo sound.old.types right }
    ensures { IfOk result (AnswersDifference (program_tree sound.old) (types.tree sound.old.types left) (types.tree sound.old.types right)) }
{
    let taken = type_names(alloc, sound)?;
    let (auto, state) = difference(alloc, sound, left, right)?;
    let text = shown_text(alloc, &auto, state, &taken)?;
    Ok(Output::success(text))
}

/// Definitions of types that show the documents of the type of the one name alone.
fn minus_named(
    alloc: Global,
    sound: &mut SoundProgram,
    left: &str,
    right: &str,
) -> Result<Output, Stop>
    ensures { DoesAll result (AnswersMinus left.now right.now (program_tree sound.old)) }
{
    let (one, other) = named_types(alloc, sound, left, right)?;
    Ok(show_difference(alloc, sound, one, other)?)
}

/// Definitions of types that show the documents of the one type of the program of this file that
/// aren't of the other.
pub fn minus<H: Shelf>(
    alloc: Global,
    file: &str,
    left: &str,
    right: &str,
    shelf: &mut H,
) -> Result<Output, Stop>
    ensures { DoesAll result (AnswersOn (H.holds shelf.old) (HasRisen (H.faults shelf.old) (H.faults shelf.new)) file.now (AnswersMinus left.now right.now)) }
{
    let mut sound = load_program(alloc, file, shelf)?;
    minus_named(alloc, &mut sound, left, right)
}

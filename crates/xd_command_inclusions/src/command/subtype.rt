//! The command `subtype`.

ghost use Rattle.std.specs.Prelude.{◌≡◌, ◌<◌, length, IfOk};
ghost use Rattle.xd_base.specs.Outside.{HasRisen};
ghost use Rattle.xd_doc.specs.Stored.{document_at};
ghost use Rattle.xd_doc.specs.StoredSeq.{BelongsTo};
ghost use Rattle.xd_least.specs.Least.{size_limit};
ghost use Rattle.xd_syntax.specs.Kept.{program_tree};
ghost use Rattle.xd_syntax.specs.ShallowTables.{IsShallow};
ghost use Rattle.xd_syntax.specs.Types as types;
ghost use Rattle.xd_proof_make.specs.Made.{UsesDefined};
ghost use Rattle.xd_command_steps.specs.Output.{separated};
ghost use Rattle.xd_command_inclusions.specs.Subtype.{AnswersInclusion, AnswersSubtype, EndsAtNames};
ghost use Rattle.xd_command_inclusions.specs.Named.{AreNamed};
ghost use Rattle.xd_command_steps.specs.Programs.{AnswersOn};
ghost use Rattle.xd_command_steps.specs.DoneSteps.{DoesAll, DoesStep};

use std::alloc::Global;
use xd_base::Shelf;
use xd_command_steps::{Output, Stop, load_program};
use xd_doc::{NoMemory, Seq, Store};
use xd_inclusion::{Inclusion, compare_types};
use xd_sound::SoundProgram;
use xd_syntax::TypeId;

/// The types of both names; the command ends where one isn't defined.
pub fn named_types(
    alloc: Global,
    sound: &mut SoundProgram,
    left: &str,
    right: &str,
) -> Result<(TypeId, TypeId), Stop>
    ensures step { DoesStep result (EndsAtNames (program_tree sound.old) left.now right.now) (AreNamed (program_tree sound.old) sound.new.types left.now right.now) }
    ensures same { program_tree sound.new ≡ program_tree sound.old }
    ensures shallow { IsShallow sound.old.types → IsShallow sound.new.types }
{
    let one = sound.find_type(left)?;
    let other = sound.find_type(right)?;
    match (one, other) {
        (Some(one), Some(other)) => Ok((one, other)),
        (None, Some(_)) => Err(Stop::Refused(Output::undefined_type(alloc, left)?)),
        (Some(_), None) => Err(Stop::Refused(Output::undefined_type(alloc, right)?)),
        (None, None) => Err(Stop::Refused(Output::undefined_types(alloc, left, right)?)),
    }
}

/// A document that separates two types, written.
///
/// What is written has fewer than 2^63 items, since it stands in a vector; so a document that is
/// least up to that size is a least one.
fn separate(alloc: Global, store: &Store, document: Seq) -> Result<Output, NoMemory>
    requires { BelongsTo store.now document }
    ensures output { IfOk result (λ o. o ≡ separated (document_at store.now document)) }
    ensures size { IfOk result (λ o. length o.text < size_limit) }
{
    let output = Output::separated(alloc, store, document)?;
    let _text = output.text();
    Ok(output)
}

/// Whether every document of the one type is one of the other: a proof, or a least document of the
/// one alone.
fn compare(
    alloc: Global,
    sound: &mut SoundProgram,
    left: TypeId,
    right: TypeId,
) -> Result<Output, NoMemory>
    requires left { types.BelongsTo sound.old.types left }
    requires right { types.BelongsTo sound.old.types right }
    requires shallow { IsShallow sound.old.types }
    requires left_names { UsesDefined (program_tree sound.old) (types.tree sound.old.types left) }
    requires right_names { UsesDefined (program_tree sound.old) (types.tree sound.old.types right) }
    ensures { IfOk result (AnswersInclusion (program_tree sound.old) (types.tree sound.old.types left) (types.tree sound.old.types right)) }
{
    let mut store = Store::new(alloc);
    match compare_types(alloc, sound, left, right, &mut store)? {
        Inclusion::Proved(text) => Ok(Output::success(text)),
        Inclusion::Separated(document) => separate(alloc, &store, document),
    }
}

/// Whether every document of the one type of the program of this file is one of the other.
pub fn subtype<H: Shelf>(
    alloc: Global,
    file: &str,
    left: &str,
    right: &str,
    shelf: &mut H,
) -> Result<Output, Stop>
    ensures { DoesAll result (AnswersOn (H.holds shelf.old) (HasRisen (H.faults shelf.old) (H.faults shelf.new)) file.now (AnswersSubtype left.now right.now)) }
{
    let mut sound = load_program(alloc, file, shelf)?;
    compare_named(alloc, &mut sound, left, right)
}

/// Whether every document of the type of the one name is one of the other.
fn compare_named(
    alloc: Global,
    sound: &mut SoundProgram,
    left: &str,
    right: &str,
) -> Result<Output, Stop>
    requires { IsShallow sound.old.types }
    ensures { DoesAll result (AnswersSubtype left.now right.now (program_tree sound.old)) }
{
    let (one, other) = named_types(alloc, sound, left, right)?;
    Ok(compare(alloc, sound, one, other)?)
}

//! Continuations as types of the program.

ghost use Rattle.std.specs.Prelude.{◌≡◌, ◌<◌, ◌≤◌, false, length, map, IfOk};
ghost use Rattle.std.specs.List.{AllByRecursion};
ghost use Rattle.std.specs.Option.{IfNone, IfSome};
ghost use Rattle.xd_continuations.specs.Continuation.{IsContinuation};
ghost use Rattle.xd_syntax.specs.ShallowTables.{IsShallow};
ghost use Rattle.xd_syntax.specs.Shallow.{nesting_limit};
ghost use Rattle.xd_syntax.specs.SoundTables.{IsTypeAt};
ghost use Rattle.xd_syntax.specs.Table.{tree_at};
ghost use Rattle.xd_syntax.specs.Tree.{Plus, seq_of};
ghost use Rattle.xd_syntax.specs.TypeDepth.{depth};
ghost use Rattle.xd_syntax.specs.Types.{BelongsTo, tree, type_numbers};
ghost use Rattle.xd_moves.specs.Found.{AreOfTypes, continuation, is_plus};
ghost use Rattle.xd_moves.specs.Pieces.{piece_tree};
ghost use Rattle.xd_heads.specs.Growing.{GrowsTypes};

use std::alloc::Global;
use xd_doc::NoMemory;
use xd_moves::{Continuations, Piece};
use xd_sound::SoundProgram;
use xd_syntax::{TypeForm, TypeId, Types};

/// What a repetition of at least one turn repeats.
fn repeated(types: &Types, id: TypeId) -> Option<TypeId>
    requires { BelongsTo types.now id }
    ensures some { IfSome result (λ part. BelongsTo types.now part × (tree types.now id ≡ Plus (tree types.now part))) }
    ensures none { IfNone result (is_plus (tree types.now id) ≡ false) }
{
    match types.node(id).form() {
        TypeForm::Plus(part) => Some(*part),
        _ => None,
    }
}

/// A piece as a type. The star of a repetition is added.
fn piece_type(sound: &mut SoundProgram, piece: Piece) -> Result<TypeId, NoMemory>
    requires { piece.node < length sound.old.types }
    ensures ok { IfOk result (IsTypeAt sound.new.types (piece_tree sound.old.types piece)) }
    ensures grows { GrowsTypes sound.old sound.new }
{
    let id = TypeId::of(piece.node);
    if !piece.is_turns {
        return Ok(id);
    }
    match repeated(sound.program().types(), id) {
        Some(part) => sound.add_type(TypeForm::Star(part)),
        None => Ok(id),
    }
}

/// The pieces of a continuation as types.
fn piece_types(
    alloc: Global,
    sound: &mut SoundProgram,
    cells: &Continuations,
    number: usize,
) -> Result<Vec<TypeId>, NoMemory>
    requires nodes { AreOfTypes sound.old.types cells.now }
    requires number { number ≤ length cells.now }
    ensures trees { IfOk result (λ ids. map (tree_at sound.new.types) (type_numbers ids.items) ≡ continuation sound.old.types cells.now number) }
    ensures belong { IfOk result (λ ids. AllByRecursion (λ i. i < length sound.new.types) (type_numbers ids.items)) }
    ensures grows { GrowsTypes sound.old sound.new }
{
    let mut ids = Vec::new(alloc);
    let mut at = number;
    while at > 0 {
        let cell = cells.link(at);
        ids.push(piece_type(sound, cell.item)?)?;
        at = cell.behind;
    }
    Ok(ids)
}

/// A continuation as a type.
pub(crate) fn continuation_type(
    alloc: Global,
    sound: &mut SoundProgram,
    cells: &Continuations,
    number: usize,
) -> Result<TypeId, NoMemory>
    requires nodes { AreOfTypes sound.old.types cells.now }
    requires number { number ≤ length cells.now }
    requires pieces { IsContinuation (continuation sound.old.types cells.now number) }
    requires shallow { IsShallow sound.old.types → depth (seq_of (continuation sound.old.types cells.now number)) ≤ nesting_limit }
    ensures ok { IfOk result (IsTypeAt sound.new.types (seq_of (continuation sound.old.types cells.now number))) }
    ensures grows { GrowsTypes sound.old sound.new }
{
    let ids = piece_types(alloc, sound, cells, number)?;
    match ids.as_slice() {
        [] => sound.add_type(TypeForm::Empty),
        [only] => Ok(*only),
        _ => sound.add_type(TypeForm::Seq(ids)),
    }
}

//! Pieces as states, with all states that they lead to.

ghost use Rattle.std.specs.Prelude.{◌≡◌, [], length, IfOk, OnOk};
ghost use Rattle.std.specs.List.{AllByRecursion};
ghost use Rattle.xd_auto.specs.Automaton.{Extends, KeepsAccepting};
ghost use Rattle.xd_meaning.specs.KeptFaults.{AllPaired};
ghost use Rattle.xd_patterns.specs.Sources.{IsDefined, names_in, tables};
ghost use Rattle.xd_patterns.specs.Compiling.{Spares, marking, rows_in};
ghost use Rattle.xd_patterns.specs.Starting.{AddsStarts, CanStart, IsPieceState, pattern_piece, type_piece};
ghost use Rattle.xd_patterns.specs.Tasks.{AreBinders};

use crate::chains::{Cells, Marks, Piece};
use crate::compile::{Lists, StateMarks, compile, state_of};
use crate::sources::Sources;
use indexmap::IndexSet;
use std::alloc::Global;
use xd_auto::{Auto, State};
use xd_doc::NoMemory;
use xd_syntax::{PatternId, TypeId};

/// A type outside of all binders.
pub(crate) fn piece_of_type(id: TypeId) -> Piece
    ensures { result ≡ type_piece id }
{
    Piece {
        of_pattern: false,
        node: id.at(),
        from: 0,
        is_turns: false,
        marks: 0,
    }
}

/// A pattern outside of all binders.
pub(crate) fn piece_of_pattern(id: PatternId) -> Piece
    ensures { result ≡ pattern_piece id }
{
    Piece {
        of_pattern: true,
        node: id.at(),
        from: 0,
        is_turns: false,
        marks: 0,
    }
}

/// A state for each piece alone, in their order; none of them has moves yet. Pieces that are the
/// same have one state.
#[tactic(auto, using(crate::proofs::SparesLemmas::spares_none, crate::proofs::SparesLemmas::spares_then))]
fn add_starts(
    alloc: Global,
    pieces: &[Piece],
    base: usize,
    cells: &mut Cells,
    states: &mut IndexSet<usize>,
    auto: &mut Auto,
) -> Result<Vec<State>, NoMemory>
    requires base { length auto.old ≡ base }
    requires cells { cells.old ≡ [] }
    requires states { states.old.keys ≡ [] }
    ensures spares { Spares base auto.old auto.new }
    ensures starts { IfOk result (λ starts. AddsStarts base pieces.now cells.new states.new.keys auto.old auto.new starts.items) }
{
    let mut starts = Vec::new(alloc);
    for piece in pieces {
        let number = cells.put(*piece, 0)?;
        let start = state_of(number, base, states, auto)?;
        starts.push(start)?;
    }
    Ok(starts)
}

/// The same with these lists of pieces and lists that have states, none of them at first.
fn compile_from(
    sources: &Sources<'_>,
    pieces: &[Piece],
    lists: &mut Lists,
    marks: &mut Marks,
    auto: &mut Auto,
) -> Result<(Vec<State>, Vec<StateMarks>), NoMemory>
    requires sound { IsDefined sources.now }
    requires fresh { marks.old ≡ [] }
    requires cells { lists.old.cells ≡ [] }
    requires states { lists.old.states.keys ≡ [] }
    requires pieces { AllByRecursion (CanStart (tables sources.now)) pieces.now }
    ensures extends { Extends auto.old auto.new }
    ensures keeps { KeepsAccepting auto.old auto.new }
    ensures binders { OnOk result (AreBinders (tables sources.now) marks.new) }
    ensures states { IfOk result (λ made. AllPaired (IsPieceState (names_in sources.now) (tables sources.now) auto.new
        (marking (tables sources.now) marks.new (length auto.old) (rows_in made.1.items))) pieces.now made.0.items) }
{
    let base = auto.len();
    let starts = add_starts(
        lists.alloc,
        pieces,
        base,
        &mut lists.cells,
        &mut lists.states,
        auto,
    )?;
    let table = compile(sources, base, lists, marks, auto)?;
    Ok((starts, table))
}

/// Adds a state for each of these pieces, which stand outside of all binders, with all states that
/// they lead to: the states in the order of the pieces, and for each state that was added the lists
/// of the variables of its moves.
///
/// What stands ahead has one state, however many of the pieces lead to it.
pub(crate) fn compile_pieces(
    alloc: Global,
    sources: &Sources<'_>,
    pieces: &[Piece],
    marks: &mut Marks,
    auto: &mut Auto,
) -> Result<(Vec<State>, Vec<StateMarks>), NoMemory>
    requires sound { IsDefined sources.now }
    requires fresh { marks.old ≡ [] }
    requires pieces { AllByRecursion (CanStart (tables sources.now)) pieces.now }
    ensures extends { Extends auto.old auto.new }
    ensures keeps { KeepsAccepting auto.old auto.new }
    ensures binders { OnOk result (AreBinders (tables sources.now) marks.new) }
    ensures states { IfOk result (λ made. AllPaired (IsPieceState (names_in sources.now) (tables sources.now) auto.new
        (marking (tables sources.now) marks.new (length auto.old) (rows_in made.1.items))) pieces.now made.0.items) }
{
    let mut lists = Lists {
        alloc,
        cells: Cells::new(alloc),
        states: IndexSet::new(alloc),
    };
    compile_from(sources, pieces, &mut lists, marks, auto)
}

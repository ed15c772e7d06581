//! What can come next, in order of preference.

ghost use Rattle.std.specs.Prelude.{◌≡◌, true, IfOk, ◌<◌, ◌≤◌, ◌∷◌, [], false, length, OnOk, Option, Some, None};
ghost use Rattle.xd_continuations.specs.Bodies.{AreBodies, node_of};
ghost use Rattle.xd_continuations.specs.Chains.{list_at};
ghost use Rattle.xd_pattern_runs.specs.Steps.{Ahead};
ghost use Rattle.xd_patterns.specs.Pieces.{IsPieceOf, Sees};
ghost use Rattle.xd_patterns.specs.Tasks.{rows_of, IsPiece, PushesPart, PushesRow, PushesBody, IsBound, HasFound, IsStep, ArePieces, StandsFor};
ghost use Rattle.xd_patterns.specs.Sources.{IsDefined, names_in, tables};
ghost use Rattle.xd_patterns.specs.Expanding.{ends_turn, Enters, IsExpanded, IsVisited, AreFound};

use crate::chains::{Cells, Marks, Piece};
use crate::pieces::{View, view_node};
use crate::sources::Sources;
use indexmap::IndexSet;
use std::alloc::Global;
use xd_continuations::Link;
use xd_doc::{Label, NoMemory};

/// A list of pieces that stands ahead; in a turn of a repetition, the list that stands after the
/// turn.
#[derive(Clone, Copy, PartialEq, Eq, Hash)]
pub(crate) struct Task {
    pub cell: usize,
    pub turn: Option<usize>,
}

/// What can come next: nothing, or an item of the piece, and what stands ahead after it.
#[derive(Clone, Copy, PartialEq, Eq, Hash)]
pub(crate) struct Found {
    pub is_stop: bool,
    pub piece: Piece,
    pub rest: usize,
}

/// The tasks that wait, and what was found.
#[derive(Drop)]
struct Expansion {
    tasks: Vec<Task>,
    found: IndexSet<Found>,
}

/// One more task: a piece before the list of a task.
fn push_part(
    piece: Piece,
    rest: Task,
    cells: &mut Cells,
    tasks: &mut Vec<Task>,
) -> Result<(), NoMemory>
    requires { rest.cell ≤ length cells.old }
    ensures { OnOk result (PushesPart cells.old cells.new tasks.old.items tasks.new.items piece rest.cell rest.turn) }
{
    let cell = cells.put(piece, rest.cell)?;
    let turn = rest.turn;
    tasks.push(Task { cell, turn })?;
    Ok(())
}

/// One more task: two pieces before the list of a task.
fn push_row(
    first: Piece,
    second: Piece,
    rest: Task,
    cells: &mut Cells,
    tasks: &mut Vec<Task>,
) -> Result<(), NoMemory>
    requires { rest.cell ≤ length cells.old }
    ensures { OnOk result (PushesRow cells.old cells.new tasks.old.items tasks.new.items first second rest.cell rest.turn) }
{
    let cell = cells.put(second, rest.cell)?;
    let turn = rest.turn;
    push_part(first, Task { cell, turn }, cells, tasks)?;
    Ok(())
}

/// One more task: what a name stands for, before the list of a task.
fn push_body(
    sources: &Sources<'_>,
    name: &Label,
    like: Piece,
    rest: Task,
    cells: &mut Cells,
    tasks: &mut Vec<Task>,
) -> Result<(), NoMemory>
    requires rest { rest.cell ≤ length cells.old }
    requires bodies { AreBodies sources.now.types.now sources.now.defs.now sources.now.bodies.now }
    ensures { OnOk result (PushesBody (node_of sources.now.defs.now sources.now.bodies.now.any name.now) cells.old cells.new tasks.old.items tasks.new.items like.marks rest.cell rest.turn) }
{
    if let Some(node) = sources.bodies.find(sources.defs, name) {
        let piece = Piece {
            of_pattern: false,
            node,
            from: 0,
            is_turns: false,
            marks: like.marks,
        };
        push_part(piece, rest, cells, tasks)?;
    }
    Ok(())
}

/// What a binder has, with its variable among the marks.
fn bind(binder: Piece, part: Piece, marks: &mut Marks) -> Result<Piece, NoMemory>
    requires { binder.marks ≤ length marks.old }
    ensures { IfOk result (IsBound marks.old marks.new binder part) }
{
    let number = marks.put(binder.node, binder.marks)?;
    Ok(Piece {
        marks: number,
        ..part
    })
}

/// What was found is kept where it stands first.
fn keep(item: Found, found: &mut IndexSet<Found>) -> Result<(), NoMemory>
    ensures { OnOk result (HasFound found.old.keys item found.new.keys) }
{
    found.insert_full(item)?;
    Ok(())
}

/// One step: what the first piece of a list finds itself, and the tasks that it leaves.
fn step_view(
    sources: &Sources<'_>,
    view: View<'_>,
    first: Link<Piece>,
    task: Task,
    cells: &mut Cells,
    marks: &mut Marks,
    expansion: &mut Expansion,
) -> Result<(), NoMemory>
    requires sees { Sees (rows_of (tables sources.now) first.item.of_pattern) first.item view }
    requires piece { IsPiece (tables sources.now) marks.old first.item }
    requires cell { task.cell ≤ length cells.old }
    requires behind { first.behind ≤ length cells.old }
    requires list { list_at cells.old task.cell ≡ first.item ∷ list_at cells.old first.behind }
    requires bodies { AreBodies sources.now.types.now sources.now.defs.now sources.now.bodies.now }
    ensures { OnOk result (IsStep (tables sources.now) (names_in sources.now) marks.old marks.new cells.old cells.new expansion.old.tasks.items expansion.new.tasks.items expansion.old.found.keys expansion.new.found.keys first.item first.behind task.turn) }
{
    let _nodes = sources.types.len();
    let _others = sources.patterns.len();
    let rest = Task {
        cell: first.behind,
        turn: task.turn,
    };
    match view {
        View::Empty => {
            expansion.tasks.push(rest)?;
            Ok(())
        }
        View::Text => keep_item(first, &mut expansion.found),
        View::Words(_) => keep_item(first, &mut expansion.found),
        View::Elem(_, _) => keep_item(first, &mut expansion.found),
        View::Name(name) => push_body(sources, name, first.item, rest, cells, &mut expansion.tasks),
        View::Seq(part, others) => push_row(part, others, rest, cells, &mut expansion.tasks),
        View::Plus(part, turns) => push_row(part, turns, rest, cells, &mut expansion.tasks),
        View::Alt(part, others) => {
            push_part(others, rest, cells, &mut expansion.tasks)?;
            push_part(part, rest, cells, &mut expansion.tasks)
        }
        View::Star(part) => {
            let turns = Task {
                cell: task.cell,
                turn: Some(task.cell),
            };
            expansion.tasks.push(rest)?;
            push_part(part, turns, cells, &mut expansion.tasks)
        }
        View::Opt(part) => {
            expansion.tasks.push(rest)?;
            push_part(part, rest, cells, &mut expansion.tasks)
        }
        View::Val(part) => {
            let bound = bind(first.item, part, marks)?;
            push_part(bound, rest, cells, &mut expansion.tasks)
        }
    }
}

/// The item of the first piece of a list, with what stands after it.
fn keep_item(first: Link<Piece>, found: &mut IndexSet<Found>) -> Result<(), NoMemory>
    ensures { OnOk result (HasFound found.old.keys (record { is_stop = false; piece = first.item; rest = first.behind }) found.new.keys) }
{
    let item = Found {
        is_stop: false,
        piece: first.item,
        rest: first.behind,
    };
    keep(item, found)
}

/// What a piece of either table is.
pub(crate) fn view<'a>(sources: &Sources<'a>, piece: Piece) -> View<'a>
    requires { IsPieceOf (rows_of (tables sources.now) piece.of_pattern) piece }
    ensures { Sees (rows_of (tables sources.now) piece.of_pattern) piece result }
{
    if piece.of_pattern {
        view_node(sources.patterns, piece)
    } else {
        view_node(sources.types, piece)
    }
}

/// Whether the task is at the end of a turn, where nothing was taken in it.
fn is_ended(task: Task) -> bool
    ensures { result ≡ ends_turn task.turn task.cell }
{
    match task.turn {
        Some(end) => end == task.cell,
        None => false,
    }
}

/// What can come next where nothing stands ahead.
fn stop() -> Found
    ensures { result ≡ record { is_stop = true; piece = record { of_pattern = false; node = 0; from = 0; is_turns = false; marks = 0 }; rest = 0 } }
{
    let piece = Piece {
        of_pattern: false,
        node: 0,
        from: 0,
        is_turns: false,
        marks: 0,
    };
    Found {
        is_stop: true,
        piece,
        rest: 0,
    }
}

/// One step of a task.
fn step(
    sources: &Sources<'_>,
    task: Task,
    cells: &mut Cells,
    marks: &mut Marks,
    expansion: &mut Expansion,
) -> Result<(), NoMemory>
    requires sound { IsDefined sources.now }
    requires pieces { ArePieces (tables sources.now) marks.old cells.old }
    requires task { task.cell ≤ length cells.old }
    ensures { OnOk result ((a : Ahead) → StandsFor (tables sources.now) marks.old cells.old task a →
        IsExpanded (names_in sources.now) (tables sources.now) marks.old marks.new cells.old cells.new expansion.old.tasks.items expansion.new.tasks.items expansion.old.found.keys expansion.new.found.keys a) }
{
    let _count = cells.len();
    if is_ended(task) {
        return Ok(());
    }
    if task.cell == 0 {
        keep(stop(), &mut expansion.found)?;
        return Ok(());
    }
    let first = cells.link(task.cell);
    let seen = view(sources, first.item);
    step_view(sources, seen, first, task, cells, marks, expansion)?;
    Ok(())
}

/// Whether a task comes for the first time.
fn is_first(task: Task, seen: &mut IndexSet<Task>) -> Result<bool, NoMemory>
    ensures { IfOk result (Enters seen.old.keys task seen.new.keys) }
{
    let (_, is_new) = seen.insert_full(task)?;
    Ok(is_new)
}

/// One step of a task, where it comes for the first time.
///
/// When a task comes again, all that it finds was found: it takes more steps than any task that it
/// leads to, so it can't come among these.
fn visit(
    sources: &Sources<'_>,
    task: Task,
    cells: &mut Cells,
    marks: &mut Marks,
    expansion: &mut Expansion,
    seen: &mut IndexSet<Task>,
) -> Result<(), NoMemory>
    requires sound { IsDefined sources.now }
    requires pieces { ArePieces (tables sources.now) marks.old cells.old }
    requires task { task.cell ≤ length cells.old }
    ensures { OnOk result (IsVisited (names_in sources.now) (tables sources.now) marks.old marks.new cells.old cells.new expansion.old.tasks.items expansion.new.tasks.items expansion.old.found.keys expansion.new.found.keys seen.old.keys seen.new.keys task) }
{
    let is_new = is_first(task, seen)?;
    if !is_new {
        return Ok(());
    }
    step(sources, task, cells, marks, expansion)?;
    Ok(())
}

/// Goes through the tasks that begin with a list of pieces, one after another, until none is left.
/// None was `seen` before.
fn expand_all(
    sources: &Sources<'_>,
    number: usize,
    cells: &mut Cells,
    marks: &mut Marks,
    expansion: &mut Expansion,
    seen: &mut IndexSet<Task>,
) -> Result<(), NoMemory>
    requires sound { IsDefined sources.now }
    requires pieces { ArePieces (tables sources.now) marks.old cells.old }
    requires number { number ≤ length cells.old }
    requires none_waiting { expansion.old.tasks.items ≡ [] }
    requires none_found { expansion.old.found.keys ≡ [] }
    requires none_seen { seen.old.keys ≡ [] }
    ensures { OnOk result (AreFound (names_in sources.now) (tables sources.now) marks.old marks.new cells.old cells.new number expansion.new.found.keys) }
{
    expansion.tasks.push(Task {
        cell: number,
        turn: None,
    })?;
    while let Some(task) = expansion.tasks.pop() {
        visit(sources, task, cells, marks, expansion, seen)?;
    }
    Ok(())
}

/// All that can come next in a list of pieces, each once, in order of preference.
///
/// A part of a pattern that comes again in the same place with the same marks, as by a name in two
/// alternatives, is gone through once.
pub(crate) fn expand(
    alloc: Global,
    sources: &Sources<'_>,
    cells: &mut Cells,
    marks: &mut Marks,
    number: usize,
) -> Result<IndexSet<Found>, NoMemory>
    requires sound { IsDefined sources.now }
    requires pieces { ArePieces (tables sources.now) marks.old cells.old }
    requires number { number ≤ length cells.old }
    ensures { IfOk result (λ found. AreFound (names_in sources.now) (tables sources.now) marks.old marks.new cells.old cells.new number found.keys) }
{
    let mut expansion = Expansion {
        tasks: Vec::new(alloc),
        found: IndexSet::new(alloc),
    };
    let mut seen = IndexSet::new(alloc);
    expand_all(sources, number, cells, marks, &mut expansion, &mut seen)?;
    Ok(expansion.found)
}

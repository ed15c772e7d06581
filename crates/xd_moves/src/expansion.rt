//! The moves of a continuation, by a stack of tasks.

ghost use Rattle.std.specs.Prelude.{◌≡◌, ◌<◌, ◌≤◌, ◌++◌, ◌∷◌, [], List, false, true, length, map, IfOk, OnOk};
ghost use Rattle.std.specs.List.{AllByRecursion};
ghost use Rattle.xd_laws.specs.Guarded.{Guarded};
ghost use Rattle.xd_syntax.specs.Table.{PartsBelow, Row, form_tree, tree_at};
ghost use Rattle.xd_syntax.specs.Tree.{Star, body};
ghost use Rattle.xd_syntax.specs.Types.{form_of, type_numbers};
ghost use Rattle.xd_meaning.specs.CanBeEmpty.{can_be_empty};
ghost use Rattle.xd_continuations.specs.Bodies.{AreBodies};
ghost use Rattle.xd_continuations.specs.Expansion.{definition_task, task, tasks_of};
ghost use Rattle.xd_sound.specs.TypeNames.{meanings};
ghost use Rattle.xd_moves.specs.Cells.{Cell, StayChosen};
ghost use Rattle.xd_moves.specs.Pieces.{piece_tree};
ghost use Rattle.xd_moves.specs.Found.{AddsCells, AreDecidingMarks, AreMovesOf, AreOfTypes, Finds, IsTask, IsWorkedOff, PutsSequence, PutsTasks, StayBounded, continuation, form_moves, form_put, form_tasks, is_plus, move_of, waiting_at};

use crate::cells::{Cell, Continuations};
use crate::piece::Piece;
use crate::sources::Sources;
use crate::stand_ins::StandIns;
use std::alloc::Global;
use xd_continuations::Link;
use xd_doc::{Label, NoMemory};
use xd_syntax::{TypeForm, TypeId, Types};

/// An element or a text that a document can begin with, and the number of the continuation after
/// it.
#[derive(Clone, Copy)]
pub struct Found {
    pub node: usize,
    pub rest: usize,
}

/// The node itself.
fn whole(part: TypeId) -> Piece
    ensures { result ≡ record { node = part.at; is_turns = false } }
{
    Piece {
        node: part.at(),
        is_turns: false,
    }
}

/// Puts the task of one part on the others.
fn push_part(part: TypeId, behind: usize, tasks: &mut Vec<Cell>) -> Result<(), NoMemory>
    ensures { OnOk result (tasks.new.items ≡ tasks.old.items ++ record { item = record { node = part.at; is_turns = false }; behind = behind } ∷ []) }
{
    tasks.push(Link {
        item: whole(part),
        behind,
    })?;
    Ok(())
}

/// Puts the tasks of an alternative on the others: each part.
fn push_options(parts: &[TypeId], behind: usize, tasks: &mut Vec<Cell>) -> Result<(), NoMemory>
    ensures { OnOk result ((types : List Row) (cells : List Cell) → AllByRecursion (λ i. i < length types) (type_numbers parts.now) → behind ≤ length cells →
        PutsTasks types cells tasks.old.items tasks.new.items (map (task (continuation types cells behind)) (map (tree_at types) (type_numbers parts.now)))) }
{
    for at in (0..parts.len()).rev() {
        push_part(parts[at], behind, tasks)?;
    }
    Ok(())
}

/// Puts the task of what a name stands for on the others.
fn push_body(
    sources: &Sources<'_>,
    name: &Label,
    behind: usize,
    tasks: &mut Vec<Cell>,
) -> Result<(), NoMemory>
    requires { AreBodies sources.now.types.now sources.now.defs.now sources.now.bodies.now }
    ensures { OnOk result ((cells : List Cell) → behind ≤ length cells →
        PutsTasks sources.now.types.now cells tasks.old.items tasks.new.items (definition_task (body (meanings sources.now.types.now sources.now.defs.now) name.now) (continuation sources.now.types.now cells behind))) }
{
    if let Some(node) = sources.bodies.find(sources.defs, name) {
        push_part(TypeId::of(node), behind, tasks)?;
    }
    Ok(())
}

/// An element or a text was found.
fn push_found(task: Cell, found: &mut Vec<Found>) -> Result<(), NoMemory>
    ensures { OnOk result (found.new.items ≡ found.old.items ++ record { node = task.item.node; rest = task.behind } ∷ []) }
{
    found.push(Found {
        node: task.item.node,
        rest: task.behind,
    })?;
    Ok(())
}

/// Puts the tasks of a repetition on the others: one turn, and more turns after it.
fn push_turn<S: StandIns>(
    types: &Types,
    part: TypeId,
    turns: Piece,
    behind: usize,
    cells: &mut Continuations,
    stand_ins: &S,
    tasks: &mut Vec<Cell>,
) -> Result<(), NoMemory>
    requires part { part.at < length types.now }
    requires turns { turns.node < length types.now }
    requires star { piece_tree types.now turns ≡ Star (tree_at types.now part.at) }
    requires behind { behind ≤ length cells.old }
    requires serve { S.serve types.now stand_ins.now }
    ensures cells { OnOk result (AddsCells types.now cells.old cells.new) }
    ensures bounded { OnOk result (StayBounded types.now cells.old cells.new (Star (tree_at types.now part.at) ∷ continuation types.now cells.old behind)) }
    ensures tasks { OnOk result (PutsTasks types.now cells.new tasks.old.items tasks.new.items (task (Star (tree_at types.now part.at) ∷ continuation types.now cells.old behind) (tree_at types.now part.at) ∷ [])) }
    ensures chosen { OnOk result (StayChosen (S.chosen types.now stand_ins.now) cells.old cells.new) }
{
    let rest = cells.put(stand_ins.stand_in(types, turns), behind)?;
    push_part(part, rest, tasks)?;
    Ok(())
}

/// Puts the tasks of a sequence on the others: each part, with the parts after it after it, as
/// long as those before it can be empty.
fn push_sequence<S: StandIns>(
    types: &Types,
    marks: &[bool],
    parts: &[TypeId],
    behind: usize,
    cells: &mut Continuations,
    stand_ins: &S,
    tasks: &mut Vec<Cell>,
) -> Result<(), NoMemory>
    requires parts { AllByRecursion (λ i. i < length types.now) (type_numbers parts.now) }
    requires marks { length marks.now ≡ length types.now }
    requires behind { behind ≤ length cells.old }
    requires serve { S.serve types.now stand_ins.now }
    ensures cells { OnOk result (AddsCells types.now cells.old cells.new) }
    ensures bounded { OnOk result (StayBounded types.now cells.old cells.new (map (tree_at types.now) (type_numbers parts.now) ++ continuation types.now cells.old behind)) }
    ensures tasks { OnOk result (PutsSequence types.now marks.now cells.new tasks.old.items tasks.new.items (type_numbers parts.now) (continuation types.now cells.old behind)) }
    ensures chosen { OnOk result (StayChosen (S.chosen types.now stand_ins.now) cells.old cells.new) }
{
    let _count = types.len();
    let others = tasks.len();
    cells.reserve(parts.len())?;
    let mut rest = behind;
    for at in (0..parts.len()).rev() {
        let part = whole(parts[at]);
        if !marks[part.node] {
            tasks.truncate(others);
        }
        tasks.push(Link {
            item: part,
            behind: rest,
        })?;
        rest = cells.put(stand_ins.stand_in(types, part), rest)?;
    }
    Ok(())
}

/// The star of the repetition that the node is.
fn turns(node: usize) -> Piece
    ensures { result ≡ record { node = node; is_turns = true } }
{
    Piece {
        node,
        is_turns: true,
    }
}

/// Works off a task, where its node has this form.
fn work_form<S: StandIns>(
    sources: &Sources<'_>,
    form: &TypeForm,
    task: Cell,
    cells: &mut Continuations,
    stand_ins: &S,
    tasks: &mut Vec<Cell>,
    found: &mut Vec<Found>,
) -> Result<(), NoMemory>
    requires bodies { AreBodies sources.now.types.now sources.now.defs.now sources.now.bodies.now }
    requires marks { length sources.now.marks.now ≡ length sources.now.types.now }
    requires task { IsTask sources.now.types.now cells.old task }
    requires tree { tree_at sources.now.types.now task.item.node ≡ form_tree (tree_at sources.now.types.now) (form_of form.now) }
    requires parts { PartsBelow (length sources.now.types.now) (form_of form.now) }
    requires serve { S.serve sources.now.types.now stand_ins.now }
    ensures cells { OnOk result (AddsCells sources.now.types.now cells.old cells.new) }
    ensures bounded { OnOk result (StayBounded sources.now.types.now cells.old cells.new (form_put sources.now.types.now (form_of form.now) (continuation sources.now.types.now cells.old task.behind))) }
    ensures tasks { OnOk result (PutsTasks sources.now.types.now cells.new tasks.old.items tasks.new.items (form_tasks sources.now.types.now sources.now.defs.now sources.now.marks.now (form_of form.now) (continuation sources.now.types.now cells.old task.behind))) }
    ensures moves { OnOk result (Finds sources.now.types.now cells.new found.old.items found.new.items (form_moves sources.now.types.now task.item.node (form_of form.now) (continuation sources.now.types.now cells.old task.behind))) }
    ensures chosen { OnOk result (StayChosen (S.chosen sources.now.types.now stand_ins.now) cells.old cells.new) }
{
    let types = sources.types;
    let Link { item, behind } = task;
    match form {
        TypeForm::Empty => Ok(()),
        TypeForm::Text => push_found(task, found),
        TypeForm::Words(_) => push_found(task, found),
        TypeForm::Name(name) => push_body(sources, name, behind, tasks),
        TypeForm::Elem(_, _) => push_found(task, found),
        TypeForm::Seq(parts) => {
            push_sequence(types, sources.marks, parts, behind, cells, stand_ins, tasks)
        }
        TypeForm::Alt(parts) => push_options(parts, behind, tasks),
        TypeForm::Star(part) => push_turn(types, *part, item, behind, cells, stand_ins, tasks),
        TypeForm::Plus(part) => {
            let turns = turns(item.node);
            push_turn(types, *part, turns, behind, cells, stand_ins, tasks)
        }
        TypeForm::Opt(part) => push_part(*part, behind, tasks),
    }
}

/// Works off a task: finds what it gives itself, and puts the tasks that it leaves on the others.
fn work_off<S: StandIns>(
    sources: &Sources<'_>,
    task: Cell,
    cells: &mut Continuations,
    stand_ins: &S,
    tasks: &mut Vec<Cell>,
    found: &mut Vec<Found>,
) -> Result<(), NoMemory>
    requires bodies { AreBodies sources.now.types.now sources.now.defs.now sources.now.bodies.now }
    requires marks { AreDecidingMarks sources.now.types.now sources.now.defs.now sources.now.marks.now }
    requires task { IsTask sources.now.types.now cells.old task }
    requires serve { S.serve sources.now.types.now stand_ins.now }
    ensures worked { OnOk result (IsWorkedOff sources.now.types.now sources.now.defs.now cells.old cells.new task tasks.old.items tasks.new.items found.old.items found.new.items) }
    ensures chosen { OnOk result (StayChosen (S.chosen sources.now.types.now stand_ins.now) cells.old cells.new) }
{
    let node = sources.types.node(TypeId::of(task.item.node));
    let form = node.form();
    work_form(sources, form, task, cells, stand_ins, tasks, found)?;
    Ok(())
}

/// Whether the node is a repetition of at least one turn.
fn is_plus(types: &Types, node: usize) -> bool
    requires { node < length types.now }
    ensures { result ≡ is_plus (tree_at types.now node) }
{
    let node = types.node(TypeId::of(node));
    match node.form() {
        TypeForm::Plus(_) => true,
        _ => false,
    }
}

/// Whether a piece can be empty.
pub fn is_empty(sources: &Sources<'_>, piece: Piece) -> bool
    requires marks { AreDecidingMarks sources.now.types.now sources.now.defs.now sources.now.marks.now }
    requires piece { piece.node < length sources.now.types.now }
    ensures { result ≡ can_be_empty (meanings sources.now.types.now sources.now.defs.now) (piece_tree sources.now.types.now piece) }
{
    if piece.is_turns && is_plus(sources.types, piece.node) {
        return true;
    }
    sources.marks[piece.node]
}

/// The tasks of a continuation, the first of them last.
fn first_tasks(
    alloc: Global,
    sources: &Sources<'_>,
    cells: &Continuations,
    number: usize,
) -> Result<Vec<Cell>, NoMemory>
    requires marks { AreDecidingMarks sources.now.types.now sources.now.defs.now sources.now.marks.now }
    requires nodes { AreOfTypes sources.now.types.now cells.now }
    requires number { number ≤ length cells.now }
    ensures stand { IfOk result (λ tasks. AllByRecursion (IsTask sources.now.types.now cells.now) tasks.items) }
    ensures same { IfOk result (λ tasks. waiting_at sources.now.types.now cells.now tasks.items ≡ tasks_of (meanings sources.now.types.now sources.now.defs.now) (continuation sources.now.types.now cells.now number)) }
{
    let mut tasks = Vec::new(alloc);
    let mut at = number;
    while at > 0 {
        let cell = cells.link(at);
        tasks.push(cell)?;
        at = if is_empty(sources, cell.item) {
            cell.behind
        } else {
            0
        };
    }
    tasks.reverse();
    Ok(tasks)
}

/// The moves of a continuation, in order, repetitions kept. Fails only where memory is refused;
/// then nothing is known of the cells any more.
pub fn expand<S: StandIns>(
    alloc: Global,
    sources: &Sources<'_>,
    cells: &mut Continuations,
    stand_ins: &S,
    number: usize,
) -> Result<Vec<Found>, NoMemory>
    requires guarded { Guarded (meanings sources.now.types.now sources.now.defs.now) }
    requires bodies { AreBodies sources.now.types.now sources.now.defs.now sources.now.bodies.now }
    requires marks { AreDecidingMarks sources.now.types.now sources.now.defs.now sources.now.marks.now }
    requires nodes { AreOfTypes sources.now.types.now cells.old }
    requires number { number ≤ length cells.old }
    requires serve { S.serve sources.now.types.now stand_ins.now }
    ensures moves { IfOk result (λ found. AreMovesOf sources.now.types.now sources.now.defs.now cells.old cells.new number found.items) }
    ensures chosen { OnOk result (StayChosen (S.chosen sources.now.types.now stand_ins.now) cells.old cells.new) }
{
    let mut tasks = first_tasks(alloc, sources, cells, number)?;
    let mut found = Vec::new(alloc);
    while let Some(task) = tasks.pop() {
        work_off(sources, task, cells, stand_ins, &mut tasks, &mut found)?;
    }
    Ok(found)
}

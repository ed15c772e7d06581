//! Calls about one type.

ghost use Rattle.std.specs.Prelude.{◌≡◌, ◌<◌, length};
ghost use Rattle.xd_auto.specs.Automaton.{IsState};
ghost use Rattle.xd_heads.specs.HeadList.{HeadBelongs};
ghost use Rattle.xd_heads.specs.Mirrors.{IsTypeState, Mirrors};
ghost use Rattle.xd_sound.specs.Emptiness.{AreEmptyMarks};
ghost use Rattle.xd_sound.specs.TypeNames.{AreNumbered};
ghost use Rattle.xd_syntax.specs.Kept.{program_tree};
ghost use Rattle.xd_syntax.specs.RecursionFaults.{IsSound};
ghost use Rattle.xd_syntax.specs.Table.{tree_at};
ghost use Rattle.xd_syntax.specs.Tree.{any_type};
ghost use Rattle.xd_syntax.specs.Types.{BelongsTo};

use std::alloc::Global;
use std::io::Write;
use xd_auto::{Auto, State};
use xd_calls_lines::{Call, CallError, show_answer, show_class, show_words};
use xd_calls_programs::{state_of, type_of};
use xd_continuations::{TypeBodies, meaning_of_any};
use xd_doc::Store;
use xd_empty::inhabitant;
use xd_heads::{Cells, Head, HeadKind, HeadLister, compile_type, heads};
use xd_moves::{Continuations, Sources, Themselves, content, expand};
use xd_sound::{KnownTypes, SoundProgram};
use xd_syntax::{Program, TypeId, Types};
use xd_type_text::type_text;
use xd_write::write_document;

/// What is shown of a type.
#[derive(Clone, Copy)]
pub enum TypeShown {
    /// A line for each of its heads: its class, its content in brackets, and its rest.
    Heads,
    /// A line for each of them: its class, and whether its content and its rest are the same type.
    Numbered,
    /// A line for each of them: whether it is an element or a text.
    Sorts,
    /// How many moves its continuation has.
    Moves,
    /// What its state stands for.
    State,
}

/// `heads TYPE`, `numbered TYPE`, `sorts TYPE`, `moves TYPE`, `state_type TYPE`.
pub fn show_type(call: &Call<'_>, shown: TypeShown, out: &mut Vec<u8>) -> Result<(), CallError> {
    let (mut sound, id) = type_of(call, 0)?;
    show_type_of(call.alloc, shown, &mut sound, id, out)
}

fn show_type_of(
    alloc: Global,
    shown: TypeShown,
    sound: &mut SoundProgram,
    id: TypeId,
    out: &mut Vec<u8>,
) -> Result<(), CallError>
    requires { BelongsTo sound.old.types id }
{
    match shown {
        TypeShown::Heads => show_heads_of(alloc, sound, id, out),
        TypeShown::Numbered => show_numbered_of(alloc, sound, id, out),
        TypeShown::Moves => show_moves_of(alloc, sound, id, out),
        TypeShown::Sorts | TypeShown::State => show_state_of(alloc, shown, sound, id, out),
    }
}

fn show_heads_of(
    alloc: Global,
    sound: &mut SoundProgram,
    id: TypeId,
    out: &mut Vec<u8>,
) -> Result<(), CallError>
    requires { BelongsTo sound.old.types id }
{
    let found = heads(alloc, sound, id)?;
    let types = sound.program().types();
    for head in &found {
        show_head(alloc, types, head, out)?;
    }
    Ok(())
}

fn show_numbered_of(
    alloc: Global,
    sound: &mut SoundProgram,
    id: TypeId,
    out: &mut Vec<u8>,
) -> Result<(), CallError>
    requires { BelongsTo sound.old.types id }
{
    let mut lister = HeadLister::new(alloc, sound)?;
    for head in &lister.heads(sound.program(), id)? {
        show_kind(&head.kind, out)?;
        out.push(b' ')?;
        show_answer(head.content == head.rest, out)?;
    }
    Ok(())
}

fn show_moves_of(
    alloc: Global,
    sound: &mut SoundProgram,
    id: TypeId,
    out: &mut Vec<u8>,
) -> Result<(), CallError>
    requires { BelongsTo sound.old.types id }
{
    let any = meaning_of_any(alloc, sound)?;
    let KnownTypes { names, empty_marks } = sound.take_known()?;
    let bodies = TypeBodies {
        names,
        any: any.at(),
    };
    let count = count_moves(alloc, sound.program(), &bodies, &empty_marks, id)?;
    writeln!(out, "{count} moves")?;
    Ok(())
}

/// How many moves a type of the program has, whose names stand for these nodes, where the marks say
/// which nodes can be empty.
fn count_moves(
    alloc: Global,
    program: &Program,
    bodies: &TypeBodies,
    marks: &[bool],
    id: TypeId,
) -> Result<usize, CallError>
    requires sound { IsSound (program_tree program.now) }
    requires numbered { AreNumbered bodies.now.names program.now.type_defs }
    requires any { bodies.now.any < length program.now.types }
    requires any_type { tree_at program.now.types bodies.now.any ≡ any_type }
    requires marks { AreEmptyMarks program.now.types program.now.type_defs marks.now }
    requires belongs { BelongsTo program.now.types id }
{
    let types = program.types();
    types.see_table();
    let mut cells = Continuations::new(alloc);
    let number = content(types, id, &mut cells, &Themselves)?;
    let sources = Sources {
        types,
        defs: program.type_defs(),
        bodies,
        marks,
    };
    let found = expand(alloc, &sources, &mut cells, &Themselves, number)?;
    Ok(found.len())
}

fn show_kind(kind: &HeadKind, out: &mut Vec<u8>) -> Result<(), CallError> {
    match kind {
        HeadKind::Label(class) => show_class(class, out),
        HeadKind::Text(words) => show_words(words, out),
    }
}

fn show_head(alloc: Global, types: &Types, head: &Head, out: &mut Vec<u8>) -> Result<(), CallError>
    requires { HeadBelongs types.now head.now }
{
    show_kind(&head.kind, out)?;
    out.push(b'[')?;
    type_text(alloc, types, head.content, out)?;
    out.extend_from_slice(b"] then ")?;
    type_text(alloc, types, head.rest, out)?;
    out.push(b'\n')?;
    Ok(())
}

fn show_state_of(
    alloc: Global,
    shown: TypeShown,
    sound: &mut SoundProgram,
    id: TypeId,
    out: &mut Vec<u8>,
) -> Result<(), CallError>
    requires { BelongsTo sound.old.types id }
{
    let mut cells = Cells::new(alloc);
    let mut auto = Auto::new(alloc);
    show_compiled(alloc, shown, sound, &mut cells, &mut auto, id, out)
}

fn show_compiled(
    alloc: Global,
    shown: TypeShown,
    sound: &mut SoundProgram,
    cells: &mut Cells,
    auto: &mut Auto,
    id: TypeId,
    out: &mut Vec<u8>,
) -> Result<(), CallError>
    requires belongs { BelongsTo sound.old.types id }
    requires mirrors { Mirrors sound.old cells.old auto.old }
{
    let state = compile_type(alloc, sound, cells, auto, id)?;
    match shown {
        TypeShown::Sorts => show_sorts(sound, cells, auto, state, out),
        _ => show_state(alloc, sound, cells, auto, state, out),
    }
}

/// Which heads of a state's type are elements, and which are texts.
fn show_sorts(
    sound: &SoundProgram,
    cells: &Cells,
    auto: &Auto,
    state: State,
    out: &mut Vec<u8>,
) -> Result<(), CallError>
    requires mirrors { Mirrors sound.now cells.now auto.now }
    requires state { IsTypeState cells.now state }
{
    let _states = auto.len();
    for is_text in cells.sorts(state) {
        let sort = if *is_text { "text" } else { "element" };
        writeln!(out, "{sort}")?;
    }
    Ok(())
}

/// What a state stands for.
fn show_state(
    alloc: Global,
    sound: &mut SoundProgram,
    cells: &Cells,
    auto: &Auto,
    state: State,
    out: &mut Vec<u8>,
) -> Result<(), CallError>
    requires mirrors { Mirrors sound.old cells.now auto.now }
    requires state { IsTypeState cells.now state }
{
    let _states = auto.len();
    let id = cells.state_type(sound, state)?;
    type_text(alloc, sound.program().types(), id, out)?;
    Ok(())
}

/// `inhabitant TYPE`: a document of the type's state, or `none`.
pub fn show_inhabitant(call: &Call<'_>, out: &mut Vec<u8>) -> Result<(), CallError> {
    let (auto, state) = state_of(call, 0)?;
    let mut store = Store::new(call.alloc);
    show_inhabitant_of(call.alloc, &auto, state, &mut store, out)
}

fn show_inhabitant_of(
    alloc: Global,
    auto: &Auto,
    state: State,
    store: &mut Store,
    out: &mut Vec<u8>,
) -> Result<(), CallError>
    requires { IsState auto.now state }
{
    match inhabitant(alloc, auto, state, store)? {
        Some(seq) => write_document(alloc, store, seq, out)?,
        None => out.extend_from_slice(b"none\n")?,
    }
    Ok(())
}

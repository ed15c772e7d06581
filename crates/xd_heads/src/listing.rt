//! The heads of a type.

ghost use Rattle.std.specs.Prelude.{◌≡◌, ◌<◌, ◌≤◌, [], length, map, IfOk, OnOk};
ghost use Rattle.std.specs.List.{AllByRecursion};
ghost use Rattle.xd_meaning.specs.Heads.{heads, pieces};
ghost use Rattle.xd_continuations.specs.Continuation.{IsContinuation, head_of as head_of_move};
ghost use Rattle.xd_sound.specs.Emptiness.{AreEmptyMarks};
ghost use Rattle.xd_syntax.specs.Kept.{AddsTypes, program_tree};
ghost use Rattle.xd_syntax.specs.Program.{names_of};
ghost use Rattle.xd_syntax.specs.RecursionFaults.{IsSound};
ghost use Rattle.xd_syntax.specs.ShallowTables.{IsShallow};
ghost use Rattle.xd_syntax.specs.Shallow.{nesting_limit};
ghost use Rattle.xd_syntax.specs.SoundTables.{IsTypeAt};
ghost use Rattle.xd_syntax.specs.Table.{tree_at};
ghost use Rattle.xd_syntax.specs.Tree.{any_type, seq_of};
ghost use Rattle.xd_sound.specs.TypeNames.{AreNumbered};
ghost use Rattle.xd_syntax.specs.TypeDepth.{depth};
ghost use Rattle.xd_syntax.specs.Types.{BelongsTo, tree};
ghost use Rattle.xd_syntax.specs.declared.types.TypeId.{TypeId};
ghost use Rattle.xd_moves.specs.Cells.{StayChosen};
ghost use Rattle.xd_moves.specs.Found.{AreOfTypes, continuation, move_at};
ghost use Rattle.xd_heads.specs.Growing.{GrowsTypes};
ghost use Rattle.xd_heads.specs.HeadList.{AreHeadsFound, AreRestTypes, ContentBelongs, HeadBelongs, IsHeadAt, IsHeadFound, IsKindOf, content_at, head_at};

use crate::compile::every_text;
use crate::typed::continuation_type;
use std::alloc::Global;
use std::collections::HashMap;
use xd_continuations::{TypeBodies, meaning_of_any};
use xd_doc::{Class, NoMemory, Words};
use xd_moves::{Continuations, Found, Sources, StandIns, Themselves, content, expand};
use xd_sound::{KnownTypes, SoundProgram};
use xd_syntax::{Program, TypeForm, TypeId, Types};

/// What the first item of a document is: an element whose label is in the class, or a text that is
/// in the class.
#[derive(Drop)]
pub enum HeadKind {
    /// An element, whose label is in this class.
    Label(Class),
    /// A text, which is in this class.
    Text(Words),
}

/// How documents that fit a type begin: what the first item is, what stands in it, and what follows
/// it. The content of a text is the empty type.
#[derive(Drop)]
pub struct Head {
    pub kind: HeadKind,
    pub content: TypeId,
    pub rest: TypeId,
}

/// The heads of a type, in order, repetitions kept (after Hosoya, Vouillon and Pierce, TOPLAS
/// 2005).
///
/// Contents and rests are types of the program; types are added to it for them, one for each rest.
/// It does no recursion, over names or over the parts of a sequence. Which types can be empty is
/// found once for a program, and not anew in each call. After `NoMemory` the program has more types
/// at most.
pub fn heads(alloc: Global, sound: &mut SoundProgram, id: TypeId) -> Result<Vec<Head>, NoMemory>
    requires { BelongsTo sound.old.types id }
    ensures heads { IfOk result (λ found. map (head_at sound.new.types) found.items ≡ heads (names_of (program_tree sound.old)) (tree sound.old.types id)) }
    ensures belong { IfOk result (λ found. AllByRecursion (HeadBelongs sound.new.types) found.items) }
    ensures adds { AddsTypes sound.old sound.new }
    ensures same { program_tree sound.new ≡ program_tree sound.old }
    ensures shallow { IsShallow sound.old.types → IsShallow sound.new.types }
{
    let any = meaning_of_any(alloc, sound)?;
    let KnownTypes { names, empty_marks } = sound.take_known()?;
    let bodies = TypeBodies {
        names,
        any: any.at(),
    };
    let (cells, found) = find_heads(alloc, sound.program(), &bodies, &empty_marks, id)?;
    let TypeBodies { names, any: _ } = bodies;
    sound.give_back(KnownTypes { names, empty_marks });
    let mut rests = HashMap::new(alloc);
    let made = list_heads(alloc, sound, &cells, &mut rests, &found)?;
    Ok(made)
}

/// The moves of a type that are its heads, and the cells of their rests.
fn find_heads(
    alloc: Global,
    program: &Program,
    bodies: &TypeBodies,
    marks: &[bool],
    id: TypeId,
) -> Result<(Continuations, Vec<Found>), NoMemory>
    requires sound { IsSound (program_tree program.now) }
    requires numbered { AreNumbered bodies.now.names program.now.type_defs }
    requires any { bodies.now.any < length program.now.types }
    requires any_type { tree_at program.now.types bodies.now.any ≡ any_type }
    requires marks { AreEmptyMarks program.now.types program.now.type_defs marks.now }
    requires belongs { BelongsTo program.now.types id }
    ensures { IfOk result (λ made. AreHeadsFound program.now (tree program.now.types id) [] made.0 made.1.items) }
{
    let types = program.types();
    types.see_table();
    let mut cells = Continuations::new(alloc);
    let number = content(types, id, &mut cells, &Themselves)?;
    let found = find_moves(
        alloc,
        program,
        bodies,
        marks,
        number,
        &mut cells,
        &Themselves,
    )?;
    Ok((cells, found))
}

/// Those of each type whose pieces are the continuation with this number.
pub(crate) fn find_moves<S: StandIns>(
    alloc: Global,
    program: &Program,
    bodies: &TypeBodies,
    marks: &[bool],
    number: usize,
    cells: &mut Continuations,
    stand_ins: &S,
) -> Result<Vec<Found>, NoMemory>
    requires sound { IsSound (program_tree program.now) }
    requires numbered { AreNumbered bodies.now.names program.now.type_defs }
    requires any { bodies.now.any < length program.now.types }
    requires any_type { tree_at program.now.types bodies.now.any ≡ any_type }
    requires marks { AreEmptyMarks program.now.types program.now.type_defs marks.now }
    requires nodes { AreOfTypes program.now.types cells.old }
    requires number { number ≤ length cells.old }
    requires serve { S.serve program.now.types stand_ins.now }
    ensures found { IfOk result (λ found. (id : TypeId) → BelongsTo program.now.types id → continuation program.now.types cells.old number ≡ pieces (tree program.now.types id) →
        AreHeadsFound program.now (tree program.now.types id) cells.old cells.new found.items) }
    ensures chosen { OnOk result (StayChosen (S.chosen program.now.types stand_ins.now) cells.old cells.new) }
{
    let types = program.types();
    types.see_table();
    let sources = Sources {
        types,
        defs: program.type_defs(),
        bodies,
        marks,
    };
    let found = expand(alloc, &sources, cells, stand_ins, number)?;
    Ok(found)
}

/// What kind of head a node is, and its content, if it is an element.
pub(crate) fn kind_of(
    alloc: Global,
    types: &Types,
    node: usize,
) -> Result<(HeadKind, Option<TypeId>), NoMemory>
    requires { node < length types.now }
    ensures { IfOk result (IsKindOf types.now (tree_at types.now node)) }
{
    match types.node(TypeId::of(node)).form() {
        TypeForm::Elem(class, part) => Ok((HeadKind::Label(class.share()?), Some(*part))),
        TypeForm::Words(words) => Ok((HeadKind::Text(words.share()?), None)),
        _ => Ok((HeadKind::Text(every_text(alloc)?), None)),
    }
}

/// A rest as a type, which is added to the program only where none was made for it before.
fn rest_type(
    alloc: Global,
    sound: &mut SoundProgram,
    cells: &Continuations,
    rests: &mut HashMap<usize, TypeId>,
    number: usize,
) -> Result<TypeId, NoMemory>
    requires nodes { AreOfTypes sound.old.types cells.now }
    requires rests { AreRestTypes sound.old.types cells.now rests.old }
    requires number { number ≤ length cells.now }
    requires pieces { IsContinuation (continuation sound.old.types cells.now number) }
    requires shallow { IsShallow sound.old.types → depth (seq_of (continuation sound.old.types cells.now number)) ≤ nesting_limit }
    ensures ok { IfOk result (IsTypeAt sound.new.types (seq_of (continuation sound.old.types cells.now number))) }
    ensures rests { OnOk result (AreRestTypes sound.new.types cells.now rests.new) }
    ensures grows { GrowsTypes sound.old sound.new }
{
    if let Some(id) = rests.get(&number) {
        return Ok(*id);
    }
    let id = continuation_type(alloc, sound, cells, number)?;
    rests.insert(number, id)?;
    Ok(id)
}

/// A content as a type: the empty type, which is an empty rest too, where there is none.
fn content_type(
    alloc: Global,
    sound: &mut SoundProgram,
    cells: &Continuations,
    rests: &mut HashMap<usize, TypeId>,
    inside: Option<TypeId>,
) -> Result<TypeId, NoMemory>
    requires nodes { AreOfTypes sound.old.types cells.now }
    requires rests { AreRestTypes sound.old.types cells.now rests.old }
    requires inside { ContentBelongs sound.old.types inside }
    ensures ok { IfOk result (IsTypeAt sound.new.types (content_at sound.old.types inside)) }
    ensures rests { OnOk result (AreRestTypes sound.new.types cells.now rests.new) }
    ensures grows { GrowsTypes sound.old sound.new }
{
    match inside {
        Some(part) => Ok(part),
        None => {
            let rest = rest_type(alloc, sound, cells, rests, 0)?;
            Ok(rest)
        }
    }
}

/// A head that was found, with its content and its rest as types.
fn head_of(
    alloc: Global,
    sound: &mut SoundProgram,
    cells: &Continuations,
    rests: &mut HashMap<usize, TypeId>,
    found: Found,
) -> Result<Head, NoMemory>
    requires nodes { AreOfTypes sound.old.types cells.now }
    requires rests { AreRestTypes sound.old.types cells.now rests.old }
    requires found { IsHeadFound sound.old cells.now found }
    ensures ok { IfOk result (IsHeadAt sound.new.types (move_at sound.old.types cells.now found)) }
    ensures rests { OnOk result (AreRestTypes sound.new.types cells.now rests.new) }
    ensures grows { GrowsTypes sound.old sound.new }
{
    let (kind, inside) = kind_of(alloc, sound.program().types(), found.node)?;
    let rest = rest_type(alloc, sound, cells, rests, found.rest)?;
    let content = content_type(alloc, sound, cells, rests, inside)?;
    Ok(Head {
        kind,
        content,
        rest,
    })
}

/// All heads that were found, in order.
fn list_heads(
    alloc: Global,
    sound: &mut SoundProgram,
    cells: &Continuations,
    rests: &mut HashMap<usize, TypeId>,
    found: &[Found],
) -> Result<Vec<Head>, NoMemory>
    requires nodes { AreOfTypes sound.old.types cells.now }
    requires rests { AreRestTypes sound.old.types cells.now rests.old }
    requires found { AllByRecursion (IsHeadFound sound.old cells.now) found.now }
    ensures heads { IfOk result (λ made. map (head_at sound.new.types) made.items ≡ map head_of_move (map (move_at sound.old.types cells.now) found.now)) }
    ensures belong { IfOk result (λ made. AllByRecursion (HeadBelongs sound.new.types) made.items) }
    ensures rests { OnOk result (AreRestTypes sound.new.types cells.now rests.new) }
    ensures grows { GrowsTypes sound.old sound.new }
{
    let mut made = Vec::with_capacity(alloc, found.len())?;
    for one in found {
        made.push(head_of(alloc, sound, cells, rests, *one)?)?;
    }
    Ok(made)
}

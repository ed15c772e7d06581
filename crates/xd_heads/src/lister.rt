//! Heads of types, with their contents and rests by numbers.

ghost use Rattle.std.specs.Prelude.{◌≡◌, ◌<◌, [], length, map, IfOk, OnOk};
ghost use Rattle.std.specs.List.{AllByRecursion, AllZip};
ghost use Rattle.xd_continuations.specs.Continuation.{head_of as head_of_move};
ghost use Rattle.xd_meaning.specs.Heads.{heads};
ghost use Rattle.xd_moves.specs.Pieces.{AreFirst, IsFirst};
ghost use Rattle.xd_syntax.specs.Kept.{AddsTypes, ProgramTable, program_tree};
ghost use Rattle.xd_syntax.specs.Program.{names_of};
ghost use Rattle.xd_syntax.specs.ShallowTables.{IsShallow};
ghost use Rattle.xd_syntax.specs.Types.{BelongsTo, tree};
ghost use Rattle.xd_moves.specs.Cells.{AreChosen};
ghost use Rattle.xd_moves.specs.Found.{AreOfTypes, move_at};
ghost use Rattle.xd_heads.specs.HeadList.{AreHeadsFound, IsHeadFound};
ghost use Rattle.xd_heads.specs.Numbered.{AreNodeNumbers, IsHeadIn, KeepsNumbers, NumbersStay, NumbersTell, Serves};

use crate::listing::{HeadKind, find_moves, kind_of};
use std::alloc::Global;
use xd_continuations::{TypeBodies, meaning_of_any};
use xd_doc::NoMemory;
use xd_moves::{Continuations, FirstPieces, Found, content};
use xd_sound::{KnownTypes, SoundProgram};
use xd_syntax::{Program, TypeId, Types};

/// How documents that fit a type begin: what the first item is, what stands in it, and what follows
/// it. Content and rest are given by the numbers that a `HeadLister` has for them.
#[derive(Drop)]
pub struct NumberedHead {
    pub kind: HeadKind,
    pub content: usize,
    pub rest: usize,
}

/// Lists the heads of types of one program, one type after the other, and numbers types: equal
/// types have one number.
///
/// A number is that of a continuation, a list of pieces that is kept once, as a piece and an older
/// continuation. So the rests of a long sequence cost no more than the sequence, and no type is
/// added to the program for them. After `NoMemory` a lister has no use.
#[derive(Drop)]
pub struct HeadLister {
    alloc: Global,
    bodies: TypeBodies,
    empty_marks: Vec<bool>,
    firsts: FirstPieces,
    cells: Continuations,
    /// The number of each node of the program.
    numbers: Vec<usize>,
}

/// The numbers of all nodes of a table, in order.
fn number_nodes(
    alloc: Global,
    types: &Types,
    firsts: &FirstPieces,
    cells: &mut Continuations,
) -> Result<Vec<usize>, NoMemory>
    requires firsts { AreFirst types.now firsts.now }
    requires none { cells.old ≡ [] }
    ensures count { IfOk result (λ numbers. length numbers.items ≡ length types.now) }
    ensures numbers { IfOk result (λ numbers. AreNodeNumbers types.now cells.new (length types.now) numbers.items) }
    ensures nodes { OnOk result (AreOfTypes types.now cells.new) }
    ensures chosen { OnOk result (AreChosen (IsFirst types.now firsts.now) cells.new) }
{
    types.see_table();
    let mut numbers = Vec::with_capacity(alloc, types.len())?;
    for at in 0..types.len() {
        numbers.push(content(types, TypeId::of(at), cells, firsts)?)?;
    }
    Ok(numbers)
}

impl HeadLister {
    /// One for the types that the program has now. What `Any` stands for is added to it, and stays
    /// there after `NoMemory`, too.
    pub fn new(alloc: Global, sound: &mut SoundProgram) -> Result<Self, NoMemory>
        ensures serves { IfOk result (Serves sound.new) }
        ensures adds { AddsTypes sound.old sound.new }
        ensures same { program_tree sound.new ≡ program_tree sound.old }
        ensures shallow { IsShallow sound.old.types → IsShallow sound.new.types }
    {
        let any = meaning_of_any(alloc, sound)?;
        let types = sound.program().types();
        let firsts = FirstPieces::new(alloc, types)?;
        let mut cells = Continuations::new(alloc);
        let numbers = number_nodes(alloc, types, &firsts, &mut cells)?;
        let KnownTypes { names, empty_marks } = sound.take_known()?;
        Ok(Self {
            alloc,
            bodies: TypeBodies {
                names,
                any: any.at(),
            },
            empty_marks,
            firsts,
            cells,
            numbers,
        })
    }

    /// The number of each node of the program, as it was when the lister was made.
    pub fn numbers(&self) -> &[usize]
        ensures { result.now ≡ self.now.numbers.items }
    {
        &self.numbers
    }

    /// Whether each of these nodes can be empty.
    pub fn empty_marks(&self) -> &[bool]
        ensures { result.now ≡ self.now.empty_marks.items }
    {
        &self.empty_marks
    }

    /// No type has a greater number so far.
    pub fn bound(&self) -> usize
        ensures { result ≡ length self.now.cells }
    {
        self.cells.len()
    }

    /// The heads of a type, in order, repetitions kept (after Hosoya, Vouillon and Pierce, TOPLAS
    /// 2005).
    ///
    /// The program is the one that the lister was made of, with the types that it had then. The
    /// lister does no recursion, over names or over the parts of a sequence. After `NoMemory`
    /// nothing is known of it any more.
    pub fn heads(&mut self, program: &Program, id: TypeId) -> Result<Vec<NumberedHead>, NoMemory>
        requires belongs { BelongsTo program.now.types id }
        requires serves { Serves program.now self.old }
        ensures heads { IfOk result (λ found. AllZip (IsHeadIn program.now.types self.new.cells) found.items (heads (names_of (program_tree program.now)) (tree program.now.types id))) }
        ensures serves { OnOk result (Serves program.now self.new) }
        ensures keeps { OnOk result (KeepsNumbers self.old self.new) }
    {
        let found = self.find(program, id)?;
        let made = self.list(program.types(), &found)?;
        Ok(made)
    }

    /// The moves of a type that are its heads.
    fn find(&mut self, program: &Program, id: TypeId) -> Result<Vec<Found>, NoMemory>
        requires belongs { BelongsTo program.now.types id }
        requires serves { Serves program.now self.old }
        ensures found { IfOk result (λ found. AreHeadsFound program.now (tree program.now.types id) self.old.cells self.new.cells found.items) }
        ensures serves { OnOk result (Serves program.now self.new) }
        ensures keeps { OnOk result (KeepsNumbers self.old self.new) }
    {
        let number = self.numbers[id.at()];
        let found = find_moves(
            self.alloc,
            program,
            &self.bodies,
            &self.empty_marks,
            number,
            &mut self.cells,
            &self.firsts,
        )?;
        let _count = self.cells.len();
        Ok(found)
    }

    /// Heads that were found, in order.
    fn list(&self, types: &Types, found: &[Found]) -> Result<Vec<NumberedHead>, NoMemory>
        requires serves { (p : ProgramTable) × (p.types ≡ types.now) × Serves p self.now × AllByRecursion (IsHeadFound p self.now.cells) found.now }
        ensures { IfOk result (λ made. AllZip (IsHeadIn types.now self.now.cells) made.items (map head_of_move (map (move_at types.now self.now.cells) found.now))) }
    {
        let mut made = Vec::with_capacity(self.alloc, found.len())?;
        for one in found {
            made.push(self.head_of(types, *one)?)?;
        }
        Ok(made)
    }

    /// A head that was found.
    fn head_of(&self, types: &Types, found: Found) -> Result<NumberedHead, NoMemory>
        requires serves { (p : ProgramTable) × (p.types ≡ types.now) × Serves p self.now × IsHeadFound p self.now.cells found }
        ensures { IfOk result (λ made. IsHeadIn types.now self.now.cells made (head_of_move (move_at types.now self.now.cells found))) }
    {
        let (kind, inside) = kind_of(self.alloc, types, found.node)?;
        let content = match inside {
            Some(part) => self.numbers[part.at()],
            None => 0,
        };
        Ok(NumberedHead {
            kind,
            content,
            rest: found.rest,
        })
    }

    /// What was known of the program goes back to it.
    pub fn give_back(self, sound: &mut SoundProgram)
        requires { Serves sound.old self }
        ensures { sound.new ≡ sound.old }
    {
        let TypeBodies { names, any: _ } = self.bodies;
        sound.give_back(KnownTypes {
            names,
            empty_marks: self.empty_marks,
        });
    }
}

/// Equal types have one number and types of one number are equal, and types keep their numbers.
pub fn numbers_tell()
    ensures tell { NumbersTell }
    ensures stay { NumbersStay }
{}

//! Equal pieces, and the first of them.

ghost use Rattle.std.specs.Prelude.{◌≡◌, ◌+◌, ◌<◌, false, true, List, length, IfOk, OnOk};
ghost use Rattle.xd_syntax.specs.Table.{AreBuilt, PartsBelow, Row};
ghost use Rattle.xd_syntax.specs.Types.{form_of};
ghost use Rattle.xd_moves.specs.Codes.{form_code, number_at, turn_form};
ghost use Rattle.xd_moves.specs.Lists.{HasNumber, KeepsLists};
ghost use Rattle.xd_moves.specs.Numbered.{AddsFirst, AreNumberedBy};
ghost use Rattle.xd_moves.specs.Pieces.{AreFirst, first_piece};

use crate::codes::{code_of, star_code};
use crate::lists::Lists;
use crate::piece::Piece;
use std::alloc::Global;
use xd_doc::NoMemory;
use xd_syntax::{TypeForm, TypeId, Types};

/// For each piece of a table of types one of the same type, the first: two pieces are of equal
/// types exactly where these are the same.
#[derive(Drop)]
pub struct FirstPieces {
    /// A number for each node, one for equal types.
    numbers: Vec<usize>,
    /// The number of the star of the repetition that a node is, or that of the node.
    turns: Vec<usize>,
    /// The first piece of each number.
    firsts: Vec<Piece>,
}

/// The number of a piece by its code. Where no piece before it has the code it is the first of that
/// number.
fn number_piece(
    firsts: &mut Vec<Piece>,
    lists: &mut Lists,
    code: Vec<usize>,
    piece: Piece,
) -> Result<usize, NoMemory>
    requires { length firsts.old.items ≡ length lists.old }
    ensures number { IfOk result (HasNumber lists.new code.items) }
    ensures keeps { KeepsLists lists.old lists.new }
    ensures adds { IfOk result (AddsFirst firsts.old.items firsts.new.items (length lists.new) piece) }
{
    let number = lists.number(code)?;
    if number == firsts.len() {
        firsts.push(piece)?;
    }
    Ok(number)
}

/// The number of the star of the repetition that a node is, or else that of the node itself.
fn number_turns(
    alloc: Global,
    form: &TypeForm,
    numbers: &[usize],
    at: usize,
    number: usize,
    firsts: &mut Vec<Piece>,
    lists: &mut Lists,
) -> Result<usize, NoMemory>
    requires parts { PartsBelow (length numbers.now) (form_of form.now) }
    requires number { HasNumber lists.old (form_code (number_at numbers.now) (form_of form.now)) number }
    requires count { length firsts.old.items ≡ length lists.old }
    ensures number { IfOk result (HasNumber lists.new (form_code (number_at numbers.now) (turn_form (form_of form.now)))) }
    ensures keeps { KeepsLists lists.old lists.new }
    ensures adds { IfOk result (AddsFirst firsts.old.items firsts.new.items (length lists.new) (record { node = at; is_turns = true })) }
{
    match form {
        TypeForm::Plus(part) => {
            let code = star_code(alloc, numbers[part.at()])?;
            let turns = Piece {
                node: at,
                is_turns: true,
            };
            Ok(number_piece(firsts, lists, code, turns)?)
        }
        _ => Ok(number),
    }
}

impl FirstPieces {
    /// Those of a table. `NoMemory` where there is no room for them.
    pub fn new(alloc: Global, types: &Types) -> Result<Self, NoMemory>
        ensures { IfOk result (AreFirst types.now) }
    {
        types.see_table();
        let mut lists = Lists::new(alloc);
        let mut made = Self {
            numbers: Vec::new(alloc),
            turns: Vec::new(alloc),
            firsts: Vec::new(alloc),
        };
        for at in 0..types.len() {
            made.add(alloc, types, at, &mut lists)?;
        }
        let _count = lists.len();
        Ok(made)
    }

    /// The next node gets its number, and so does the star of the repetition that it is.
    fn add(
        &mut self,
        alloc: Global,
        types: &Types,
        at: usize,
        lists: &mut Lists,
    ) -> Result<(), NoMemory>
        requires built { AreBuilt false types.now }
        requires there { at < length types.now }
        requires numbered { AreNumberedBy types.now at lists.old self.old }
        ensures { OnOk result (AreNumberedBy types.now (at + 1) lists.new self.new) }
    {
        let form = types.node(TypeId::of(at)).form();
        let code = code_of(alloc, form, &self.numbers)?;
        let whole = Piece {
            node: at,
            is_turns: false,
        };
        let number = number_piece(&mut self.firsts, lists, code, whole)?;
        let star = number_turns(
            alloc,
            form,
            &self.numbers,
            at,
            number,
            &mut self.firsts,
            lists,
        )?;
        self.numbers.push(number)?;
        self.turns.push(star)?;
        Ok(())
    }

    /// The piece that stands for all of this one's type.
    pub fn of(&self, piece: Piece) -> Piece
        requires there { (types : List Row) × AreFirst types self.now × (piece.node < length types) }
        ensures { result ≡ first_piece self.now piece }
    {
        let number = if piece.is_turns {
            self.turns[piece.node]
        } else {
            self.numbers[piece.node]
        };
        self.firsts[number]
    }
}

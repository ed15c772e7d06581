//! The path of a walk over a choice tree.

ghost use Rattle.std.specs.Prelude.{◌≡◌, ◌+◌, ◌<◌, ◌^◌, [], ◌∷◌, ℕ, List, length, slice_index, IfOk, OnOk};
ghost use Rattle.xd_proof_check.specs.Paths.{AreCounts, AreMarks, HasRoom, IsClear, IsPath, KeepsRoom, turned, turns_of};

use std::alloc::Global;
use xd_doc::NoMemory;

/// A right head that is split on, by its position, and whether it is on the rest side.
#[derive(Clone, Copy)]
pub(crate) struct Turn {
    pub right: usize,
    pub on_rest: bool,
}

/// The splits above a place of a choice tree, the newest last. Beside them stands how often each
/// type is a content on the content side and a rest on the rest side, by its number, and how often
/// each right head is split on.
#[derive(Drop)]
pub(crate) struct Path {
    pub turns: Vec<Turn>,
    pub content: Vec<usize>,
    pub rest: Vec<usize>,
    pub split: Vec<usize>,
}

/// One more of a number.
fn count(counts: &mut Vec<usize>, number: usize)
    requires within { number < length counts.old.items }
    requires room { slice_index counts.old.items number + 1 < 2 ^ 64 }
    ensures counts { (ns : List ℕ) → AreCounts counts.old.items ns → AreCounts counts.new.items (number ∷ ns) }
    ensures len { length counts.new.items ≡ length counts.old.items }
{
    counts[number] += 1;
}

/// One less.
fn uncount(counts: &mut Vec<usize>, number: usize)
    requires within { number < length counts.old.items }
    requires some { 0 < slice_index counts.old.items number }
    ensures counts { (ns : List ℕ) → AreCounts counts.old.items (number ∷ ns) → AreCounts counts.new.items ns }
    ensures len { length counts.new.items ≡ length counts.old.items }
{
    counts[number] -= 1;
}

/// Counts of nothing, up to this number at least.
fn lengthen(counts: &mut Vec<usize>, most: usize) -> Result<(), NoMemory>
    requires { AreCounts counts.old.items [] }
    ensures counts { OnOk result (AreCounts counts.new.items []) }
    ensures room { OnOk result (most < length counts.new.items) }
{
    if counts.len() <= most {
        counts.resize(most, 0)?;
        counts.push(0)?;
    }
    let _room = counts.len();
    Ok(())
}

impl Path {
    /// Without turns, and without room for any mark.
    pub(crate) fn new(alloc: Global) -> Self
        ensures { IsClear result }
    {
        Self {
            turns: Vec::new(alloc),
            content: Vec::new(alloc),
            rest: Vec::new(alloc),
            split: Vec::new(alloc),
        }
    }

    /// Makes room for types of numbers up to `most` and for this many right heads.
    pub(crate) fn widen(&mut self, most: usize, rights: usize) -> Result<(), NoMemory>
        requires { IsClear self.old }
        ensures clear { OnOk result (IsClear self.new) }
        ensures content { OnOk result (most < length self.new.content.items) }
        ensures rest { OnOk result (most < length self.new.rest.items) }
        ensures split { OnOk result (rights < length self.new.split.items) }
    {
        lengthen(&mut self.content, most)?;
        lengthen(&mut self.rest, most)?;
        lengthen(&mut self.split, rights)?;
        Ok(())
    }

    /// Goes to this side of a split on this right head.
    pub(crate) fn take(
        &mut self,
        contents: &[usize],
        rests: &[usize],
        turn: Turn,
    ) -> Result<(), NoMemory>
        requires path { IsPath contents.now rests.now self.old }
        requires room { HasRoom contents.now rests.now self.old }
        requires within { turn.right < length contents.now }
        ensures path { OnOk result (IsPath contents.now rests.now self.new) }
        ensures turns { OnOk result (turns_of self.new ≡ turn ∷ turns_of self.old) }
        ensures keeps { OnOk result (KeepsRoom self.old self.new) }
    {
        self.turns.push(turn)?;
        let _turns = self.turns.len();
        count(&mut self.split, turn.right);
        if turn.on_rest {
            count(&mut self.rest, rests[turn.right]);
        } else {
            count(&mut self.content, contents[turn.right]);
        }
        Ok(())
    }

    /// Leaves the side of a split whose turn was taken off.
    fn leave(&mut self, contents: &[usize], rests: &[usize], turn: Turn)
        requires marks { AreMarks contents.now rests.now (turn ∷ turns_of self.old) self.old.content.items self.old.rest.items self.old.split.items }
        requires room { HasRoom contents.now rests.now self.old }
        ensures path { IsPath contents.now rests.now self.new }
        ensures turns { turns_of self.new ≡ turns_of self.old }
        ensures keeps { KeepsRoom self.old self.new }
    {
        uncount(&mut self.split, turn.right);
        if turn.on_rest {
            uncount(&mut self.rest, rests[turn.right]);
        } else {
            uncount(&mut self.content, contents[turn.right]);
        }
    }

    /// Goes to the next branch: the rest side of the newest split that is on its content side.
    /// Newer splits are left.
    pub(crate) fn next_branch(
        &mut self,
        contents: &[usize],
        rests: &[usize],
    ) -> Result<(), NoMemory>
        requires path { IsPath contents.now rests.now self.old }
        requires room { HasRoom contents.now rests.now self.old }
        ensures path { OnOk result (IsPath contents.now rests.now self.new) }
        ensures turns { OnOk result (turns_of self.new ≡ turned (turns_of self.old)) }
        ensures keeps { OnOk result (KeepsRoom self.old self.new) }
    {
        while let Some(turn) = self.turns.pop() {
            self.leave(contents, rests, turn);
            if !turn.on_rest {
                let turn = Turn {
                    right: turn.right,
                    on_rest: true,
                };
                return self.take(contents, rests, turn);
            }
        }
        Ok(())
    }
}

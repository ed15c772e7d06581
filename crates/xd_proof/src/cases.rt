//! Cases.

ghost use Rattle.std.specs.Prelude.{◌≡◌, IfOk, MatchOption};
ghost use Rattle.xd_rules.specs.Rules.{Case, ChoiceTree};
ghost use Rattle.xd_proof.specs.Parts.{SpellsCase, HasNumbers, tree_words};
ghost use Rattle.xd_proof.specs.Lines.{spaced};
ghost use Rattle.xd_proof.specs.Cases.{IsCase, SpellsChoice};

use crate::atoms::read_atom;
use crate::cutting::{before_mark, split_words};
use crate::keywords::behind_word;
use crate::numbers::read_number;
use crate::steps::{Step, read_steps};
use std::alloc::Global;
use xd_doc::NoMemory;
use xd_rules::Atom;

/// A left head's number, one of its atoms, and the steps of the choice tree.
#[derive(Drop)]
pub struct ReadCase {
    pub head: u64,
    pub atom: Atom,
    pub steps: Vec<Step>,
}

/// The case that a line says, if it says one. `NoMemory` where its text or its steps find no room.
pub fn read_case(alloc: Global, line: &[u8]) -> Result<Option<ReadCase>, NoMemory>
    ensures { IfOk result (λ made. MatchOption made ((c : Case) → SpellsCase line.now c → ⊥) (λ m. (c : Case) × SpellsCase line.now c × IsCase m c)) }
{
    let Some(behind) = behind_word(b"case".as_slice(), line) else {
        return Ok(None);
    };
    let Some((word, rest)) = before_mark(b' ', behind) else {
        return Ok(None);
    };
    let Some(head) = read_number(word) else {
        return Ok(None);
    };
    read_choice(alloc, head, rest)
}

/// The rest of the line of a case of this head: its atom and its tree.
fn read_choice(alloc: Global, head: u64, bytes: &[u8]) -> Result<Option<ReadCase>, NoMemory>
    ensures { IfOk result (λ made. MatchOption made ((c : Case) → SpellsChoice bytes.now c → ⊥) (λ m. (c : Case) × SpellsChoice bytes.now c × (c.head ≡ head) × IsCase m c)) }
{
    match read_atom(alloc, bytes) {
        Err(NoMemory) => Err(NoMemory),
        Ok(None) => Ok(None),
        Ok(Some((atom, rest))) => read_tree(alloc, head, atom, rest),
    }
}

/// The case of this head and this atom, where the bytes are its tree.
fn read_tree(
    alloc: Global,
    head: u64,
    atom: Atom,
    bytes: &[u8],
) -> Result<Option<ReadCase>, NoMemory>
    ensures { IfOk result (λ made. MatchOption made ((t : ChoiceTree) → HasNumbers t → bytes.now ≡ spaced (tree_words t) → ⊥) (λ m. (t : ChoiceTree) × HasNumbers t × (bytes.now ≡ spaced (tree_words t)) × IsCase m (record { head = head; atom = atom; choice = t }))) }
{
    let words = split_words(alloc, bytes)?;
    match read_steps(alloc, &words)? {
        None => Ok(None),
        Some(steps) => Ok(Some(ReadCase { head, atom, steps })),
    }
}

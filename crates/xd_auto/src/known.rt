//! Answers that are known, by state and node.

ghost use Rattle.std.specs.Prelude.{◌≡◌, ℕ, ◌+◌, ◌*◌, ◌/◌, ◌<◌, ◌≤◌, None, Some, [], length, map, IfOk, OnErr, OnOk, slice_index_or, vec_capacity, vec_len};
ghost use Rattle.xd_auto.specs.Marks.{bit_of};
ghost use Rattle.xd_auto.specs.Kept.{HasRoom, KeepsAnswer, KeepsInRow, SameAnswers, kept_at, kept_in, words_of};

use crate::marks::{is_set, set_bit};
use std::alloc::Global;
use xd_doc::NoMemory;

/// Which answers are known to pairs of a node and a state, and what they are.
///
/// Each state has a row of its own, with two bits a node. A row is as long as its newest node
/// needs, so a state that was never asked costs no more than an empty vector.
#[derive(Debug, Drop)]
pub struct KnownAnswers {
    rows: Vec<Vec<u64>>,
}

/// The words of a row that has this node.
pub fn words_for(node: usize) -> usize
    ensures { result ≡ node / 32 + 1 }
{
    node / 32 + 1
}

fn answer_in(row: &[u64], node: usize) -> Option<bool>
    ensures { result ≡ kept_in row.now node }
{
    let word = node / 32;
    let bit = 2 * (node % 32);
    if word < row.len() && is_set(row, word, bit) {
        Some(is_set(row, word, bit + 1))
    } else {
        None
    }
}

/// Makes the row long enough for the node.
fn reach(row: &mut Vec<u64>, node: usize) -> Result<(), NoMemory>
    ensures same { (i : ℕ) → bit_of row.new.items i ≡ bit_of row.old.items i }
    ensures room { OnOk result (node / 32 < length row.new.items) }
    ensures capacity { vec_capacity row.old ≤ vec_capacity row.new }
    ensures full { OnErr result (vec_capacity row.old < node / 32 + 1) }
{
    let words = words_for(node);
    if row.len() < words {
        row.resize(words, 0)?;
    }
    Ok(())
}

fn put_in(row: &mut Vec<u64>, node: usize, answer: bool) -> Result<(), NoMemory>
    ensures ok { OnOk result (KeepsInRow node answer row.old.items row.new.items) }
    ensures err { OnErr result ((p : ℕ) → kept_in row.new.items p ≡ kept_in row.old.items p) }
    ensures capacity { vec_capacity row.old ≤ vec_capacity row.new }
    ensures full { OnErr result (vec_capacity row.old < node / 32 + 1) }
{
    reach(row, node)?;
    let word = node / 32;
    let bit = 2 * (node % 32);
    set_bit(row, word, bit, true);
    set_bit(row, word, bit + 1, answer);
    Ok(())
}

impl KnownAnswers {
    /// No answer. It takes no memory.
    pub fn new(alloc: Global) -> Self
        ensures { result.rows.items ≡ [] }
    {
        Self {
            rows: Vec::new(alloc),
        }
    }

    /// Room for so many states and nodes.
    pub fn with_room(alloc: Global, states: usize, nodes: usize) -> Result<Self, NoMemory>
        ensures { IfOk result (λ known. HasRoom states (nodes / 32 + 1) known.rows.items) }
    {
        let words = words_for(nodes);
        let mut rows = Vec::with_capacity(alloc, states)?;
        for _ in 0..states {
            rows.push(Vec::with_capacity(alloc, words)?)?;
        }
        Ok(Self { rows })
    }

    /// The answer to a pair, if it is known.
    pub fn get(&self, node: usize, state: usize) -> Option<bool>
        ensures { result ≡ kept_at (words_of self.now.rows.items) node state }
    {
        if state < self.rows.len() {
            let row = &self.rows[state];
            answer_in(row, node)
        } else {
            None
        }
    }

    /// Adds empty rows until the state has one.
    fn reach(&mut self, state: usize) -> Result<(), NoMemory>
        ensures same { SameAnswers (words_of self.old.rows.items) (words_of self.new.rows.items) }
        ensures row { OnOk result (state < length self.new.rows.items) }
        ensures room { (states words : ℕ) → HasRoom states words self.old.rows.items → HasRoom states words self.new.rows.items }
        ensures full { OnErr result (length self.old.rows.items ≤ state) }
    {
        while self.rows.len() <= state {
            let alloc = *self.rows.allocator();
            self.rows.push(Vec::new(alloc))?;
        }
        Ok(())
    }

    /// Keeps the answer to a pair.
    pub fn keep(&mut self, node: usize, state: usize, answer: bool) -> Result<(), NoMemory>
        ensures ok { OnOk result (KeepsAnswer node state answer (words_of self.old.rows.items) (words_of self.new.rows.items)) }
        ensures err { OnErr result (SameAnswers (words_of self.old.rows.items) (words_of self.new.rows.items)) }
        ensures room { (states words : ℕ) → HasRoom states words self.old.rows.items → HasRoom states words self.new.rows.items }
        ensures full { OnErr result ((states words : ℕ) → HasRoom states words self.old.rows.items → state < states → node / 32 < words → ⊥) }
    {
        self.reach(state)?;
        put_in(&mut self.rows[state], node, answer)?;
        Ok(())
    }

    /// Forgets all answers. The rows keep their room.
    pub fn clear(&mut self)
        ensures none { (node state : ℕ) → kept_at (words_of self.new.rows.items) node state ≡ None }
        ensures room { (states words : ℕ) → HasRoom states words self.old.rows.items → HasRoom states words self.new.rows.items }
    {
        for state in 0..self.rows.len() {
            self.rows[state].clear();
        }
    }
}

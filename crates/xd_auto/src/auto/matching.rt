//! Moves that may share a name with a move.

ghost use Rattle.std.specs.Prelude.{◌≡◌, ℕ, ◌<◌, Bool, List, length, slice_index, IfOk, OnOk};
ghost use Rattle.xd_auto.specs.Automaton.{IsState, LeadsBelow, StateMoves, has_label, has_text, moves_at};
ghost use Rattle.xd_auto.specs.Index.{IsIndex, numbers_at};
ghost use Rattle.xd_auto.specs.Matching.{AddsMatching, AreMatching};

use super::index::{Index, Name, Step};
use super::{Auto, LabelMove, State, TextMove};
use std::alloc::Global;
use xd_doc::NoMemory;

/// A move of one of the two kinds: on an element, which takes labels, or on a text, which takes
/// texts.
pub trait Move {
    /// Those of this kind among a state's moves.
    ghost moves_in: { StateMoves → List Self };

    /// Whether it takes the name.
    ghost has: { Self → List ℕ → Bool };

    /// The state's moves of this kind, in the order in which they came.
    fn moves(auto: &Auto, state: State) -> &[Self]
        requires { IsState auto.now state }
        ensures value { result.now ≡ moves_in (moves_at auto.now state) }
        ensures closed { LeadsBelow (length auto.now) (moves_at auto.now state) };

    /// The numbers, in order, of those of a state's moves that may share a name with this one: of
    /// those that take one of the names of its class, or of all where its class has all names but
    /// some.
    ///
    /// Moves on the names of the class are found as [`Auto::next_label_move`] finds them.
    fn matching(&self, alloc: Global, auto: &Auto, state: State) -> Result<Vec<usize>, NoMemory>
        requires { IsState auto.now state }
        ensures { IfOk result (λ numbers. AreMatching has self.now (moves_in (moves_at auto.now state)) numbers.items) };
}

impl Move for LabelMove {
    ghost moves_in = { λ moves. moves.labels };

    ghost has = { has_label };

    fn moves(auto: &Auto, state: State) -> &[Self] {
        auto.label_moves(state)
    }

    fn matching(&self, alloc: Global, auto: &Auto, state: State) -> Result<Vec<usize>, NoMemory> {
        let moves = &auto.states[state.number];
        moves.matching_labels(alloc, self)
    }
}

impl Move for TextMove {
    ghost moves_in = { λ moves. moves.texts };

    ghost has = { has_text };

    fn moves(auto: &Auto, state: State) -> &[Self] {
        auto.text_moves(state)
    }

    fn matching(&self, alloc: Global, auto: &Auto, state: State) -> Result<Vec<usize>, NoMemory> {
        let moves = &auto.states[state.number];
        moves.matching_texts(alloc, self)
    }
}

/// The numbers, in order, of the moves that may share a name with a move: of those that take one of
/// the names of its class, or of all where its class has all but some.
pub fn matching_numbers<N: Name, M: Step<N>>(
    alloc: Global,
    index: &Index<N>,
    moves: &[M],
    step: &M,
) -> Result<Vec<usize>, NoMemory>
    requires { IsIndex M.takes_name moves.now index.now.count (numbers_at N.cmp index.now.named) index.now.others.items }
    ensures { IfOk result (λ numbers. AreMatching M.takes_name step.now moves.now numbers.items) }
{
    if step.takes_others() {
        let numbers = all_numbers(alloc, moves.len())?;
        return Ok(numbers);
    }
    let mut numbers = Vec::new(alloc);
    for name in step.names() {
        add_matching(index, moves, name, &mut numbers)?;
    }
    numbers.sort()?;
    numbers.dedup();
    Ok(numbers)
}

/// Adds the numbers of the moves that take the name.
fn add_matching<N: Name, M: Step<N>>(
    index: &Index<N>,
    moves: &[M],
    name: &N,
    numbers: &mut Vec<usize>,
) -> Result<(), NoMemory>
    requires { IsIndex M.takes_name moves.now index.now.count (numbers_at N.cmp index.now.named) index.now.others.items }
    ensures { OnOk result (AddsMatching M.takes_name moves.now name.now numbers.old.items numbers.new.items) }
{
    let mut number = index.next(moves, name, 0);
    while number < moves.len() {
        numbers.push(number)?;
        number = index.next(moves, name, number + 1);
    }
    Ok(())
}

/// So many numbers, from 0.
fn all_numbers(alloc: Global, count: usize) -> Result<Vec<usize>, NoMemory>
    ensures count { IfOk result (λ numbers. length numbers.items ≡ count) }
    ensures each { IfOk result (λ numbers. (k : ℕ) → k < count → slice_index numbers.items k ≡ k) }
{
    let mut numbers = Vec::with_capacity(alloc, count)?;
    for number in 0..count {
        numbers.push(number)?;
    }
    Ok(numbers)
}

//! Copies of states.

ghost use Rattle.std.specs.Prelude.{◌≡◌, ℕ, ◌+◌, ◌^◌, ◌<◌, ◌++◌, ◌∷◌, true, length, map, IfOk, OnOk};
ghost use Rattle.std.specs.List.{All};
ghost use Rattle.std.specs.Option.{IfSome};
ghost use Rattle.xd_auto.specs.Automaton.{IsState, moves_at, no_moves, state_number};
ghost use Rattle.xd_auto.specs.Copying.{AddsCopies, AddsMoves, ArePlaced, AreStateCopies, Finds, HasCopy, IsStateCopy, IsTarget, IsTextTarget, LabelBelow, Reached, copies_in, moved, moved_text, no_copies, uncopied};

use super::{Auto, LabelMove, Moves, State, TextMove};
use std::alloc::Global;
use std::collections::HashMap;
use xd_doc::NoMemory;

/// Where the copies of states stand, by the states' numbers.
pub type Copies = HashMap<usize, State>;

/// No copies. It takes no memory.
pub fn without_copies(alloc: Global) -> Copies
    ensures { copies_in result ≡ no_copies }
{
    HashMap::new(alloc)
}

/// States in the order in which they were found, and where the copies of these are to stand.
#[derive(Debug, Drop)]
pub struct Reach {
    pub order: Vec<State>,
    pub copies: Copies,
}

impl Reach {
    /// Finds a state; its copy stands after those of the states that were found before.
    fn visit(&mut self, base: usize, state: State) -> Result<(), NoMemory>
        requires base { base < 2 ^ 63 }
        requires placed { ArePlaced base self.old.order.items (copies_in self.old.copies) }
        ensures ok { OnOk result (Finds (λ t. t ≡ state) base self.old.order.items (copies_in self.old.copies) self.new.order.items (copies_in self.new.copies)) }
        ensures copied { OnOk result (HasCopy (copies_in self.new.copies) state) }
        ensures steps { OnOk result ((n : ℕ) → state_number state < n → length self.new.order.items + uncopied (copies_in self.new.copies) n ≡ length self.old.order.items + uncopied (copies_in self.old.copies) n) }
    {
        if !self.copies.contains_key(&state.number) {
            let number = base + self.order.len();
            self.order.push(state)?;
            self.copies.insert(state.number, State { number })?;
        }
        Ok(())
    }
}

impl Reach {
    /// Finds the content state of a move, where contents count.
    fn visit_content(&mut self, base: usize, contents: bool, state: State) -> Result<(), NoMemory>
        requires base { base < 2 ^ 63 }
        requires placed { ArePlaced base self.old.order.items (copies_in self.old.copies) }
        ensures ok { OnOk result (Finds (λ t. (contents ≡ true) × (t ≡ state)) base self.old.order.items (copies_in self.old.copies) self.new.order.items (copies_in self.new.copies)) }
        ensures copied { OnOk result (contents ≡ true → HasCopy (copies_in self.new.copies) state) }
        ensures steps { OnOk result ((n : ℕ) → state_number state < n → length self.new.order.items + uncopied (copies_in self.new.copies) n ≡ length self.old.order.items + uncopied (copies_in self.old.copies) n) }
    {
        if contents {
            self.visit(base, state)
        } else {
            Ok(())
        }
    }

    /// Finds the states of moves on an element.
    fn visit_labels(
        &mut self,
        base: usize,
        contents: bool,
        moves: &[LabelMove],
    ) -> Result<(), NoMemory>
        requires base { base < 2 ^ 63 }
        requires placed { ArePlaced base self.old.order.items (copies_in self.old.copies) }
        ensures ok { OnOk result (Finds (IsTarget contents moves.now) base self.old.order.items (copies_in self.old.copies) self.new.order.items (copies_in self.new.copies)) }
        ensures contents { OnOk result (contents ≡ true → All (λ m. HasCopy (copies_in self.new.copies) m.content) moves.now) }
        ensures rests { OnOk result (All (λ m. HasCopy (copies_in self.new.copies) m.rest) moves.now) }
        ensures steps { OnOk result ((n : ℕ) → All (LabelBelow n) moves.now → length self.new.order.items + uncopied (copies_in self.new.copies) n ≡ length self.old.order.items + uncopied (copies_in self.old.copies) n) }
    {
        for step in moves {
            self.visit_content(base, contents, step.content)?;
            self.visit(base, step.rest)?;
        }
        Ok(())
    }

    /// Finds the states of moves on a text.
    fn visit_texts(&mut self, base: usize, moves: &[TextMove]) -> Result<(), NoMemory>
        requires base { base < 2 ^ 63 }
        requires placed { ArePlaced base self.old.order.items (copies_in self.old.copies) }
        ensures ok { OnOk result (Finds (IsTextTarget moves.now) base self.old.order.items (copies_in self.old.copies) self.new.order.items (copies_in self.new.copies)) }
        ensures copied { OnOk result (All (λ m. HasCopy (copies_in self.new.copies) m.rest) moves.now) }
        ensures steps { OnOk result ((n : ℕ) → All (λ m. state_number m.rest < n) moves.now → length self.new.order.items + uncopied (copies_in self.new.copies) n ≡ length self.old.order.items + uncopied (copies_in self.old.copies) n) }
    {
        for step in moves {
            self.visit(base, step.rest)?;
        }
        Ok(())
    }
}

/// Finds the states that moves lead to from the first one on; contents count where `contents` is
/// true. Copies are to stand from `base` on, in the order of the answer.
///
/// A worklist: the states that were found wait in the order of the answer. It costs what is
/// reached, however many states the automaton has.
pub fn reach_from(
    alloc: Global,
    auto: &Auto,
    start: State,
    base: usize,
    contents: bool,
) -> Result<Reach, NoMemory>
    requires start { IsState auto.now start }
    requires base { base < 2 ^ 63 }
    ensures { IfOk result (λ reach. Reached auto.now contents start base reach.order.items (copies_in reach.copies)) }
{
    let mut reach = Reach {
        order: Vec::new(alloc),
        copies: without_copies(alloc),
    };
    reach.visit(base, start)?;
    let mut done = 0;
    while done < reach.order.len() {
        let state = reach.order[done];
        reach.visit_labels(base, contents, auto.label_moves(state))?;
        reach.visit_texts(base, auto.text_moves(state))?;
        done += 1;
    }
    Ok(reach)
}

/// The state's copy, or the state itself where it has none.
fn moved_to(copies: &Copies, state: State) -> State
    ensures { result ≡ moved (copies_in copies.now) state }
{
    copies.get(&state.number).copied().unwrap_or(state)
}

/// Adds copies of these moves.
fn add_labels(
    into: &mut Moves,
    moves: &[LabelMove],
    contents: &Copies,
    rests: &Copies,
) -> Result<(), NoMemory>
    ensures labels { OnOk result (AddsCopies (copies_in contents.now) (copies_in rests.now) moves.now into.old.labels into.new.labels) }
    ensures last { OnOk result (into.new.last ≡ into.old.last) }
    ensures texts { OnOk result (into.new.texts ≡ into.old.texts) }
{
    for step in moves {
        into.push_label(LabelMove {
            class: step.class.share()?,
            content: moved_to(contents, step.content),
            rest: moved_to(rests, step.rest),
        })?;
    }
    Ok(())
}

/// The same of moves on a text.
fn add_texts(into: &mut Moves, moves: &[TextMove], rests: &Copies) -> Result<(), NoMemory>
    ensures { OnOk result (into.new ≡ record into.old { texts = into.old.texts ++ map (moved_text (copies_in rests.now)) moves.now }) }
{
    for step in moves {
        into.push_text(TextMove {
            words: step.words.share()?,
            rest: moved_to(rests, step.rest),
        })?;
    }
    Ok(())
}

/// Adds copies of a state's moves.
pub fn add_moves(
    into: &mut Moves,
    auto: &Auto,
    state: State,
    contents: &Copies,
    rests: &Copies,
) -> Result<(), NoMemory>
    requires { IsState auto.now state }
    ensures ok { OnOk result (AddsMoves (copies_in contents.now) (copies_in rests.now) (moves_at auto.now state) into.old into.new) }
{
    add_labels(into, auto.label_moves(state), contents, rests)?;
    add_texts(into, auto.text_moves(state), rests)?;
    Ok(())
}

/// A copy of a state. With a tail it goes on there where the state accepts the empty document.
fn copy_state(
    alloc: Global,
    auto: &Auto,
    state: State,
    contents: &Copies,
    rests: &Copies,
    tail: Option<State>,
) -> Result<Moves, NoMemory>
    requires state { IsState auto.now state }
    requires tail { IfSome tail (IsState auto.now) }
    ensures { IfOk result (IsStateCopy auto.now (copies_in contents.now) (copies_in rests.now) tail state) }
{
    let last = auto.is_last(state);
    match tail {
        None => {
            let mut made = Moves::new(alloc, last);
            add_moves(&mut made, auto, state, contents, rests)?;
            Ok(made)
        }
        Some(tail) => {
            let mut made = Moves::new(alloc, last && auto.is_last(tail));
            add_moves(&mut made, auto, state, contents, rests)?;
            if last {
                let none = without_copies(alloc);
                add_moves(&mut made, auto, tail, &none, &none)?;
            }
            Ok(made)
        }
    }
}

/// Copies of states, in order.
pub fn copy_states(
    alloc: Global,
    auto: &Auto,
    order: &[State],
    contents: &Copies,
    rests: &Copies,
    tail: Option<State>,
) -> Result<Vec<Moves>, NoMemory>
    requires states { All (IsState auto.now) order.now }
    requires tail { IfSome tail (IsState auto.now) }
    ensures { IfOk result (λ made. AreStateCopies auto.now (copies_in contents.now) (copies_in rests.now) tail order.now made.items) }
{
    let mut made = Vec::new(alloc);
    for state in order {
        let copy = copy_state(alloc, auto, *state, contents, rests, tail)?;
        made.push(copy)?;
    }
    Ok(made)
}

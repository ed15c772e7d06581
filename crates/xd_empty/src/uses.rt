//! The moves that lead to each state.

ghost use Rattle.std.specs.Prelude.{ℕ, ◌≡◌, ◌<◌, ◌≤◌, ◌+◌, ◌-◌, length, replicate, slice_set, ◌++◌, ◌∷◌, [], IfOk, OnOk};
ghost use Rattle.std.specs.List.{All};
ghost use Rattle.xd_auto.specs.Automaton.{IsState, moves_at, state_number};
ghost use Rattle.xd_empty.specs.Uses.{AddsUses, AreUses, IsNewUse, Lists, lists_by_state, parts_of, user, uses_at};

use std::alloc::Global;
use xd_auto::{Auto, State};
use xd_doc::NoMemory;

/// A move of a state, on an element or on a text, by its number.
#[derive(Clone, Copy, Debug, PartialEq, Eq, PartialOrd, Ord)]
pub enum Use {
    Element(State, usize),
    Text(State, usize),
}

impl Use {
    /// The state that the move is of.
    pub fn state(self) -> State
        ensures { result ≡ user self }
    {
        match self {
            Use::Element(state, _) | Use::Text(state, _) => state,
        }
    }
}

/// Moves of the states from some number on, by those of these states that they lead to.
#[derive(Debug, Drop)]
pub struct Uses {
    /// The number of the first of these states.
    pub first: usize,
    /// For each of these states the moves that lead to it, for their contents or for what follows.
    pub lists: Vec<Vec<Use>>,
    /// The moves that wait to be looked at: at first those that lead to older states alone.
    pub waiting: Vec<Use>,
}

impl Uses {
    /// The moves of the automaton's states from this number on. Fails only where memory is refused.
    pub fn new(alloc: Global, auto: &Auto, first: usize) -> Result<Self, NoMemory>
        requires { first ≤ length auto.now }
        ensures first { IfOk result (λ uses. uses.first ≡ first) }
        ensures uses { IfOk result (λ uses. AreUses auto.now first (lists_by_state uses) uses.waiting.items) }
    {
        let mut uses = Self::bare(alloc, first, auto.len())?;
        for number in first..auto.len() {
            let state = auto.state(number);
            uses.add_elements(auto, state)?;
            uses.add_texts(auto, state)?;
        }
        Ok(uses)
    }

    /// No moves of the states from `first` up to `end`.
    fn bare(alloc: Global, first: usize, end: usize) -> Result<Self, NoMemory>
        requires { first ≤ end }
        ensures first { IfOk result (λ uses. uses.first ≡ first) }
        ensures lists { IfOk result (λ uses. lists_by_state uses ≡ replicate end []) }
        ensures waiting { IfOk result (λ uses. uses.waiting.items ≡ []) }
    {
        let mut lists = Vec::new(alloc);
        for _ in first..end {
            lists.push(Vec::new(alloc))?;
        }
        Ok(Self {
            first,
            lists,
            waiting: Vec::new(alloc),
        })
    }

    /// Adds the state's moves on an element.
    fn add_elements(&mut self, auto: &Auto, state: State) -> Result<(), NoMemory>
        requires state { IsState auto.now state }
        requires from { self.old.first ≤ state_number state }
        requires count { self.old.first + length self.old.lists.items ≡ length auto.now }
        ensures first { self.new.first ≡ self.old.first }
        ensures adds { OnOk result (AddsUses (IsNewUse auto.now self.old.first) (lists_by_state self.old) (lists_by_state self.new) self.old.waiting.items self.new.waiting.items) }
        ensures listed { OnOk result ((n : ℕ) → n < length (moves_at auto.now state).labels → Lists self.old.first (parts_of auto.now (Use.Element state n)) (lists_by_state self.new) self.new.waiting.items (Use.Element state n)) }
    {
        let moves = auto.label_moves(state);
        for number in 0..moves.len() {
            let step = &moves[number];
            self.add(&[step.content, step.rest], Use::Element(state, number))?;
        }
        Ok(())
    }

    /// Adds the state's moves on a text.
    fn add_texts(&mut self, auto: &Auto, state: State) -> Result<(), NoMemory>
        requires state { IsState auto.now state }
        requires from { self.old.first ≤ state_number state }
        requires count { self.old.first + length self.old.lists.items ≡ length auto.now }
        ensures first { self.new.first ≡ self.old.first }
        ensures adds { OnOk result (AddsUses (IsNewUse auto.now self.old.first) (lists_by_state self.old) (lists_by_state self.new) self.old.waiting.items self.new.waiting.items) }
        ensures listed { OnOk result ((n : ℕ) → n < length (moves_at auto.now state).texts → Lists self.old.first (parts_of auto.now (Use.Text state n)) (lists_by_state self.new) self.new.waiting.items (Use.Text state n)) }
    {
        let moves = auto.text_moves(state);
        for number in 0..moves.len() {
            let step = &moves[number];
            self.add(&[step.rest], Use::Text(state, number))?;
        }
        Ok(())
    }

    /// Lists a move under those of these states that it leads to; where there is none it waits.
    fn add(&mut self, leads_to: &[State], step: Use) -> Result<(), NoMemory>
        requires { All (λ state. state_number state < self.old.first + length self.old.lists.items) leads_to.now }
        ensures first { self.new.first ≡ self.old.first }
        ensures count { length self.new.lists.items ≡ length self.old.lists.items }
        ensures adds { OnOk result (AddsUses (λ added. step ≡ added) (lists_by_state self.old) (lists_by_state self.new) self.old.waiting.items self.new.waiting.items) }
        ensures listed { OnOk result (Lists self.old.first leads_to.now (lists_by_state self.new) self.new.waiting.items step) }
    {
        let mut is_listed = false;
        for state in leads_to {
            if state.number() >= self.first {
                self.list(*state, step)?;
                is_listed = true;
            }
        }
        if !is_listed {
            self.waiting.push(step)?;
        }
        Ok(())
    }

    /// Lists a move under one of these states.
    fn list(&mut self, under: State, step: Use) -> Result<(), NoMemory>
        requires from { self.old.first ≤ state_number under }
        requires below { state_number under < self.old.first + length self.old.lists.items }
        ensures first { self.new.first ≡ self.old.first }
        ensures count { length self.new.lists.items ≡ length self.old.lists.items }
        ensures waiting { self.new.waiting.items ≡ self.old.waiting.items }
        ensures ok { OnOk result (lists_by_state self.new ≡ slice_set (lists_by_state self.old) (state_number under) (uses_at (lists_by_state self.old) under ++ step ∷ [])) }
    {
        let place = under.number() - self.first;
        self.lists[place].push(step)?;
        Ok(())
    }

    /// The moves that are listed under one of these states.
    pub fn under(&self, state: State) -> &[Use]
        requires from { self.now.first ≤ state_number state }
        requires below { state_number state < self.now.first + length self.now.lists.items }
        ensures { result.now ≡ uses_at (lists_by_state self.now) state }
    {
        let place = state.number() - self.first;
        let list = &self.lists[place];
        list.as_slice()
    }

    /// The moves that lead to the state, which was found, wait from now on. Fails only where memory
    /// is refused; nothing is known of what waits then.
    pub fn wake(&mut self, found: State) -> Result<(), NoMemory>
        requires from { self.old.first ≤ state_number found }
        requires below { state_number found < self.old.first + length self.old.lists.items }
        ensures first { self.new.first ≡ self.old.first }
        ensures lists { OnOk result (lists_by_state self.new ≡ slice_set (lists_by_state self.old) (state_number found) []) }
        ensures waiting { OnOk result (self.new.waiting.items ≡ self.old.waiting.items ++ uses_at (lists_by_state self.old) found) }
    {
        let place = found.number() - self.first;
        self.waiting.append(&mut self.lists[place])?;
        Ok(())
    }
}

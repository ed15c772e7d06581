//! The states where the items of a variable may begin.

ghost use Rattle.std.specs.Prelude.{◌≡◌, ◌≤◌, true, IfOk, OnOk, length};
ghost use Rattle.xd_auto.specs.Automaton.{IsState, moves_at};
ghost use Rattle.xd_empty.specs.Parts.{is_marked};
ghost use Rattle.xd_auto.specs.Leading.{EndsAre};
ghost use Rattle.xd_bind.specs.Ahead.{IsSearched};
ghost use Rattle.xd_bind.specs.Owning.{is_owned};
ghost use Rattle.xd_bind.specs.Search.{AllFollowed, Grows, HasMark, IsSideOf, LeadsBy, SidesMarked};

use crate::holds::Holds;
use std::alloc::Global;
use xd_auto::{Auto, Ends, LabelMove, Leads, State, TextMove};
use xd_doc::NoMemory;

/// States in the order in which they were found, and for each state of the automaton whether it was
/// found.
#[derive(Drop)]
struct Search {
    order: Vec<State>,
    marks: Vec<bool>,
}

impl Search {
    /// Finds a state.
    fn visit(&mut self, state: State) -> Result<(), NoMemory>
        requires { HasMark self.old.marks.items state }
        ensures grows { OnOk result (Grows (λ t. t ≡ state) self.old.order.items self.old.marks.items self.new.order.items self.new.marks.items) }
        ensures marked { OnOk result (is_marked self.new.marks.items state ≡ true) }
    {
        let place = state.number();
        if !self.marks[place] {
            self.order.push(state)?;
            self.marks[place] = true;
        }
        Ok(())
    }

    /// Finds a state where `free` is true.
    fn visit_if(&mut self, free: bool, state: State) -> Result<(), NoMemory>
        requires { HasMark self.old.marks.items state }
        ensures grows { OnOk result (Grows (λ t. (free ≡ true) × (t ≡ state)) self.old.order.items self.old.marks.items self.new.order.items self.new.marks.items) }
        ensures marked { OnOk result (free ≡ true → is_marked self.new.marks.items state ≡ true) }
    {
        if !free {
            return Ok(());
        }
        self.visit(state)?;
        Ok(())
    }

    /// Whether it has found a state, if `free` is true.
    fn has_if(&self, free: bool, state: State) -> bool
        requires { HasMark self.now.marks.items state }
        ensures { result ≡ true → free ≡ true → is_marked self.now.marks.items state ≡ true }
    {
        !free || self.marks[state.number()]
    }

    /// Whether it has found those of these states where the other one is free.
    fn has_ends(&self, free: &[bool], ends: Ends) -> bool
        requires room { length self.now.marks.items ≤ length free.now }
        requires ends { EndsAre (HasMark self.now.marks.items) ends }
        ensures { result ≡ true → SidesMarked (is_marked free.now) self.now.marks.items ends }
    {
        let Some(inside) = ends.inside else {
            return self.has_if(true, ends.behind);
        };
        let past = free[inside.number()];
        let into = free[ends.behind.number()];
        self.has_if(past, ends.behind) && self.has_if(into, inside)
    }

    /// Finds those of these states where the other one is free.
    fn visit_ends(&mut self, free: &[bool], ends: Ends) -> Result<(), NoMemory>
        requires room { length self.old.marks.items ≤ length free.now }
        requires ends { EndsAre (HasMark self.old.marks.items) ends }
        ensures grows { OnOk result (Grows (IsSideOf (is_marked free.now) ends) self.old.order.items self.old.marks.items self.new.order.items self.new.marks.items) }
        ensures marked { OnOk result (SidesMarked (is_marked free.now) self.new.marks.items ends) }
    {
        let Some(inside) = ends.inside else {
            self.visit(ends.behind)?;
            return Ok(());
        };
        let past = free[inside.number()];
        let into = free[ends.behind.number()];
        self.visit_if(past, ends.behind)?;
        self.visit_if(into, inside)?;
        Ok(())
    }

    /// Finds what the moves of a kind lead to.
    fn visit_moves<M: Leads, H: Holds>(
        &mut self,
        auto: &Auto,
        owner: &H,
        variable: usize,
        free: &[bool],
        state: State,
    ) -> Result<(), NoMemory>
        requires state { IsState auto.now state }
        requires marks { length self.old.marks.items ≡ length auto.now }
        requires free { length free.now ≡ length auto.now }
        ensures grows { OnOk result (Grows (LeadsBy M.ends_of (is_owned (H.owned owner.now variable) M.KIND state) (is_marked free.now) (M.moves_in (moves_at auto.now state))) self.old.order.items self.old.marks.items self.new.order.items self.new.marks.items) }
        ensures marked { OnOk result (AllFollowed M.Filled M.ends_of (is_owned (H.owned owner.now variable) M.KIND state) (is_marked free.now) (M.moves_in (moves_at auto.now state)) self.new.marks.items (length (M.moves_in (moves_at auto.now state)))) }
    {
        let moves = M::moves(auto, state);
        for number in 0..moves.len() {
            let ends = moves[number].ends();
            if !self.has_ends(free, ends) {
                if !owner.holds(state, M::KIND, number, variable) {
                    self.visit_ends(free, ends)?;
                }
            }
        }
        Ok(())
    }
}

/// The states of an automaton that lie ahead of a start, where `free` says which states can be
/// completed without the variable. Fails only where memory is refused.
pub fn states_ahead<H: Holds>(
    alloc: Global,
    auto: &Auto,
    owner: &H,
    variable: usize,
    free: &[bool],
    start: State,
) -> Result<Vec<State>, NoMemory>
    requires start { IsState auto.now start }
    requires free { length free.now ≡ length auto.now }
    ensures { IfOk result (λ ahead. IsSearched auto.now (H.owned owner.now variable) start (is_marked free.now) ahead.items) }
{
    let mut search = Search {
        order: Vec::new(alloc),
        marks: vec![in alloc; false; auto.len()]?,
    };
    search.visit(start)?;
    let mut done = 0;
    while done < search.order.len() {
        let state = search.order[done];
        search.visit_moves::<TextMove, H>(auto, owner, variable, free, state)?;
        search.visit_moves::<LabelMove, H>(auto, owner, variable, free, state)?;
        done += 1;
    }
    Ok(search.order)
}

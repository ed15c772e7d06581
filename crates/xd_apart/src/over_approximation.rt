//! Automata that accept at least what is asked for, and are made closer to it.

ghost use Rattle.std.specs.Prelude.{◌≡◌, ◌<◌, ◌&&◌, ◌∷◌, ◌++◌, ℕ, List, [], cond, length, not, nat_eq, slice_index_or, true, Some, Contains, IfOk, OnOk};
ghost use Rattle.std.specs.List.{AllByRecursion, list_any};
ghost use Rattle.std.specs.Option.{IfSome};
ghost use Rattle.std.specs.Cmp.Lexicographic.{pointwise};
ghost use Rattle.xd_auto.specs.Automaton.{Automaton, IsState, moves_at, state_number};
ghost use Rattle.xd_boole.specs.Meaning.{is_last_in, less, with_states};
ghost use Rattle.xd_auto.specs.Keys.{found_at};
ghost use Rattle.xd_boole.specs.Points.{point_at, point_key};
ghost use Rattle.xd_apart.specs.OverApproximation.{Adds, AreBelow, Divides, EndsBelow, Grows, HasMove, IsClash, IsCloser, IsOverApproximation, Narrows, NarrowsEnds, StandsFor, behind_to, copied, in_both, in_first, inside_to, left_states};

use crate::divided::{DividedMove, ends_at, share_all};
use indexmap::IndexMap;
use std::alloc::Global;
use std::marker::Model;
use xd_auto::{Auto, Ends, State, StateKey};
use xd_boole::{any_last, set_of};
use xd_doc::NoMemory;

/// A state, the left, and states that are taken away from it, the rights: what a state of an
/// over-approximation stands for.
#[derive(Drop)]
pub(crate) struct Point {
    pub(crate) left: State,
    pub(crate) rights: Vec<State>,
}

impl Model for Point {
    ghost use Rattle.xd_boole.specs.Meaning.{PointView};

    ghost Value = { PointView };

    ghost view = { λ p. record { left = p.left; rights = p.rights.items } };
}

/// An automaton each of whose states accepts at least what its left accepts and none of its rights
/// does.
///
/// The first states are the lefts themselves, from which nothing is taken away. A later one has the
/// moves of its left at first.
#[derive(Drop)]
pub(crate) struct OverApproximation {
    pub(crate) lefts: usize,
    pub(crate) over: Auto,
    pub(crate) points: Vec<Point>,
    pub(crate) numbers: IndexMap<StateKey, usize>,
}

/// A move of a state, by its number, and a move of a right of its point, both of which take the
/// same.
#[derive(Clone, Copy)]
pub(crate) struct Clash {
    pub(crate) state: State,
    pub(crate) number: usize,
    pub(crate) right: State,
    pub(crate) taken: usize,
}

/// Whether one of the moves leads to the same states on all names of this one.
fn is_covered<M: DividedMove>(moves: &[M], step: &M) -> Result<bool, NoMemory>
    ensures { IfOk result (λ answer. answer ≡ true → (name : List ℕ) → M.has step.now name ≡ true → HasMove M.has M.ends_of moves.now name (M.ends_of step.now)) }
{
    let ends = step.ends();
    for other in moves {
        let to = other.ends();
        if to.inside == ends.inside && to.behind == ends.behind {
            let outside = step.without(other)?;
            if outside.is_none() {
                return Ok(true);
            }
        }
    }
    Ok(false)
}

/// Adds a move, but where another one leads to the same states on all its names.
fn add_move<M: DividedMove>(made: &mut Vec<M>, step: M) -> Result<(), NoMemory>
    ensures { OnOk result (Adds M.has M.ends_of (M.has step) (M.ends_of step) made.old.items made.new.items) }
{
    if is_covered(made, &step)? {
        return Ok(());
    }
    made.push(step)?;
    Ok(())
}

/// Adds moves that divide a move by one of a right, on the names of both: one that leads to less
/// inside, if it leads there, and one that leads to less behind.
fn add_shared<M: DividedMove>(
    made: &mut Vec<M>,
    divided: &M,
    taken: &M,
    by: Ends,
) -> Result<(), NoMemory>
    ensures keeps { OnOk result ((v : M) → Contains made.old.items v → Contains made.new.items v) }
    ensures inside { OnOk result (IfSome by.inside (λ s. (name : List ℕ) → in_both M.has divided.now taken.now name ≡ true → HasMove M.has M.ends_of made.new.items name (inside_to s (M.ends_of divided.now)))) }
    ensures behind { OnOk result ((name : List ℕ) → in_both M.has divided.now taken.now name ≡ true → HasMove M.has M.ends_of made.new.items name (behind_to by.behind (M.ends_of divided.now))) }
    ensures below { OnOk result ((n : ℕ) → AreBelow M.ends_of n made.old.items → EndsBelow n (M.ends_of divided.now) → EndsBelow n by → AreBelow M.ends_of n made.new.items) }
{
    let Some(part) = divided.meet(taken)? else {
        return Ok(());
    };
    if let Some(state) = by.inside {
        let same = part.share()?;
        add_move(made, same.to_inside(state))?;
    }
    add_move(made, part.to_behind(by.behind))?;
    Ok(())
}

/// Adds the move on the names that the other one doesn't have.
fn add_outside<M: DividedMove>(made: &mut Vec<M>, divided: &M, taken: &M) -> Result<(), NoMemory>
    ensures { OnOk result (Adds M.has M.ends_of (in_first M.has divided.now taken.now) (M.ends_of divided.now) made.old.items made.new.items) }
{
    let Some(part) = divided.without(taken)? else {
        return Ok(());
    };
    add_move(made, part)
}

/// The moves, where the one of this number is divided by a move of a right.
fn divided_moves<M: DividedMove>(
    alloc: Global,
    moves: &[M],
    number: usize,
    taken: &M,
    by: Ends,
) -> Result<Vec<M>, NoMemory>
    requires { number < length moves.now }
    ensures divides { IfOk result (λ made. (w : M) → slice_index_or moves.now number w ≡ w → Divides M.has M.ends_of w taken.now by moves.now made.items) }
    ensures below { IfOk result (λ made. (n : ℕ) → AreBelow M.ends_of n moves.now → EndsBelow n by → AreBelow M.ends_of n made.items) }
{
    let mut made = share_all(alloc, moves)?;
    let divided = made.remove(number);
    add_shared(&mut made, &divided, taken, by)?;
    add_outside(&mut made, &divided, taken)?;
    Ok(made)
}

/// A new state with the moves of another one, which accepts the empty document or not.
fn add_copy(alloc: Global, over: &mut Auto, left: State, last: bool) -> Result<State, NoMemory>
    requires { IsState over.old left }
    ensures added { OnOk result (over.new ≡ over.old ++ copied last (moves_at over.old left) ∷ []) }
    ensures number { IfOk result (λ state. state_number state ≡ length over.old) }
{
    let labels = share_all(alloc, over.label_moves(left))?;
    let texts = share_all(alloc, over.text_moves(left))?;
    let state = over.add_state(last)?;
    over.set_moves(state, labels, texts);
    Ok(state)
}

/// Puts a number under a key.
fn put(
    numbers: &mut IndexMap<StateKey, usize>,
    key: StateKey,
    number: usize,
) -> Result<(), NoMemory>
    ensures { OnOk result ((q : List ℕ) → found_at numbers.new q ≡ cond (pointwise nat_eq key q) (Some number) (found_at numbers.old q)) }
{
    numbers.insert(key, number)?;
    Ok(())
}

/// The rights with one more, as a set.
fn more_rights(alloc: Global, rights: &[State], added: State) -> Result<Vec<State>, NoMemory>
    ensures { IfOk result (λ made. made.items ≡ with_states (rights.now ++ added ∷ []) []) }
{
    let mut more = rights.to_vec(alloc)?;
    more.push(added)?;
    set_of(alloc, &more)
}

impl OverApproximation {
    /// The states of the automaton as lefts, and no others.
    pub(crate) fn new(alloc: Global, lefts: Auto) -> Result<Self, NoMemory>
        ensures approximation { IfOk result (λ made. (b : Automaton) → IsOverApproximation b made) }
        ensures lefts { IfOk result (λ made. left_states made ≡ lefts) }
        ensures count { IfOk result (λ made. made.lefts ≡ length lefts) }
        ensures over { IfOk result (λ made. made.over ≡ lefts) }
    {
        let mut points = Vec::new(alloc);
        for number in 0..lefts.len() {
            points.push(Point {
                left: lefts.state(number),
                rights: Vec::new(alloc),
            })?;
        }
        Ok(Self {
            lefts: lefts.len(),
            over: lefts,
            points,
            numbers: IndexMap::new(alloc),
        })
    }

    /// Whether a new point's state accepts the empty document.
    fn is_last(&self, auto: &Auto, left: State, rights: &[State]) -> bool
        requires left { IsState self.now.over left }
        requires rights { AllByRecursion (IsState auto.now) rights.now }
        ensures { result ≡ ((moves_at self.now.over left).last && not (list_any (is_last_in auto.now) rights.now)) }
    {
        self.over.is_last(left) && !any_last(auto, rights)
    }

    /// The state of a new point.
    fn add_point(
        &mut self,
        alloc: Global,
        auto: &Auto,
        key: StateKey,
        left: State,
        rights: &[State],
    ) -> Result<State, NoMemory>
        requires approximation { IsOverApproximation auto.now self.old }
        requires left { IsState (left_states self.old) left }
        requires rights { AllByRecursion (IsState auto.now) rights.now }
        requires key { key ≡ point_key (less left rights.now) }
        ensures approximation { OnOk result (IsOverApproximation auto.now self.new) }
        ensures grows { OnOk result (Grows self.old self.new) }
        ensures state { IfOk result (StandsFor self.new.points.items (less left rights.now)) }
    {
        let last = self.is_last(auto, left, rights);
        let number = self.points.len();
        let rights = rights.to_vec(alloc)?;
        let state = add_copy(alloc, &mut self.over, left, last)?;
        self.points.push(Point { left, rights })?;
        put(&mut self.numbers, key, number)?;
        Ok(state)
    }

    /// The state of a point, which is added where it isn't there.
    pub(crate) fn find_or_add(
        &mut self,
        alloc: Global,
        auto: &Auto,
        left: State,
        rights: &[State],
    ) -> Result<State, NoMemory>
        requires approximation { IsOverApproximation auto.now self.old }
        requires left { IsState (left_states self.old) left }
        requires rights { AllByRecursion (IsState auto.now) rights.now }
        ensures approximation { OnOk result (IsOverApproximation auto.now self.new) }
        ensures grows { OnOk result (Grows self.old self.new) }
        ensures state { IfOk result (StandsFor self.new.points.items (less left rights.now)) }
    {
        let key = StateKey::new(alloc, left, rights)?;
        match self.numbers.get(&key) {
            Some(number) => Ok(self.over.state(*number)),
            None => self.add_point(alloc, auto, key, left, rights),
        }
    }

    /// What the state stands for.
    fn point(&self, state: State) -> &Point
        requires { state_number state < length self.now.points.items }
        ensures { result.now ≡ point_at self.now.points.items (state_number state) }
    {
        let number = state.number();
        &self.points[number]
    }

    /// The state of a state's point with one more right.
    fn narrowed(
        &mut self,
        alloc: Global,
        auto: &Auto,
        state: State,
        added: State,
    ) -> Result<State, NoMemory>
        requires approximation { IsOverApproximation auto.now self.old }
        requires state { state_number state < length self.old.points.items }
        requires added { IsState auto.now added }
        ensures approximation { OnOk result (IsOverApproximation auto.now self.new) }
        ensures grows { OnOk result (Grows self.old self.new) }
        ensures narrows { IfOk result (λ made. Narrows (left_states self.new) auto.now self.new.points.items state made added) }
    {
        let point = self.point(state);
        let left = point.left;
        let rights = more_rights(alloc, &point.rights, added)?;
        let made = self.find_or_add(alloc, auto, left, &rights)?;
        Ok(made)
    }

    /// The states that a move leads to, each in the same way: the one inside where both lead there.
    fn narrowed_ends(
        &mut self,
        alloc: Global,
        auto: &Auto,
        ends: Ends,
        added: Ends,
    ) -> Result<Ends, NoMemory>
        requires approximation { IsOverApproximation auto.now self.old }
        requires ends { EndsBelow (length self.old.points.items) ends }
        requires added { EndsBelow (length auto.now) added }
        ensures approximation { OnOk result (IsOverApproximation auto.now self.new) }
        ensures grows { OnOk result (Grows self.old self.new) }
        ensures narrows { IfOk result (λ made. NarrowsEnds (left_states self.new) auto.now self.new.points.items ends made added) }
    {
        let mut inside = None;
        if let (Some(state), Some(right)) = (ends.inside, added.inside) {
            inside = Some(self.narrowed(alloc, auto, state, right)?);
        }
        let behind = self.narrowed(alloc, auto, ends.behind, added.behind)?;
        Ok(Ends { inside, behind })
    }

    /// Divides a move of a state by a move of one of its rights. An element that the right's move
    /// matches is refused by the right only where it refuses the content or what follows, and a
    /// text only where it refuses what follows.
    pub(crate) fn divide<M: DividedMove>(
        &mut self,
        alloc: Global,
        auto: &Auto,
        clash: Clash,
    ) -> Result<(), NoMemory>
        requires approximation { IsOverApproximation auto.now self.old }
        requires clash { IsClash M.moves_in auto.now self.old clash }
        ensures { OnOk result (IsCloser auto.now self.old self.new) }
    {
        let ends = ends_at::<M>(&self.over, clash.state, clash.number);
        let added = ends_at::<M>(auto, clash.right, clash.taken);
        let by = self.narrowed_ends(alloc, auto, ends, added)?;
        let others = M::moves(auto, clash.right);
        let taken = &others[clash.taken];
        let moves = M::moves(&self.over, clash.state);
        let made = divided_moves(alloc, moves, clash.number, taken, by)?;
        M::set(alloc, &mut self.over, clash.state, made)?;
        Ok(())
    }
}

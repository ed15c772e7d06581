//! Moves by what their classes name.

ghost use Rattle.std.specs.Prelude.{◌≡◌, ℕ, ◌<◌, ◌≤◌, ◌+◌, ◌^◌, ◌++◌, ◌∷◌, ◌⊎◌, Bool, [], Contains, cond, false, true, length, slice_index_or, IfOk, OnErr, OnOk};
ghost use Rattle.std.specs.List.{list_any};
ghost use Rattle.std.specs.List.Sorted.{IsNonDecreasing};
ghost use Rattle.std.specs.Ordering.{is_eq};
ghost use Rattle.std.proofs.lemmas.Map.Lookups.{CmpEqualImpliesEq, exact_bytes};
ghost use Rattle.xd_auto.specs.Automaton.{IsNext};
ghost use Rattle.xd_auto.specs.Index.{AddsTo, IsIndex, numbers_at};

use std::alloc::Global;
use std::collections::BTreeMap;
use xd_doc::{Label, NoMemory, Text};

/// What a move's class names: a label or a text.
pub trait Name: Ord + Drop {
    /// An equal name.
    fn share(&self) -> Result<Self, NoMemory>
        ensures { IfOk result (λ name. name ≡ self.now) };

    ghost exact: { CmpEqualImpliesEq Self.cmp };
}

impl Name for Label {
    ghost exact = { exact_bytes };

    fn share(&self) -> Result<Self, NoMemory> {
        Label::share(self)
    }
}

impl Name for Text {
    ghost exact = { exact_bytes };

    fn share(&self) -> Result<Self, NoMemory> {
        Text::share(self)
    }
}

/// A move on an item: a class says which names it takes.
pub trait Step<N: Name> {
    /// Whether it takes the name.
    ghost takes_name: { Self → N → Bool };

    /// Whether its class has all names but some.
    ghost has_others: { Self → Bool };

    fn takes(&self, name: &N) -> bool
        ensures { result ≡ takes_name self.now name.now };

    fn takes_others(&self) -> bool
        ensures { result ≡ has_others self.now };

    /// The names of its class: those that it takes, where it takes no others.
    fn names(&self) -> &[N]
        ensures { has_others self.now ≡ false → (x : N) → takes_name self.now x ≡ true → list_any (λ name. is_eq (N.cmp name x)) result.now ≡ true };
}

/// A state with fewer moves on an element, or on a text, has none of them in its index: to walk
/// them is faster.
const LEAST_INDEXED: usize = 8;

/// The first moves of a state, so many, by the names of their classes.
///
/// The moves whose class names a label or text stand under it, and `others` has those whose class
/// has all but some; both in their order. A list may also have numbers of moves that don't belong
/// there, where memory was wanting before.
#[derive(Debug, Drop)]
pub struct Index<N: Ord> {
    pub count: usize,
    pub named: BTreeMap<N, Vec<usize>>,
    pub others: Vec<usize>,
}

/// Puts a number after those that stand under the name.
fn put<N: Name>(
    named: &mut BTreeMap<N, Vec<usize>>,
    alloc: Global,
    name: &N,
    number: usize,
) -> Result<(), NoMemory>
    ensures ok { OnOk result ((q : N) → numbers_at N.cmp named.new q ≡ cond (is_eq (N.cmp name.now q)) (numbers_at N.cmp named.old q ++ number ∷ []) (numbers_at N.cmp named.old q)) }
    ensures err { OnErr result ((q : N) → numbers_at N.cmp named.new q ≡ numbers_at N.cmp named.old q) }
{
    match named.get_mut(name) {
        Some(numbers) => {
            numbers.push(number)?;
            Ok(())
        }
        None => {
            let numbers = vec![in alloc; number]?;
            named.insert(name.share()?, numbers)?;
            Ok(())
        }
    }
}

/// Puts a number after those that stand under the names.
fn put_each<N: Name>(
    named: &mut BTreeMap<N, Vec<usize>>,
    alloc: Global,
    names: &[N],
    number: usize,
) -> Result<(), NoMemory>
    ensures adds { (q : N) → AddsTo number (numbers_at N.cmp named.old q) (numbers_at N.cmp named.new q) }
    ensures ok { OnOk result ((q : N) → list_any (λ name. is_eq (N.cmp name q)) names.now ≡ true → Contains (numbers_at N.cmp named.new q) number) }
{
    for name in names {
        put(named, alloc, name, number)?;
    }
    Ok(())
}

impl<N: Name> Index<N> {
    /// An index of no moves. It takes no memory.
    pub fn new(alloc: Global) -> Self
        ensures count { result.count ≡ 0 }
        ensures named { (q : N) → numbers_at N.cmp result.named q ≡ [] }
        ensures others { result.others.items ≡ [] }
    {
        Self {
            count: 0,
            named: BTreeMap::new(alloc),
            others: Vec::new(alloc),
        }
    }

    /// Puts the number of the next move where its class has its names.
    fn add<M: Step<N>>(&mut self, step: &M) -> Result<(), NoMemory>
        ensures count { self.new.count ≡ self.old.count }
        ensures named { (q : N) → AddsTo self.old.count (numbers_at N.cmp self.old.named q) (numbers_at N.cmp self.new.named q) }
        ensures others { AddsTo self.old.count self.old.others.items self.new.others.items }
        ensures ok { OnOk result ((q : N) → M.takes_name step.now q ≡ true → Contains (numbers_at N.cmp self.new.named q) self.old.count ⊎ Contains self.new.others.items self.old.count) }
    {
        if step.takes_others() {
            self.others.push(self.count)?;
            return Ok(());
        }
        let alloc = *self.others.allocator();
        put_each(&mut self.named, alloc, step.names(), self.count)?;
        Ok(())
    }

    /// Goes on to have all of these moves, of which it has the first, if they are many.
    pub fn extend<M: Step<N>>(&mut self, moves: &[M]) -> Result<(), NoMemory>
        requires { IsIndex M.takes_name moves.now self.old.count (numbers_at N.cmp self.old.named) self.old.others.items }
        ensures index { IsIndex M.takes_name moves.now self.new.count (numbers_at N.cmp self.new.named) self.new.others.items }
        ensures ok { OnOk result (LEAST_INDEXED ≤ length moves.now → self.new.count ≡ length moves.now) }
    {
        if moves.len() < LEAST_INDEXED {
            return Ok(());
        }
        for number in self.count..moves.len() {
            let step = &moves[number];
            self.add(step)?;
            self.count = number + 1;
        }
        Ok(())
    }

    /// The same of the moves that the index has, or the number of all.
    fn first_indexed<M: Step<N>>(&self, moves: &[M], name: &N, from: usize) -> usize
        requires index { IsIndex M.takes_name moves.now self.now.count (numbers_at N.cmp self.now.named) self.now.others.items }
        requires from { from ≤ length moves.now }
        ensures after { from ≤ result }
        ensures within { result ≤ length moves.now }
        ensures has { (d : M) → result < length moves.now → M.takes_name (slice_index_or moves.now result d) name.now ≡ true }
        ensures lacks { (k : ℕ) (d : M) → k < self.now.count → from ≤ k → k < result → M.takes_name (slice_index_or moves.now k d) name.now ≡ false }
    {
        let other = first_listed(&self.others, moves, name, from);
        match self.named.get(name) {
            Some(numbers) => {
                let named = first_listed(numbers, moves, name, from);
                if named < other { named } else { other }
            }
            None => other,
        }
    }

    /// The first of the moves, from this number on, whose class has the name, or their number.
    pub fn next<M: Step<N>>(&self, moves: &[M], name: &N, from: usize) -> usize
        requires index { IsIndex M.takes_name moves.now self.now.count (numbers_at N.cmp self.now.named) self.now.others.items }
        requires from { from ≤ length moves.now }
        ensures { IsNext M.takes_name moves.now name.now from result }
    {
        if from < self.count {
            let end = self.first_indexed(moves, name, from);
            first_walked(moves, name, self.count, end)
        } else {
            first_walked(moves, name, from, moves.len())
        }
    }
}

/// The first of the listed moves, from this number on, whose class has the name, or the number of
/// all moves.
fn first_listed<N: Name, M: Step<N>>(numbers: &[usize], moves: &[M], name: &N, from: usize) -> usize
    requires numbers { IsNonDecreasing numbers.now }
    requires from { from ≤ length moves.now }
    ensures after { from ≤ result }
    ensures within { result ≤ length moves.now }
    ensures has { (d : M) → result < length moves.now → M.takes_name (slice_index_or moves.now result d) name.now ≡ true }
    ensures lacks { (k : ℕ) (d : M) → Contains numbers.now k → from ≤ k → k < result → M.takes_name (slice_index_or moves.now k d) name.now ≡ false }
{
    let start = numbers.partition_point(|number| *number < from);
    for place in start..numbers.len() {
        let number = numbers[place];
        if number < moves.len() {
            let listed = &moves[number];
            if listed.takes(name) {
                return number;
            }
        }
    }
    moves.len()
}

/// The first of the moves, from this number on and before the end, whose class has the name, or
/// the end.
fn first_walked<N: Name, M: Step<N>>(moves: &[M], name: &N, from: usize, end: usize) -> usize
    requires { end ≤ length moves.now }
    ensures within { result ≤ end }
    ensures has { (d : M) → result < end → M.takes_name (slice_index_or moves.now result d) name.now ≡ true }
    ensures after { result < end → from ≤ result }
    ensures lacks { (k : ℕ) (d : M) → from ≤ k → k < result → M.takes_name (slice_index_or moves.now k d) name.now ≡ false }
{
    for number in from..end {
        let step = &moves[number];
        if step.takes(name) {
            return number;
        }
    }
    end
}

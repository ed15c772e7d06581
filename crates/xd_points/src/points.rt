//! What each state of an automaton of points stands for.

ghost use Rattle.std.specs.Prelude.{◌≡◌, ◌<◌, ◌∷◌, ℕ, cond, List, [], Some, length, nat_eq, IfOk, OnOk};
ghost use Rattle.std.specs.List.{AllByRecursion};
ghost use Rattle.std.specs.Cmp.Lexicographic.{pointwise};
ghost use Rattle.xd_auto.specs.Automaton.{Automaton, IsState};
ghost use Rattle.xd_points.specs.declared.patterns.PatternStates.{PatternStates as PatternsView};
ghost use Rattle.xd_boole.specs.Meaning.{has_state};
ghost use Rattle.xd_points.specs.Meaning.{IsPointOf, is_old_point, point};
ghost use Rattle.xd_points.specs.Narrowing.{leaves_nothing, narrowed_left};
ghost use Rattle.xd_auto.specs.Keys.{found_at};
ghost use Rattle.xd_points.specs.Points.{ArePoints, Grows, IsStateFor, StandsFor, point_at, point_key, point_last};

use crate::automata::Automata;
use crate::patterns::PatternStates;
use indexmap::IndexMap;
use std::alloc::Global;
use std::marker::Model;
use xd_auto::{Auto, State, StateKey};
use xd_boole::{any_last, is_marked};
use xd_doc::NoMemory;

/// A state that must accept, a state of a pattern that must accept too, and states that must
/// refuse: what a state of the new automaton stands for.
#[derive(Drop)]
pub(crate) struct Point {
    pub(crate) left: State,
    pub(crate) pattern: State,
    pub(crate) rights: Vec<State>,
}

impl Model for Point {
    ghost use Rattle.xd_points.specs.Meaning.{PointView};

    ghost Value = { PointView };

    ghost view = { λ p. record { left = p.left; pattern = p.pattern; rights = p.rights.items } };
}

/// A point that is asked for, by its parts.
#[derive(Clone, Copy)]
pub struct PointParts<'a> {
    /// A state of the automaton of the lefts.
    pub left: State,
    /// A state of the patterns.
    pub pattern: State,
    /// States of the patterns that must refuse.
    pub rights: &'a [State],
}

/// A new automaton, with the point of each of its states, and the numbers of the points.
#[derive(Drop)]
pub(crate) struct Points {
    pub(crate) made: Auto,
    pub(crate) points: Vec<Point>,
    pub(crate) found: IndexMap<StateKey, usize>,
}

impl Points {
    /// No point.
    pub(crate) fn new(alloc: Global) -> Self
        ensures whole { (a : Automaton) (b : PatternsView) → ArePoints a b result }
        ensures none { result.points.items ≡ [] }
    {
        Self {
            made: Auto::new(alloc),
            points: Vec::new(alloc),
            found: IndexMap::new(alloc),
        }
    }
}

/// Puts a number under a key.
fn put(found: &mut IndexMap<StateKey, usize>, key: StateKey, number: usize) -> Result<(), NoMemory>
    ensures { OnOk result ((q : List ℕ) → found_at found.new q ≡ cond (pointwise nat_eq key q) (Some number) (found_at found.old q)) }
{
    found.insert(key, number)?;
    Ok(())
}

/// Whether a point means what its left accepts: nothing must refuse, and the state of the pattern,
/// which may be left out, is known to take everything, or is the left itself, a state that both
/// automata share.
pub(crate) fn is_old(
    patterns: &PatternStates,
    left: State,
    pattern: State,
    rights: &[State],
) -> bool
    ensures { result ≡ is_old_point patterns.now (point left pattern rights.now) }
{
    let alone = rights.is_empty();
    alone
        && (is_marked(&patterns.left_out, pattern)
            && (is_marked(&patterns.taken.universal, pattern)
                || (pattern.number() < patterns.shared && left.number() == pattern.number())))
}

/// Whether a state is one of those that must refuse.
fn is_refused(state: State, rights: &[State]) -> bool
    ensures { result ≡ has_state state rights.now }
{
    for right in rights {
        if *right == state {
            return true;
        }
    }
    false
}

/// Whether nothing is left of a point, since the pattern's state is one of those that must refuse,
/// or its left is, a state that both automata share.
pub(crate) fn leaves_nothing(
    patterns: &PatternStates,
    left: State,
    pattern: State,
    rights: &[State],
) -> bool
    ensures { result ≡ leaves_nothing patterns.now (point left pattern rights.now) }
{
    is_refused(pattern, rights) || (left.number() < patterns.shared && is_refused(left, rights))
}

/// The left of a point, or the pattern's state in its place.
///
/// That is where nothing must refuse, the left takes everything, and the pattern's state may be
/// left out and belongs to both automata: with that for its left the point means what an old state
/// accepts.
fn narrowed_left(patterns: &PatternStates, left: State, pattern: State, rights: &[State]) -> State
    ensures { result ≡ narrowed_left patterns.now (point left pattern rights.now) }
{
    let (shared, left_out) = (patterns.shared, &patterns.left_out);
    let narrows = rights.is_empty()
        && (is_marked(left_out, pattern)
            && (pattern.number() < shared
                && (left.number() < shared && is_marked(&patterns.taken.universal, left))));
    if narrows { pattern } else { left }
}

/// Whether the state of a point accepts the empty document. One that means what an old state
/// accepts is taken to.
fn is_last(automata: Automata<'_>, left: State, pattern: State, rights: &[State]) -> bool
    requires states { IsPointOf automata.lefts.now automata.patterns.now (point left pattern rights.now) }
    ensures { result ≡ point_last automata.entry.lefts.now automata.entry.patterns.now (point left pattern rights.now) }
{
    let Automata { lefts, patterns } = automata;
    if is_old(patterns, left, pattern, rights) {
        return true;
    }
    lefts.is_last(left)
        && (patterns.auto.is_last(pattern) && !any_last(&patterns.taken.auto, rights))
}

/// The state of a new point, which has no moves yet.
fn add_point(
    alloc: Global,
    automata: Automata<'_>,
    points: &mut Points,
    key: StateKey,
    left: State,
    pattern: State,
    rights: &[State],
) -> Result<State, NoMemory>
    requires whole { ArePoints automata.lefts.now automata.patterns.now points.old }
    requires states { IsPointOf automata.lefts.now automata.patterns.now (point left pattern rights.now) }
    requires key { key ≡ point_key (point left pattern rights.now) }
    ensures whole { OnOk result (ArePoints automata.entry.lefts.now automata.entry.patterns.now points.new) }
    ensures grows { OnOk result (Grows points.old points.new) }
    ensures state { IfOk result (IsStateFor points.new left pattern rights.now) }
{
    let number = points.points.len();
    let last = is_last(automata, left, pattern, rights);
    let rights = rights.to_vec(alloc)?;
    let state = points.made.add_state(last)?;
    points.points.push(Point {
        left,
        pattern,
        rights,
    })?;
    put(&mut points.found, key, number)?;
    Ok(state)
}

/// The state of a point, which is made where it isn't there.
fn find_or_add(
    alloc: Global,
    automata: Automata<'_>,
    points: &mut Points,
    left: State,
    pattern: State,
    rights: &[State],
) -> Result<State, NoMemory>
    requires whole { ArePoints automata.lefts.now automata.patterns.now points.old }
    requires states { IsPointOf automata.lefts.now automata.patterns.now (point left pattern rights.now) }
    ensures whole { OnOk result (ArePoints automata.entry.lefts.now automata.entry.patterns.now points.new) }
    ensures grows { OnOk result (Grows points.old points.new) }
    ensures state { IfOk result (IsStateFor points.new left pattern rights.now) }
{
    let key = StateKey::of_pair(alloc, left, pattern, rights)?;
    match points.found.get(&key) {
        Some(number) => Ok(points.made.state(*number)),
        None => add_point(alloc, automata, points, key, left, pattern, rights),
    }
}

/// The state of a point that means what this one does, and has its state of the pattern.
pub(crate) fn stand_for(
    alloc: Global,
    automata: Automata<'_>,
    points: &mut Points,
    left: State,
    pattern: State,
    rights: &[State],
) -> Result<State, NoMemory>
    requires whole { ArePoints automata.lefts.now automata.patterns.now points.old }
    requires states { IsPointOf automata.lefts.now automata.patterns.now (point left pattern rights.now) }
    ensures whole { OnOk result (ArePoints automata.entry.lefts.now automata.entry.patterns.now points.new) }
    ensures grows { OnOk result (Grows points.old points.new) }
    ensures state { IfOk result (StandsFor automata.entry.lefts.now automata.entry.patterns.now points.new (point left pattern rights.now)) }
{
    let left = narrowed_left(automata.patterns, left, pattern, rights);
    let state = find_or_add(alloc, automata, points, left, pattern, rights)?;
    Ok(state)
}

/// The point of this number.
pub(crate) fn copy_point(alloc: Global, points: &Points, number: usize) -> Result<Point, NoMemory>
    requires { number < length points.now.points.items }
    ensures { IfOk result (λ p. p ≡ point_at points.now.points.items number) }
{
    let point = &points.points[number];
    Ok(Point {
        left: point.left,
        pattern: point.pattern,
        rights: point.rights.to_vec(alloc)?,
    })
}

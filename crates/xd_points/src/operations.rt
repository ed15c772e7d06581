//! Products and differences of states.

ghost use Rattle.std.specs.Prelude.{◌≡◌, ◌&&◌, not, true, IfOk, IfSome};
ghost use Rattle.std.specs.List.{AllByRecursion};
ghost use Rattle.xd_doc.specs.Document.{Document};
ghost use Rattle.xd_auto.specs.Automaton.{Automaton, IsState, accepts};
ghost use Rattle.xd_empty.specs.Parts.{IsInhabitedPart};
ghost use Rattle.xd_points.specs.Meaning.{ServePoints};
ghost use Rattle.xd_points.specs.Placing.{accepts_at};
ghost use Rattle.xd_points.specs.Tables.{takes_alone};

use crate::patterns::PatternStates;
use crate::points::PointParts;
use crate::table::PointTable;
use std::alloc::Global;
use xd_auto::{Auto, State, trim};
use xd_boole::{merged, with_universal};
use xd_doc::NoMemory;
use xd_empty::inhabited_part;

/// What a state leads to, with like states made one, and the state in it.
fn merged_part(alloc: Global, auto: &Auto, state: State) -> Result<(Auto, State), NoMemory>
    requires { IsState auto.now state }
    ensures same { IfOk result (λ made. (d : Document) → accepts made.0 d made.1 ≡ accepts auto.now d state) }
    ensures belongs { IfOk result (λ made. IsState made.0 made.1) }
{
    let (part, state) = trim(alloc, auto, state)?;
    let made = merged(alloc, &part)?;
    Ok((made, state))
}

/// The state that was found, or one that accepts nothing.
fn found_or_nothing(auto: &mut Auto, found: Option<State>) -> Result<State, NoMemory>
    requires { IfSome found (IsState auto.old) }
    ensures belongs { IfOk result (IsState auto.new) }
    ensures exact { IfOk result (λ made. (d : Document) → accepts auto.new d made ≡ accepts_at auto.old d found) }
{
    match found {
        Some(state) => Ok(state),
        None => Ok(auto.add_state(false)?),
    }
}

/// A state that accepts what the left and the pattern's state accept, and none of the rights does.
fn accepting(
    alloc: Global,
    auto: &mut Auto,
    patterns: &PatternStates,
    left: State,
    pattern: State,
    rights: &[State],
) -> Result<State, NoMemory>
    requires patterns { ServePoints auto.old patterns.now }
    requires left { IsState auto.old left }
    requires pattern { IsState patterns.now.auto pattern }
    requires rights { AllByRecursion (IsState patterns.now.auto) rights.now }
    ensures belongs { IfOk result (IsState auto.new) }
    ensures exact { IfOk result (λ made. (d : Document) → accepts auto.new d made ≡ takes_alone auto.old patterns.now left pattern rights.now d) }
{
    let mut table = PointTable::new(alloc);
    let asked = PointParts {
        left,
        pattern,
        rights,
    };
    let found = table.accept(alloc, auto, patterns, asked)?;
    found_or_nothing(auto, found)
}

/// The same as a state of an automaton of its own, in which each state but it accepts something.
fn accepting_part(
    alloc: Global,
    auto: &mut Auto,
    patterns: &PatternStates,
    left: State,
    pattern: State,
    rights: &[State],
) -> Result<(Auto, State), NoMemory>
    requires patterns { ServePoints auto.old patterns.now }
    requires left { IsState auto.old left }
    requires pattern { IsState patterns.now.auto pattern }
    requires rights { AllByRecursion (IsState patterns.now.auto) rights.now }
    ensures exact { IfOk result (λ made. (d : Document) → accepts made.0 d made.1 ≡ takes_alone auto.old patterns.now left pattern rights.now d) }
    ensures start { IfOk result (λ made. IsState made.0 made.1) }
    ensures inhabited { IfOk result (λ made. IsInhabitedPart made.0 made.1) }
{
    let state = accepting(alloc, auto, patterns, left, pattern, rights)?;
    inhabited_part(alloc, auto, state)
}

/// A state that accepts exactly what both accept.
///
/// A state of the answer stands for a pair of states. Only pairs that the first pair leads to are
/// made, at most as many as there are pairs. Where the second state of a pair plainly accepts
/// everything, the first is the pair's state as it is. States that are like each other are made one
/// before, on the left; states that accept nothing are left out, but for the first.
///
/// Fails only where memory is refused. (Comon et al., *Tree Automata Techniques and
/// Applications*, section 1.3.)
pub fn product(
    alloc: Global,
    one: &Auto,
    first: State,
    two: &Auto,
    second: State,
) -> Result<(Auto, State), NoMemory>
    requires first { IsState one.now first }
    requires second { IsState two.now second }
    ensures exact { IfOk result (λ made. (d : Document) → accepts made.0 d made.1 ≡ (accepts one.now d first && accepts two.now d second)) }
    ensures start { IfOk result (λ made. IsState made.0 made.1) }
    ensures inhabited { IfOk result (λ made. IsInhabitedPart made.0 made.1) }
{
    let (mut left, first) = merged_part(alloc, one, first)?;
    let (right, second) = inhabited_part(alloc, two, second)?;
    let patterns = PatternStates::new(alloc, right)?;
    accepting_part(alloc, &mut left, &patterns, first, second, &[])
}

/// Patterns of what a state leads to through states that accept something, with the state in it,
/// and a state that accepts everything.
fn beside_universal(
    alloc: Global,
    auto: &Auto,
    state: State,
) -> Result<(PatternStates, State, State), NoMemory>
    requires { IsState auto.now state }
    ensures serve { IfOk result (λ made. (a : Automaton) → ServePoints a made.0) }
    ensures belongs { IfOk result (λ made. IsState made.0.auto made.1) }
    ensures same { IfOk result (λ made. (d : Document) → accepts made.0.auto d made.1 ≡ accepts auto.now d state) }
    ensures all { IfOk result (λ made. IsState made.0.auto made.2) }
    ensures universal { IfOk result (λ made. (d : Document) → accepts made.0.auto d made.2 ≡ true) }
{
    let (part, state) = inhabited_part(alloc, auto, state)?;
    let (right, state, all) = with_universal(alloc, &part, state)?;
    let patterns = PatternStates::new(alloc, right)?;
    Ok((patterns, state, all))
}

/// A state that accepts exactly what the first accepts and the second doesn't.
///
/// A state of the answer stands for a state of the left, and a set of states of the right, none of
/// which may accept. Where the set is empty, it is the left's state itself. An element is refused
/// by all of the set where, for each of their moves that match it, one state refuses its content or
/// one refuses what follows. So a move is made for each choice of these, but where one choice asks
/// for all that another asks for, or asks it of a state that plainly accepts everything, as that of
/// `Any` does. A move that plainly takes nothing of what the left's move takes needs no choice. The
/// labels of a move are divided only where moves tell them apart. The number of states may be
/// exponential in that of the right; it is about the product of both where few moves of a state
/// match the same label. (Hosoya, Vouillon and Pierce, *Regular expression types for XML*, 2005,
/// section 4, whose subtyping divides goals by the same choices.)
///
/// States that are like each other are made one before. States that accept nothing are left out
/// before and after, but for the first.
///
/// Fails only where memory is refused.
pub fn minus(
    alloc: Global,
    one: &Auto,
    first: State,
    two: &Auto,
    second: State,
) -> Result<(Auto, State), NoMemory>
    requires first { IsState one.now first }
    requires second { IsState two.now second }
    ensures exact { IfOk result (λ made. (d : Document) → accepts made.0 d made.1 ≡ (accepts one.now d first && not (accepts two.now d second))) }
    ensures start { IfOk result (λ made. IsState made.0 made.1) }
    ensures inhabited { IfOk result (λ made. IsInhabitedPart made.0 made.1) }
{
    let (mut left, first) = merged_part(alloc, one, first)?;
    let (patterns, second, all) = beside_universal(alloc, two, second)?;
    accepting_part(alloc, &mut left, &patterns, first, all, &[second])
}

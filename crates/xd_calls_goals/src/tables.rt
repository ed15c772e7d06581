//! What tables of goals say.

ghost use Rattle.std.specs.Prelude.{◌<◌, length, OnOk};
ghost use Rattle.std.specs.List.{AllByRecursion};
ghost use Rattle.xd_auto.specs.Automaton.{IsState};
ghost use Rattle.xd_goals.specs.Rows.{HasRoot};
ghost use Rattle.xd_goals.specs.Standing.{StandsOn};
ghost use Rattle.xd_calls_goals.specs.declared.named.NamedState.{NamedState};

use crate::named::NamedState;
use std::alloc::Global;
use std::io::Write;
use xd_auto::{Auto, State};
use xd_calls_lines::CallError;
use xd_calls_programs::{show_both_ways, show_verdict};
use xd_doc::Store;
use xd_goals::{Choice, ChoiceNode, GoalId, Standing, Table, Verdict, decide, new_tables_stand};

/// Whether the one is included in the two, then the other way round, by one table; and whether this
/// has at most so many goals then.
pub fn show_decided(
    alloc: Global,
    auto: &Auto,
    one: State,
    two: State,
    most: usize,
    out: &mut Vec<u8>,
) -> Result<(), CallError>
    requires one { IsState auto.now one }
    requires two { IsState auto.now two }
{
    let rows = show_both_ways(alloc, auto, one, two, out)?;
    show_bound(rows, most, out)
}

fn show_bound(rows: usize, most: usize, out: &mut Vec<u8>) -> Result<(), CallError> {
    let bound = if rows > most { "more than" } else { "at most" };
    writeln!(out, "{bound} {most} goals")?;
    Ok(())
}

/// Whether the one is included in the two; and for each goal that was refuted for it whether a goal
/// that holds is among its dependents, and whether a leaf of one that holds names it.
pub fn show_moved(
    alloc: Global,
    auto: &Auto,
    one: State,
    two: State,
    out: &mut Vec<u8>,
) -> Result<(), CallError>
    requires one { IsState auto.now one }
    requires two { IsState auto.now two }
{
    let mut store = Store::new(alloc);
    let mut table = Table::new(alloc);
    new_tables_stand(auto, &store);
    show_moved_in(alloc, auto, &mut table, one, two, &mut store, out)
}

/// The same with this table.
fn show_moved_in(
    alloc: Global,
    auto: &Auto,
    table: &mut Table,
    one: State,
    two: State,
    store: &mut Store,
    out: &mut Vec<u8>,
) -> Result<(), CallError>
    requires stands { StandsOn auto.now store.old table.old }
    requires one { IsState auto.now one }
    requires two { IsState auto.now two }
{
    show_verdict(alloc, auto, table, one, two, store, out)?;
    show_all_refuted(table, out)
}

fn show_all_refuted(table: &Table, out: &mut Vec<u8>) -> Result<(), CallError> {
    for number in 0..table.rows() {
        let goal = table.goal(number);
        if let Standing::Refuted(_) = table.standing(goal) {
            show_refuted(table, goal, out)?;
        }
    }
    Ok(())
}

fn show_refuted(table: &Table, goal: GoalId, out: &mut Vec<u8>) -> Result<(), CallError>
    requires { goal.number < length table.now.rows }
{
    let depends = if has_holding_dependent(table, goal) {
        "depends"
    } else {
        "does not depend"
    };
    let names = if is_named(table, goal) {
        "a leaf names"
    } else {
        "no leaf names"
    };
    writeln!(
        out,
        "refuted; a goal that holds {depends} on it, {names} it"
    )?;
    Ok(())
}

/// Whether a goal that holds is among the goal's dependents.
fn has_holding_dependent(table: &Table, goal: GoalId) -> bool
    requires { goal.number < length table.now.rows }
{
    let mut at = table.first_dependent(goal);
    while let Some(link) = at {
        if let Standing::Holds = table.standing(table.dependent(link)) {
            return true;
        }
        at = table.next_dependent(link);
    }
    false
}

/// Whether a leaf of a goal that holds names the goal.
fn is_named(table: &Table, goal: GoalId) -> bool {
    for number in 0..table.rows() {
        let owner = table.goal(number);
        if let Standing::Holds = table.standing(owner) {
            if is_named_by(table, table.choices(owner), goal) {
                return true;
            }
        }
    }
    false
}

/// Whether a leaf of the choices names the goal.
fn is_named_by(table: &Table, choices: &[Choice], goal: GoalId) -> bool
    requires { AllByRecursion (HasRoot table.now.nodes) choices.now }
{
    for choice in choices {
        if is_named_in(table, choice.root, goal) {
            return true;
        }
    }
    false
}

/// Whether a leaf of the tree at this node names the goal.
fn is_named_in(table: &Table, node: usize, goal: GoalId) -> bool
    requires { node < length table.now.nodes }
{
    match table.choice_node(node) {
        ChoiceNode::Content(leaf) => leaf.number() == goal.number(),
        ChoiceNode::Rest(leaf) => leaf.number() == goal.number(),
        ChoiceNode::Split { content, rest, .. } => {
            is_named_in(table, content, goal) || is_named_in(table, rest, goal)
        }
    }
}

/// For each of the states, in order, which of them it is included in. Each of these questions is
/// asked of one table, and then of a new one, which must say the same.
pub fn show_questions(
    alloc: Global,
    auto: &Auto,
    states: &[NamedState<'_>],
    out: &mut Vec<u8>,
) -> Result<(), CallError>
    requires { AllByRecursion (λ (n : NamedState). IsState auto.now n.state) states.now }
{
    let mut store = Store::new(alloc);
    let mut table = Table::new(alloc);
    new_tables_stand(auto, &store);
    show_questions_in(alloc, auto, &mut table, states, &mut store, out)
}

/// The same with this table.
fn show_questions_in(
    alloc: Global,
    auto: &Auto,
    table: &mut Table,
    states: &[NamedState<'_>],
    store: &mut Store,
    out: &mut Vec<u8>,
) -> Result<(), CallError>
    requires stands { StandsOn auto.now store.old table.old }
    requires states { AllByRecursion (λ (n : NamedState). IsState auto.now n.state) states.now }
{
    for left in states {
        show_questions_on(alloc, auto, table, left, states, store, out)?;
    }
    Ok(())
}

/// The left's name, and those of the rights in which it is included.
fn show_questions_on(
    alloc: Global,
    auto: &Auto,
    table: &mut Table,
    left: &NamedState<'_>,
    rights: &[NamedState<'_>],
    store: &mut Store,
    out: &mut Vec<u8>,
) -> Result<(), CallError>
    requires stands { StandsOn auto.now store.old table.old }
    requires left { IsState auto.now left.now.state }
    requires rights { AllByRecursion (λ (n : NamedState). IsState auto.now n.state) rights.now }
    ensures { OnOk result (StandsOn auto.now store.new table.new) }
{
    write!(out, "{} is in", left.name)?;
    for right in rights {
        let included = is_included(alloc, auto, table, left.state, right.state, store)?;
        let afresh = is_included_afresh(alloc, auto, left.state, right.state)?;
        show_answer(right.name, included, afresh, out)?;
    }
    out.push(b'\n')?;
    Ok(())
}

fn show_answer(
    name: &str,
    included: bool,
    afresh: bool,
    out: &mut Vec<u8>,
) -> Result<(), CallError> {
    if included != afresh {
        write!(out, " (the tables differ on {name})")?;
    } else if included {
        write!(out, " {name}")?;
    }
    Ok(())
}

fn is_included(
    alloc: Global,
    auto: &Auto,
    table: &mut Table,
    left: State,
    right: State,
    store: &mut Store,
) -> Result<bool, CallError>
    requires stands { StandsOn auto.now store.old table.old }
    requires left { IsState auto.now left }
    requires right { IsState auto.now right }
    ensures { OnOk result (StandsOn auto.now store.new table.new) }
{
    let verdict = decide(alloc, auto, table, left, &[right], store)?;
    Ok(matches!(verdict, Verdict::Included(_)))
}

/// The same by a new table.
fn is_included_afresh(
    alloc: Global,
    auto: &Auto,
    left: State,
    right: State,
) -> Result<bool, CallError>
    requires left { IsState auto.now left }
    requires right { IsState auto.now right }
{
    let mut store = Store::new(alloc);
    let mut table = Table::new(alloc);
    new_tables_stand(auto, &store);
    is_included(alloc, auto, &mut table, left, right, &mut store)
}

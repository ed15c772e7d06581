//! Which goals a goal rests on.

ghost use Rattle.std.specs.Prelude.{◌≡◌, ℕ, ◌<◌, [], false, length, IfOk, OnOk};
ghost use Rattle.std.specs.List.{AllByRecursion};
ghost use Rattle.xd_goals.specs.Rows.{IsRefuted, row_at};
ghost use Rattle.xd_goals.specs.Kept.{IsMarking, view_of};
ghost use Rattle.xd_goals.specs.Trees.{StandsAt};
ghost use Rattle.xd_goals.specs.Reached.{HasTreeAt, HaveTreesWithin, IsLeafAt, IsLeafOf, IsSettled, IsWaitingIn, IsWalk, MarksThese, Reaches, is_marked};
ghost use Rattle.xd_goals.specs.Standing.{IsOpen};
ghost use Rattle.xd_goals.specs.Facts.{StaySettled};
ghost use Rattle.xd_goals.specs.declared.table.Standing.TheVariants.{Holds};

use crate::goals::{Goals, set_settled};
use crate::grow::node_at;
use crate::table::{Choice, ChoiceNode, GoalId, Row, Standing};
use indexmap::IndexSet;
use std::alloc::Global;
use xd_doc::NoMemory;

/// Reaches a goal.
fn reach(found: &mut IndexSet<usize>, goal: GoalId) -> Result<(), NoMemory>
    ensures { OnOk result (Reaches (λ g. goal.number ≡ g) found.old.keys found.new.keys) }
{
    found.insert_full(goal.number)?;
    Ok(())
}

/// Reaches the goals that the leaves of a tree name.
fn reach_leaves(
    nodes: &[ChoiceNode],
    found: &mut IndexSet<usize>,
    root: usize,
) -> Result<(), NoMemory>
    requires { HasTreeAt nodes.now root }
    ensures { OnOk result (Reaches (IsLeafAt nodes.now root) found.old.keys found.new.keys) }
{
    match node_at(nodes, root) {
        ChoiceNode::Content(goal) => reach(found, goal),
        ChoiceNode::Rest(goal) => reach(found, goal),
        ChoiceNode::Split { content, rest, .. } => {
            reach_leaves(nodes, found, content)?;
            reach_leaves(nodes, found, rest)
        }
    }
}

/// Reaches the goals that a goal's choice trees name.
fn reach_choices(
    nodes: &[ChoiceNode],
    found: &mut IndexSet<usize>,
    choices: &[Choice],
) -> Result<(), NoMemory>
    requires { AllByRecursion (λ (k : Choice). HasTreeAt nodes.now k.root) choices.now }
    ensures { OnOk result (Reaches (IsLeafOf nodes.now choices.now) found.old.keys found.new.keys) }
{
    for choice in choices {
        reach_leaves(nodes, found, choice.root)?;
    }
    Ok(())
}

/// So many marks, none of them set.
pub(crate) fn no_marks(alloc: Global, count: usize) -> Result<Vec<bool>, NoMemory>
    ensures count { IfOk result (λ marks. length marks.items ≡ count) }
    ensures none { IfOk result (λ marks. (g : ℕ) → is_marked marks.items g ≡ false) }
{
    let mut marks = Vec::new(alloc);
    for _ in 0..count {
        marks.push(false)?;
    }
    Ok(marks)
}

/// What a walk found: the goals that it reached, in the order in which it did, and those of them
/// that wait.
#[derive(Drop)]
struct Walked {
    order: IndexSet<usize>,
    waiting: Vec<GoalId>,
}

/// Walks from a goal through leaves, and goes on after goals that hold and aren't settled yet.
fn walk(alloc: Global, goals: &Goals, start: GoalId) -> Result<Walked, NoMemory>
    requires start { start.number < length goals.now.rows.items }
    requires open_start { ¬ (IsRefuted goals.now.rows.items start.number) }
    requires trees { (i : ℕ) → HaveTreesWithin goals.now.nodes.items (length goals.now.rows.items) (row_at goals.now.rows.items i).choices }
    requires opens { (i : ℕ) → (row_at goals.now.rows.items i).standing ≡ Holds → AllByRecursion (IsOpen (view_of goals.now)) (row_at goals.now.rows.items i).choices }
    ensures { IfOk result (λ walked. IsWalk (view_of goals.now) start.number walked.order.keys walked.waiting.items) }
{
    let mut found = IndexSet::new(alloc);
    reach(&mut found, start)?;
    let mut waiting = Vec::new(alloc);
    let mut next = 0;
    while next < found.len() {
        let number = found.as_slice()[next];
        let row = &goals.rows[number];
        if !is_settled(&goals.rows, GoalId { number }) {
            match row.standing {
                Standing::Holds => reach_choices(&goals.nodes, &mut found, &row.choices)?,
                Standing::Waiting => waiting.push(GoalId { number })?,
                Standing::Refuted(_) => unreachable!(),
            }
        }
        next += 1;
    }
    Ok(Walked {
        order: found,
        waiting,
    })
}

/// Marks goals as settled.
fn mark_settled(rows: &mut Vec<Row>, order: &[usize])
    requires { AllByRecursion (λ n. n < length rows.old.items) order.now }
    ensures { MarksThese order.now rows.old.items rows.new.items }
{
    for number in order {
        set_settled(rows, *number, true);
    }
}

/// Whether a goal is settled.
fn is_settled(rows: &[Row], goal: GoalId) -> bool
    requires { goal.number < length rows.now }
    ensures { result ≡ (row_at rows.now goal.number).settled }
{
    let row = &rows[goal.number];
    row.settled
}

/// The goals that wait among those that a goal leads to through leaves, as far as they are known.
/// Where none does, the goal and those that it leads to are settled from now on, and no later walk
/// goes on after them.
pub(crate) fn unsettled(
    alloc: Global,
    goals: &mut Goals,
    start: GoalId,
) -> Result<Vec<GoalId>, NoMemory>
    requires start { start.number < length goals.old.rows.items }
    requires open_start { ¬ (IsRefuted goals.old.rows.items start.number) }
    requires trees { (i : ℕ) → HaveTreesWithin goals.old.nodes.items (length goals.old.rows.items) (row_at goals.old.rows.items i).choices }
    requires opens { (i : ℕ) → (row_at goals.old.rows.items i).standing ≡ Holds → AllByRecursion (IsOpen (view_of goals.old)) (row_at goals.old.rows.items i).choices }
    requires settled { StaySettled (view_of goals.old) }
    ensures marking { IsMarking goals.old goals.new }
    ensures settled { StaySettled (view_of goals.new) }
    ensures waiting { IfOk result (λ waiting. AllByRecursion (IsWaitingIn goals.new.rows.items) waiting.items) }
    ensures none { IfOk result (λ waiting. waiting.items ≡ [] → IsSettled (view_of goals.new) start.number) }
{
    if is_settled(&goals.rows, start) {
        return Ok(Vec::new(alloc));
    }
    let walked = walk(alloc, goals, start)?;
    if walked.waiting.is_empty() {
        mark_settled(&mut goals.rows, walked.order.as_slice());
        return Ok(Vec::new(alloc));
    }
    let Walked { waiting, .. } = walked;
    Ok(waiting)
}

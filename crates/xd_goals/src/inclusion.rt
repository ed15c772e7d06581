//! The decision of inclusion.

ghost use Rattle.std.specs.Prelude.{◌≡◌, ◌<◌, List, length, slice_get, IfOk, OnOk, Some};
ghost use Rattle.std.specs.Option.{IfSome};
ghost use Rattle.std.specs.List.{AllByRecursion};
ghost use Rattle.xd_doc.specs.StoreNodes.{Keeps};
ghost use Rattle.xd_auto.specs.declared.auto.State.{State};
ghost use Rattle.xd_auto.specs.Automaton.{IsState};
ghost use Rattle.xd_state_heads.specs.Moves.{claim_with};
ghost use Rattle.xd_goals.specs.Rows.{claim_at};
ghost use Rattle.xd_goals.specs.Kept.{IsWhole, view_of};
ghost use Rattle.xd_goals.specs.Standing.{KeepsGoals, StandsOn};
ghost use Rattle.xd_goals.specs.Facts.{FactsOn};
ghost use Rattle.xd_goals.specs.Reached.{IsWaitingIn};
ghost use Rattle.xd_goals.specs.Progress.{CanWork, Progresses, Settles};
ghost use Rattle.xd_goals.specs.Verdicts.{IsGoalBelow, IsVerdict};

use crate::goals::{Goals, find_or_add};
use crate::settled::unsettled;
use crate::table::{GoalId, Link, Row, Standing, Table};
use crate::work::work;
use std::alloc::Global;
use xd_auto::{Answers, Auto, State};
use xd_doc::{NoMemory, Seq, Store};

/// Whether every document of the left is one of some right: the goal that says so, or a document of
/// the left alone.
#[derive(Clone, Copy, Debug)]
pub enum Verdict {
    /// The goal's left and rights are those that were asked. It holds, and so do all goals that it
    /// leads to through leaves.
    Included(GoalId),
    /// A document of the store that the left accepts and none of the rights does.
    Separated(Seq),
}

/// Whether every document that `left` accepts is accepted by one of `rights`.
///
/// The table stands on this automaton and this store, as a new one does ([`new_tables_stand`]), as
/// one does that earlier calls have left, and as one goes on to do while both grow
/// ([`tables_stay_standing`]).
///
/// Goals and documents that earlier calls left in the table and the store are used again. There is
/// no bound on time: a table may have a goal for each state with each set of states, beside those
/// that were asked. After `NoMemory`, which also stands for the number of a head that fits no
/// usize, the table may be used again.
///
/// [`new_tables_stand`]: crate::new_tables_stand
/// [`tables_stay_standing`]: crate::tables_stay_standing
///
/// (The rules are those of Hosoya, Vouillon and Pierce, TOPLAS 2005, tried on demand.)
pub fn decide(
    alloc: Global,
    auto: &Auto,
    table: &mut Table,
    left: State,
    rights: &[State],
    store: &mut Store,
) -> Result<Verdict, NoMemory>
    requires stands { StandsOn auto.now store.old table.old }
    requires left { IsState auto.now left }
    requires rights { AllByRecursion (IsState auto.now) rights.now }
    ensures verdict { IfOk result (IsVerdict auto.now store.new table.new left rights.now) }
    ensures stands { StandsOn auto.now store.new table.new }
    ensures goals { KeepsGoals table.old table.new }
    ensures keeps { Keeps store.old store.new }
{
    let goals = &mut table.goals;
    decide_in(alloc, auto, goals, left, rights, store)
}

/// The same on the goals of a table.
fn decide_in(
    alloc: Global,
    auto: &Auto,
    goals: &mut Goals,
    left: State,
    rights: &[State],
    store: &mut Store,
) -> Result<Verdict, NoMemory>
    requires whole { IsWhole goals.old }
    requires stands { FactsOn auto.now store.old (view_of goals.old) }
    requires left { IsState auto.now left }
    requires rights { AllByRecursion (IsState auto.now) rights.now }
    ensures whole { IsWhole goals.new }
    ensures verdict { IfOk result (IsVerdict auto.now store.new (view_of goals.new) left rights.now) }
    ensures stands { FactsOn auto.now store.new (view_of goals.new) }
    ensures goals { KeepsGoals (view_of goals.old) (view_of goals.new) }
    ensures keeps { Keeps store.old store.new }
{
    let asked = find_or_add(alloc, goals, auto.len(), left, rights)?;
    let mut answers = Answers::new(alloc);
    settle(alloc, auto, goals, asked, store, &mut answers)
}

/// Works until the goal that was asked is refuted, or leads to no goal that waits.
fn settle(
    alloc: Global,
    auto: &Auto,
    goals: &mut Goals,
    asked: GoalId,
    store: &mut Store,
    answers: &mut Answers,
) -> Result<Verdict, NoMemory>
    requires can { CanWork auto.now store.old goals.old answers.old }
    requires asked { asked.number < length goals.old.rows.items }
    ensures verdict { (left : State) (rights : List State) → claim_at goals.old.rows.items asked.number ≡ Some (claim_with left rights) → IfOk result (IsVerdict auto.now store.new (view_of goals.new) left rights) }
    ensures progresses { Progresses auto.now store.old store.new goals.old goals.new }
{
    loop {
        if let Standing::Refuted(document) = goals.standing(asked) {
            return Ok(Verdict::Separated(document));
        }
        let mut agenda = unsettled(alloc, goals, asked)?;
        match agenda.pop() {
            None => return Ok(Verdict::Included(asked)),
            Some(goal) => run(auto, goals, asked, goal, &mut agenda, store, answers)?,
        }
    }
}

/// Works on a goal that waits, on those of an agenda, on those that are made for them, and on those
/// that wait again because of a refutation, until none is left or the goal that was asked is
/// refuted.
fn run(
    auto: &Auto,
    goals: &mut Goals,
    asked: GoalId,
    goal: GoalId,
    agenda: &mut Vec<GoalId>,
    store: &mut Store,
    answers: &mut Answers,
) -> Result<(), NoMemory>
    requires can { CanWork auto.now store.old goals.old answers.old }
    requires asked { asked.number < length goals.old.rows.items }
    requires goal { IsWaitingIn goals.old.rows.items goal }
    requires agenda { AllByRecursion (IsGoalBelow (length goals.old.rows.items)) agenda.old.items }
    ensures progresses { Progresses auto.now store.old store.new goals.old goals.new }
    ensures settles { OnOk result (Settles auto.now store.new goals.old goals.new answers.new) }
{
    step(auto, goals, goal, agenda, store, answers)?;
    while let Some(goal) = next_waiting(goals, agenda) {
        if let Standing::Refuted(_) = goals.standing(asked) {
            return Ok(());
        }
        step(auto, goals, goal, agenda, store, answers)?;
    }
    Ok(())
}

/// Works on a goal that waits, and puts those that have to be worked on because of it on the
/// agenda.
fn step(
    auto: &Auto,
    goals: &mut Goals,
    goal: GoalId,
    agenda: &mut Vec<GoalId>,
    store: &mut Store,
    answers: &mut Answers,
) -> Result<(), NoMemory>
    requires can { CanWork auto.now store.old goals.old answers.old }
    requires goal { IsWaitingIn goals.old.rows.items goal }
    requires agenda { AllByRecursion (IsGoalBelow (length goals.old.rows.items)) agenda.old.items }
    ensures progresses { Progresses auto.now store.old store.new goals.old goals.new }
    ensures agenda { OnOk result (AllByRecursion (IsGoalBelow (length goals.new.rows.items)) agenda.new.items) }
    ensures settles { OnOk result (Settles auto.now store.new goals.old goals.new answers.new) }
{
    let count = goals.rows.len();
    work(*agenda.allocator(), auto, goals, goal, store, answers)?;
    list_woken(goals, goal, agenda)?;
    list_new(&goals.rows, count, agenda)?;
    Ok(())
}

/// The next goal of the agenda that waits.
fn next_waiting(goals: &Goals, agenda: &mut Vec<GoalId>) -> Option<GoalId>
    requires { AllByRecursion (IsGoalBelow (length goals.now.rows.items)) agenda.old.items }
    ensures agenda { AllByRecursion (IsGoalBelow (length goals.now.rows.items)) agenda.new.items }
    ensures waits { IfSome result (IsWaitingIn goals.now.rows.items) }
{
    while let Some(goal) = agenda.pop() {
        if let Standing::Waiting = goals.standing(goal) {
            return Some(goal);
        }
    }
    None
}

/// Puts the goals from a number on on the agenda.
fn list_new(rows: &[Row], first: usize, agenda: &mut Vec<GoalId>) -> Result<(), NoMemory>
    requires { AllByRecursion (IsGoalBelow (length rows.now)) agenda.old.items }
    ensures { AllByRecursion (IsGoalBelow (length rows.now)) agenda.new.items }
{
    for number in first..rows.len() {
        agenda.push(GoalId { number })?;
    }
    Ok(())
}

/// The link of this number.
fn link_at(links: &[Link], number: usize) -> Link
    requires { number < length links.now }
    ensures { slice_get links.now number ≡ Some result }
{
    links[number]
}

/// Puts the dependents of a refuted goal that wait on the agenda.
fn list_woken(goals: &Goals, goal: GoalId, agenda: &mut Vec<GoalId>) -> Result<(), NoMemory>
    requires whole { IsWhole goals.now }
    requires goal { goal.number < length goals.now.rows.items }
    requires agenda { AllByRecursion (IsGoalBelow (length goals.now.rows.items)) agenda.old.items }
    ensures { AllByRecursion (IsGoalBelow (length goals.now.rows.items)) agenda.new.items }
{
    let Standing::Refuted(_) = goals.standing(goal) else {
        return Ok(());
    };
    let row = &goals.rows[goal.number];
    let mut at = row.dependents;
    while let Some(number) = at {
        let link = link_at(&goals.links, number);
        if let Standing::Waiting = goals.standing(link.case.goal) {
            agenda.push(link.case.goal)?;
        }
        at = link.next;
    }
    Ok(())
}

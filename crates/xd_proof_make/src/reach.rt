//! The goals that a goal leads to through leaves, numbered.

ghost use Rattle.std.specs.Prelude.{◌≡◌, ◌<◌, ℕ, Bool, true, [], length, IfOk, OnOk};
ghost use Rattle.std.specs.List.{AllByRecursion};
ghost use Rattle.xd_goals.specs.Rows.{row_at};
ghost use Rattle.xd_goals.specs.Reached.{HaveTreesWithin};
ghost use Rattle.xd_proof_make.specs.Met.{AllPass, AreReached, IsMet, IsStepTo, LeadsTo, MeetsMore};

use crate::steps::table_steps;
use std::alloc::Global;
use xd_doc::NoMemory;
use xd_goals::{Choice, GoalId, Table};
use xd_proof::Step;

/// Goals in the order in which they were met, by their numbers in the table, and for each goal of
/// the table its place among them, from 1, or 0.
#[derive(Drop)]
pub(crate) struct Met {
    pub(crate) order: Vec<usize>,
    pub(crate) numbers: Vec<usize>,
}

/// Meets a goal.
fn meet(met: &mut Met, goal: usize) -> Result<(), NoMemory>
    requires { goal < length met.old.numbers.items }
    ensures more { MeetsMore met.old.order.items met.old.numbers.items met.new.order.items met.new.numbers.items }
    ensures ok { OnOk result (IsMet met.new.numbers.items goal) }
    ensures only { (p : ℕ → Bool) → p goal ≡ true → AllPass p met.old.order.items → AllPass p met.new.order.items }
{
    if met.numbers[goal] == 0 {
        met.order.push(goal)?;
        met.numbers[goal] = met.order.len();
    }
    Ok(())
}

/// Meets the goal that a step names, if it is a leaf.
fn meet_step(met: &mut Met, step: Step) -> Result<(), NoMemory>
    requires { IsStepTo (λ g. g < length met.old.numbers.items) step }
    ensures more { MeetsMore met.old.order.items met.old.numbers.items met.new.order.items met.new.numbers.items }
    ensures ok { OnOk result (IsStepTo (IsMet met.new.numbers.items) step) }
    ensures only { (p : ℕ → Bool) → IsStepTo (λ g. p g ≡ true) step → AllPass p met.old.order.items → AllPass p met.new.order.items }
{
    match step {
        Step::Content(goal) => meet(met, goal as usize),
        Step::Rest(goal) => meet(met, goal as usize),
        Step::Split(_) => Ok(()),
    }
}

/// Meets the goals that some steps name.
fn meet_steps(met: &mut Met, steps: &[Step]) -> Result<(), NoMemory>
    requires { AllByRecursion (IsStepTo (λ g. g < length met.old.numbers.items)) steps.now }
    ensures more { MeetsMore met.old.order.items met.old.numbers.items met.new.order.items met.new.numbers.items }
    ensures ok { OnOk result (AllByRecursion (IsStepTo (IsMet met.new.numbers.items)) steps.now) }
    ensures only { (p : ℕ → Bool) → AllByRecursion (IsStepTo (λ g. p g ≡ true)) steps.now → AllPass p met.old.order.items → AllPass p met.new.order.items }
{
    for step in steps {
        meet_step(met, *step)?;
    }
    Ok(())
}

/// Meets the goals that choice trees name.
fn meet_choices(
    alloc: Global,
    table: &Table,
    met: &mut Met,
    choices: &[Choice],
) -> Result<(), NoMemory>
    requires { HaveTreesWithin table.now.nodes (length met.old.numbers.items) choices.now }
    ensures more { MeetsMore met.old.order.items met.old.numbers.items met.new.order.items met.new.numbers.items }
    ensures ok { OnOk result (AllByRecursion (LeadsTo table.now.nodes (IsMet met.new.numbers.items)) choices.now) }
    ensures only { (p : ℕ → Bool) → AllByRecursion (LeadsTo table.now.nodes (λ g. p g ≡ true)) choices.now → AllPass p met.old.order.items → AllPass p met.new.order.items }
{
    for choice in choices {
        let steps = table_steps(alloc, table, choice.root)?;
        meet_steps(met, &steps)?;
    }
    Ok(())
}

/// No goal of a table with so many.
fn none_met(alloc: Global, count: usize) -> Result<Met, NoMemory>
    ensures sized { IfOk result (λ met. length met.numbers.items ≡ count) }
    ensures none { IfOk result (λ met. (g : ℕ) → IsMet met.numbers.items g → ⊥) }
    ensures empty { IfOk result (λ met. met.order.items ≡ []) }
{
    let mut numbers = Vec::new(alloc);
    for _ in 0..count {
        numbers.push(0)?;
    }
    Ok(Met {
        order: Vec::new(alloc),
        numbers,
    })
}

/// The goals that a goal leads to through leaves, itself first, each once.
pub(crate) fn reach(alloc: Global, table: &Table, start: GoalId) -> Result<Met, NoMemory>
    requires there { start.number < length table.now.rows }
    requires trees { (i : ℕ) → HaveTreesWithin table.now.nodes (length table.now.rows) (row_at table.now.rows i).choices }
    ensures { IfOk result (λ met. AreReached table.now start.number met.order.items met.numbers.items) }
{
    let mut met = none_met(alloc, table.rows())?;
    meet(&mut met, start.number())?;
    let mut next = 0;
    while next < met.order.len() {
        let goal = table.goal(met.order[next]);
        meet_choices(alloc, table, &mut met, table.choices(goal))?;
        next += 1;
    }
    Ok(met)
}

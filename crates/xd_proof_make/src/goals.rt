//! Goals of a table as goals of a proof.

ghost use Rattle.std.specs.Prelude.{◌≡◌, ◌<◌, ℕ, true, map, length, IfOk, OnOk};
ghost use Rattle.std.specs.List.{AllByRecursion, AllZip, list_any};
ghost use Rattle.xd_auto.specs.Automaton.{Automaton, IsState};
ghost use Rattle.xd_state_heads.specs.Moves.{AreBelow, is_last_in};
ghost use Rattle.xd_goals.specs.Rows.{row_at};
ghost use Rattle.xd_heads.specs.CellsView.{CellsView};
ghost use Rattle.xd_heads.specs.Growing.{GrowsTypes};
ghost use Rattle.xd_heads.specs.Mirrors.{IsTypeState, Mirrors};
ghost use Rattle.xd_syntax.specs.Kept.{ProgramTable};
ghost use Rattle.xd_proof_make.specs.Few.{AreFew, AreFewMoves};
ghost use Rattle.xd_proof_make.specs.Known.{AreKnown, HasKnown, IsIdOf, KeepsKnown};
ghost use Rattle.xd_proof_make.specs.Made.{CanWrite, HasTypes, IsEmptyRight, IsGoalMade, IsTypedRow};

use crate::cases::write_cases;
use crate::places::{all_sorts, right_places};
use crate::states::{learn, learn_all, type_of};
use std::alloc::Global;
use xd_auto::{Auto, LabelMove, State, TextMove};
use xd_doc::NoMemory;
use xd_goals::{GoalId, Table};
use xd_heads::Cells;
use xd_proof::ProofGoal;
use xd_sound::SoundProgram;
use xd_syntax::TypeId;

/// The number of the first right that can be empty, where the left can be.
fn empty_right(auto: &Auto, left: State, rights: &[State]) -> Option<u64>
    requires left { IsState auto.now left }
    requires rights { AreBelow (length auto.now) rights.now }
    requires covered { is_last_in auto.now left ≡ true → list_any (is_last_in auto.now) rights.now ≡ true }
    ensures { IsEmptyRight auto.now left rights.now result }
{
    if !auto.is_last(left) {
        return None;
    }
    for (index, right) in rights.iter().enumerate() {
        if auto.is_last(*right) {
            return Some(index as u64 + 1);
        }
    }
    unreachable!()
}

/// The types of states.
fn type_ids(
    alloc: Global,
    states: &[Option<TypeId>],
    wanted: &[State],
) -> Result<Vec<TypeId>, NoMemory>
    requires { AllByRecursion (HasKnown states.now) wanted.now }
    ensures { IfOk result (λ ids. AllZip (IsIdOf states.now) ids.items wanted.now) }
{
    let mut ids = Vec::new(alloc);
    for state in wanted {
        ids.push(type_of(states, *state))?;
    }
    Ok(ids)
}

/// No more moves fit into memory.
fn see_few_moves(labels: &[LabelMove], texts: &[TextMove])
    ensures { AreFewMoves labels.now texts.now }
{}

/// A goal of the table as a goal of a proof, where goals have these numbers.
fn write_goal(
    alloc: Global,
    cells: &Cells,
    auto: &Auto,
    table: &Table,
    states: &[Option<TypeId>],
    numbers: &[usize],
    goal: GoalId,
) -> Result<ProofGoal, NoMemory>
    requires there { goal.number < length table.now.rows }
    requires can { CanWrite cells.now auto.now table.now states.now numbers.now goal.number }
    ensures { IfOk result (λ made. (p : ProgramTable) → Mirrors p cells.now auto.now → AreKnown p cells.now states.now → IsGoalMade p cells.now auto.now table.now.nodes numbers.now (row_at table.now.rows goal.number) made) }
{
    let left = table.left(goal);
    let rights = table.rights(goal);
    let sorts = all_sorts(alloc, cells, rights)?;
    let places = right_places(alloc, &sorts)?;
    let labels = auto.label_moves(left);
    see_few_moves(labels, auto.text_moves(left));
    let cases = write_cases(
        alloc,
        table,
        numbers,
        &places,
        cells.sorts(left),
        labels.len(),
        table.choices(goal),
    )?;
    Ok(ProofGoal {
        line: 1,
        left: type_of(states, left),
        rights: type_ids(alloc, states, rights)?,
        empty_right: empty_right(auto, left, rights),
        cases,
    })
}

/// No more goals fit into memory.
fn see_few(goals: &[ProofGoal])
    ensures { AreFew goals.now }
{}

/// Goals of the table as goals of a proof.
pub(crate) fn write_goals(
    alloc: Global,
    cells: &Cells,
    auto: &Auto,
    table: &Table,
    states: &[Option<TypeId>],
    numbers: &[usize],
    goals: &[usize],
) -> Result<Vec<ProofGoal>, NoMemory>
    requires there { AllByRecursion (λ g. g < length table.now.rows) goals.now }
    requires can { AllByRecursion (CanWrite cells.now auto.now table.now states.now numbers.now) goals.now }
    ensures made { IfOk result (λ made. (p : ProgramTable) → Mirrors p cells.now auto.now → AreKnown p cells.now states.now → AllZip (λ g m. IsGoalMade p cells.now auto.now table.now.nodes numbers.now (row_at table.now.rows g) m) goals.now made.items) }
    ensures few_goals { IfOk result (λ made. AreFew made.items) }
    ensures few_states { AreFew states.now }
{
    let mut made = Vec::new(alloc);
    for number in goals {
        let goal = table.goal(*number);
        made.push(write_goal(alloc, cells, auto, table, states, numbers, goal)?)?;
    }
    see_few(&made);
    Ok(made)
}

/// Finds the types of the states of goals.
pub(crate) fn learn_goals(
    sound: &mut SoundProgram,
    cells: &Cells,
    table: &Table,
    states: &mut Vec<Option<TypeId>>,
    goals: &[usize],
) -> Result<(), NoMemory>
    requires mirrors { (a : Automaton) × Mirrors sound.old cells.now a }
    requires there { AllByRecursion (λ g. g < length table.now.rows) goals.now }
    requires types { AllByRecursion (λ g. IsTypedRow cells.now (length states.old.items) (row_at table.now.rows g)) goals.now }
    ensures known { AreKnown sound.old cells.now states.old.items → AreKnown sound.new cells.now states.new.items }
    ensures has { OnOk result (AllByRecursion (λ g. HasTypes states.new.items (row_at table.now.rows g)) goals.now) }
    ensures keeps { KeepsKnown states.old.items states.new.items }
    ensures grows { GrowsTypes sound.old sound.new }
{
    for number in goals {
        let goal = table.goal(*number);
        learn(sound, cells, states, table.left(goal))?;
        learn_all(sound, cells, states, table.rights(goal))?;
    }
    Ok(())
}

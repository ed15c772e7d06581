//! A proof of a goal that holds.

ghost use Rattle.std.specs.Prelude.{◌≡◌, length, IfOk};
ghost use Rattle.xd_goals.specs.Reached.{IsSettled};
ghost use Rattle.xd_goals.specs.Rows.{row_at};
ghost use Rattle.xd_goals.specs.Standing.{StandsOnAutomaton};
ghost use Rattle.xd_heads.specs.Growing.{GrowsTypes};
ghost use Rattle.xd_heads.specs.Mirrors.{Mirrors};
ghost use Rattle.xd_syntax.specs.Kept.{AddsTypes, program_tree};
ghost use Rattle.xd_syntax.specs.ShallowTables.{IsShallow};
ghost use Rattle.xd_proof_make.specs.Made.{IsOfTypes, IsProofOf};

use crate::goals::{learn_goals, write_goals};
use crate::reach::reach;
use crate::states::nothing_known;
use std::alloc::Global;
use xd_auto::Auto;
use xd_doc::NoMemory;
use xd_goals::{GoalId, Table};
use xd_heads::Cells;
use xd_proof::Proof;
use xd_sound::SoundProgram;

/// A proof of what a goal claims: its goals are those that the goal leads to through leaves, itself
/// first, each once, between the types of their states. Types are added to the program for them,
/// and stay after `NoMemory`, too; each goal begins on line 1.
///
/// The goal holds and leads through leaves to goals alone that hold, the table stands on the
/// automaton, and the cells mirror it.
pub fn proof_of(
    alloc: Global,
    sound: &mut SoundProgram,
    cells: &Cells,
    auto: &Auto,
    table: &Table,
    goal: GoalId,
) -> Result<Proof, NoMemory>
    requires mirrors { Mirrors sound.old cells.now auto.now }
    requires stands { StandsOnAutomaton auto.now table.now }
    requires settled { IsSettled table.now goal.number }
    requires types { IsOfTypes cells.now (row_at table.now.rows goal.number) }
    ensures proof { IfOk result (IsProofOf sound.new cells.now table.now goal.number) }

    // after `NoMemory` too
    ensures adds { AddsTypes sound.old sound.new }
    ensures same { program_tree sound.new ≡ program_tree sound.old }
    ensures shallow { IsShallow sound.old.types → IsShallow sound.new.types }
{
    table.see_lists();
    let reached = reach(alloc, table, goal)?;
    let mut states = nothing_known(alloc, auto.len())?;
    learn_goals(sound, cells, table, &mut states, &reached.order)?;
    let _program = sound.program();
    let goals = write_goals(
        alloc,
        cells,
        auto,
        table,
        &states,
        &reached.numbers,
        &reached.order,
    )?;
    Ok(Proof::new(goals))
}

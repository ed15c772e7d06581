//! The proof text of a goal that holds.

ghost use Rattle.std.specs.Prelude.{◌≡◌, ◌++◌, ℕ, List, OnOk, OnErr};
ghost use Rattle.xd_goals.specs.Reached.{IsSettled};
ghost use Rattle.xd_goals.specs.Rows.{row_at};
ghost use Rattle.xd_goals.specs.Standing.{StandsOnAutomaton};
ghost use Rattle.xd_heads.specs.Mirrors.{Mirrors, continuation_of};
ghost use Rattle.xd_syntax.specs.Kept.{AddsTypes, program_tree};
ghost use Rattle.xd_syntax.specs.ShallowTables.{IsShallow};
ghost use Rattle.xd_proof_make.specs.Made.{IsOfTypes};
ghost use Rattle.xd_proof_make.specs.ProofText.{ProvesRow, UsesKnownNames};

use crate::make::proof_of;
use std::alloc::Global;
use xd_auto::Auto;
use xd_doc::NoMemory;
use xd_goals::{GoalId, Table};
use xd_heads::Cells;
use xd_proof_write::second_text;
use xd_sound::SoundProgram;

/// Appends a proof text, in the second format, of what a goal claims: the goals are those that the
/// goal leads to through leaves, itself first, between the types of their states. Types are added
/// to the program for that.
///
/// The goal holds and leads through leaves to goals alone that hold, as one does with which
/// `decide` answers; the table stands on the automaton, which the cells mirror; no type of the
/// program is nested deeper than a text may be. The types of the goal's states use names that the
/// program defines, since a proof text that uses others is no proof text of the program; then the
/// types of all the goals do. After `NoMemory` `out` is as it was.
pub fn proof_text(
    alloc: Global,
    sound: &mut SoundProgram,
    cells: &Cells,
    auto: &Auto,
    table: &Table,
    goal: GoalId,
    out: &mut Vec<u8>,
) -> Result<(), NoMemory>
    requires shallow { IsShallow sound.old.types }
    requires mirrors { Mirrors sound.old cells.now auto.now }
    requires stands { StandsOnAutomaton auto.now table.now }
    requires settled { IsSettled table.now goal.number }
    requires types { IsOfTypes cells.now (row_at table.now.rows goal.number) }
    requires names { UsesKnownNames (program_tree sound.old) (continuation_of sound.old.types cells.now) (row_at table.now.rows goal.number) }
    ensures text { OnOk result ((text : List ℕ) × (out.new.items ≡ out.old.items ++ text) × ProvesRow (program_tree sound.old) (continuation_of sound.old.types cells.now) (row_at table.now.rows goal.number) text) }
    ensures err { OnErr result (out.new.items ≡ out.old.items) }

    // after `NoMemory` too
    ensures adds { AddsTypes sound.old sound.new }
    ensures same { program_tree sound.new ≡ program_tree sound.old }
    ensures stays_shallow { IsShallow sound.new.types }
{
    let proof = proof_of(alloc, sound, cells, auto, table, goal)?;
    second_text(alloc, sound, &proof, out)
}

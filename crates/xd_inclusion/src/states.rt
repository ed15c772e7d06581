//! The states of two types, and what is asked of them.

ghost use Rattle.std.specs.Prelude.{◌≡◌, IfOk, OnOk};
ghost use Rattle.xd_goals.specs.Reached.{IsSettled};
ghost use Rattle.xd_goals.specs.Rows.{row_at};
ghost use Rattle.xd_goals.specs.Standing.{StandsOnAutomaton};
ghost use Rattle.xd_heads.specs.Mirrors.{Mirrors, continuation_of};
ghost use Rattle.xd_syntax.specs.Kept.{AddsTypes, program_tree};
ghost use Rattle.xd_syntax.specs.ShallowTables.{IsShallow};
ghost use Rattle.xd_syntax.specs.Types as types;
ghost use Rattle.xd_proof_make.specs.Made.{IsOfTypes};
ghost use Rattle.xd_proof_make.specs.ProofText.{ProvesRow, UsesKnownNames};
ghost use Rattle.xd_inclusion.specs.States.{IsStateOf};

use std::alloc::Global;
use xd_auto::{Auto, State};
use xd_doc::NoMemory;
use xd_goals::{GoalId, Table};
use xd_heads::{Cells, compile_type};
use xd_proof_make::proof_text;
use xd_sound::SoundProgram;
use xd_syntax::TypeId;

/// States that accept exactly the documents that fit these types.
pub(crate) fn compile_both(
    alloc: Global,
    sound: &mut SoundProgram,
    left: TypeId,
    right: TypeId,
    cells: &mut Cells,
    auto: &mut Auto,
) -> Result<(State, State), NoMemory>
    requires left { types.BelongsTo sound.old.types left }
    requires right { types.BelongsTo sound.old.types right }
    requires mirrors { Mirrors sound.old cells.old auto.old }
    ensures left { IfOk result (λ states. IsStateOf sound.new cells.new auto.new (types.tree sound.old.types left) states.0) }
    ensures right { IfOk result (λ states. IsStateOf sound.new cells.new auto.new (types.tree sound.old.types right) states.1) }
    ensures mirrors { OnOk result (Mirrors sound.new cells.new auto.new) }
    ensures adds { AddsTypes sound.old sound.new }
    ensures same { program_tree sound.new ≡ program_tree sound.old }
    ensures shallow { IsShallow sound.old.types → IsShallow sound.new.types }
{
    let one = compile_type(alloc, sound, cells, auto, left)?;
    let other = compile_type(alloc, sound, cells, auto, right)?;
    Ok((one, other))
}

/// A proof text of a goal that holds.
pub(crate) fn prove_goal(
    alloc: Global,
    sound: &mut SoundProgram,
    cells: &Cells,
    auto: &Auto,
    table: &Table,
    goal: GoalId,
) -> Result<Vec<u8>, NoMemory>
    requires shallow { IsShallow sound.old.types }
    requires mirrors { Mirrors sound.old cells.now auto.now }
    requires stands { StandsOnAutomaton auto.now table.now }
    requires settled { IsSettled table.now goal.number }
    requires types { IsOfTypes cells.now (row_at table.now.rows goal.number) }
    requires names { UsesKnownNames (program_tree sound.old) (continuation_of sound.old.types cells.now) (row_at table.now.rows goal.number) }
    ensures text { IfOk result (λ text. ProvesRow (program_tree sound.old) (continuation_of sound.old.types cells.now) (row_at table.now.rows goal.number) text.items) }
    ensures adds { AddsTypes sound.old sound.new }
    ensures same { program_tree sound.new ≡ program_tree sound.old }
    ensures shallow { IsShallow sound.new.types }
{
    let mut text = Vec::new(alloc);
    proof_text(alloc, sound, cells, auto, table, goal, &mut text)?;
    Ok(text)
}

//! Proofs that a type is included in another.

ghost use Rattle.xd_goals.specs.Reached.{IsSettled};
ghost use Rattle.xd_goals.specs.Rows.{row_at};
ghost use Rattle.xd_goals.specs.Standing.{StandsOnAutomaton};
ghost use Rattle.xd_heads.specs.Mirrors.{Mirrors, continuation_of};
ghost use Rattle.xd_proof_make.specs.Made.{IsOfTypes};
ghost use Rattle.xd_proof_make.specs.ProofText.{UsesKnownNames};
ghost use Rattle.xd_syntax.specs.Kept.{program_tree};
ghost use Rattle.xd_syntax.specs.ShallowTables.{IsShallow};
ghost use Rattle.xd_calls_proofs.specs.Known.{IsKnownState, IsKnownType};

use crate::states::{both_states, named_type, program_of};
use std::io::Write;
use xd_auto::{Auto, State};
use xd_calls_lines::{Call, CallError};
use xd_doc::Store;
use xd_goals::{GoalId, Table, Verdict, decide, new_tables_stand};
use xd_heads::Cells;
use xd_proof_make::{proof_of, proof_text};
use xd_sound::SoundProgram;
use xd_syntax::TypeId;

/// `proof_text LEFT RIGHT`: a proof text that the one type is included in the other; `proof_of LEFT
/// RIGHT`: how many goals such a proof has.
pub fn show_proof(call: &Call<'_>, out: &mut Vec<u8>) -> Result<(), CallError> {
    let mut sound = program_of(call)?;
    let left = named_type(call, 0, &mut sound)?;
    let right = named_type(call, 1, &mut sound)?;
    show_inclusion(call, &mut sound, left, right, out)
}

fn show_inclusion(
    call: &Call<'_>,
    sound: &mut SoundProgram,
    left: TypeId,
    right: TypeId,
    out: &mut Vec<u8>,
) -> Result<(), CallError>
    requires shallow { IsShallow sound.old.types }
    requires left { IsKnownType sound.old left }
    requires right { IsKnownType sound.old right }
{
    let mut cells = Cells::new(call.alloc);
    let mut auto = Auto::new(call.alloc);
    let (one, other) = both_states(call.alloc, sound, &mut cells, &mut auto, left, right)?;
    prove_states(call, sound, &cells, &auto, one, other, out)
}

/// The proof that what the one state accepts is accepted by the other.
fn prove_states(
    call: &Call<'_>,
    sound: &mut SoundProgram,
    cells: &Cells,
    auto: &Auto,
    left: State,
    right: State,
    out: &mut Vec<u8>,
) -> Result<(), CallError>
    requires shallow { IsShallow sound.old.types }
    requires mirrors { Mirrors sound.old cells.now auto.now }
    requires left { IsKnownState sound.old cells.now auto.now left }
    requires right { IsKnownState sound.old cells.now auto.now right }
{
    let mut store = Store::new(call.alloc);
    let mut table = Table::new(call.alloc);
    new_tables_stand(auto, &store);
    match decide(call.alloc, auto, &mut table, left, &[right], &mut store)? {
        Verdict::Included(goal) => show_goal(call, sound, cells, auto, &table, goal, out),
        Verdict::Separated(_) => Err(CallError::Words),
    }
}

/// The proof of a goal.
fn show_goal(
    call: &Call<'_>,
    sound: &mut SoundProgram,
    cells: &Cells,
    auto: &Auto,
    table: &Table,
    goal: GoalId,
    out: &mut Vec<u8>,
) -> Result<(), CallError>
    requires shallow { IsShallow sound.old.types }
    requires mirrors { Mirrors sound.old cells.now auto.now }
    requires stands { StandsOnAutomaton auto.now table.now }
    requires settled { IsSettled table.now goal.number }
    requires types { IsOfTypes cells.now (row_at table.now.rows goal.number) }
    requires names { UsesKnownNames (program_tree sound.old) (continuation_of sound.old.types cells.now) (row_at table.now.rows goal.number) }
{
    match call.name {
        "proof_text" => Ok(proof_text(call.alloc, sound, cells, auto, table, goal, out)?),
        "proof_of" => {
            let proof = proof_of(call.alloc, sound, cells, auto, table, goal)?;
            writeln!(out, "{} goals", proof.goals().len())?;
            Ok(())
        }
        _ => Err(CallError::Call),
    }
}

//! Proofs as texts of the second format.

ghost use Rattle.std.specs.Prelude.{◌≡◌, ◌++◌, List, ℕ, map, flat_map, IfOk, OnOk, OnErr};
ghost use Rattle.std.specs.List.{AllByRecursion};
ghost use Rattle.std.specs.Str.{bytes_eq};
ghost use Rattle.xd_syntax.specs.Types.{BelongsTo};
ghost use Rattle.xd_meaning.specs.Violation.{Lined, goals_of};
ghost use Rattle.xd_proof.specs.Goals.{AreGoalsAt, GoalBelongs, GoalsBelong};
ghost use Rattle.xd_proof_write.specs.SecondText.{number_among, second_text_of};
ghost use Rattle.xd_proof_write.specs.Laws.{AreWritable, SpellsGoals};
ghost use Rattle.xd_proof_write.specs.Written.{texts_in, with_texts, text_at, goal_texts, KnowsNumbers, right_lines, goal_lines, goals_lines, proof_lines};

use crate::lines::{write_cases, write_empty_line, write_number_line};
use crate::numbers::Numbers;
use std::alloc::Global;
use xd_doc::NoMemory;
use xd_proof::{Proof, ProofGoal};
use xd_sound::SoundProgram;
use xd_syntax::{TypeId, Types};

/// Appends the goals of a proof, whose types are types of the program, in the second format, where
/// each type is listed once, as it first comes up, and goals name it by its number.
///
/// After `NoMemory` `out` is as it was.
pub fn second_text(
    alloc: Global,
    sound: &SoundProgram,
    proof: &Proof,
    out: &mut Vec<u8>,
) -> Result<(), NoMemory>
    requires { GoalsBelong sound.now.types proof.now }
    ensures text { (lined : List Lined) → AreGoalsAt sound.now.types proof.now lined → OnOk result (out.new.items ≡ out.old.items ++ second_text_of (goals_of lined)) }
    ensures err { OnErr result (out.new.items ≡ out.old.items) }

    // The appended text reads back, where a proof text can have these goals.
    ensures reads { (known : List (List ℕ)) (lined : List Lined) → AreGoalsAt sound.now.types proof.now lined → AreWritable known (goals_of lined) → OnOk result ((text : List ℕ) × (out.new.items ≡ out.old.items ++ text) × SpellsGoals known text (goals_of lined)) }
{
    let types = sound.program().types();
    types.see_table();
    let made = text_of(alloc, types, proof.goals())?;
    out.extend_from_slice(&made)?;
    Ok(())
}

fn text_of(alloc: Global, types: &Types, goals: &[ProofGoal]) -> Result<Vec<u8>, NoMemory>
    requires { GoalsBelong types.now goals.now }
    ensures { IfOk result (λ made. made.items ≡ proof_lines types.now goals.now) }
{
    let mut numbers = Numbers::new(alloc);
    let mut goal_lines = Vec::new(alloc);
    write_goals(types, goals, &mut numbers, &mut goal_lines)?;
    let mut made = Vec::from_slice(alloc, b"xduce-proof 2\n")?;
    write_number_line("types", numbers.len() as u64, &mut made)?;
    numbers.write_types(&mut made)?;
    write_number_line("goals", goals.len() as u64, &mut made)?;
    made.extend_from_slice(&goal_lines)?;
    made.extend_from_slice(b"end\n")?;
    Ok(made)
}

/// Appends the lines of goals, whose types get their numbers.
fn write_goals(
    types: &Types,
    goals: &[ProofGoal],
    numbers: &mut Numbers,
    out: &mut Vec<u8>,
) -> Result<(), NoMemory>
    requires belong { GoalsBelong types.now goals.now }
    requires knows { KnowsNumbers types.now numbers.old }
    ensures texts { OnOk result (texts_in numbers.new ≡ with_texts (texts_in numbers.old) (flat_map (goal_texts types.now) goals.now)) }
    ensures lines { OnOk result ((more : List (List ℕ)) → out.new.items ≡ out.old.items ++ goals_lines types.now (number_among bytes_eq (texts_in numbers.new ++ more)) 1 goals.now) }
    ensures knows { OnOk result (KnowsNumbers types.now numbers.new) }
{
    for (i, goal) in goals.iter().enumerate() {
        write_goal(types, i as u64 + 1, goal, numbers, out)?;
    }
    Ok(())
}

fn write_goal(
    types: &Types,
    number: u64,
    goal: &ProofGoal,
    numbers: &mut Numbers,
    out: &mut Vec<u8>,
) -> Result<(), NoMemory>
    requires belongs { GoalBelongs types.now goal.now }
    requires knows { KnowsNumbers types.now numbers.old }
    ensures texts { OnOk result (texts_in numbers.new ≡ with_texts (texts_in numbers.old) (goal_texts types.now goal.now)) }
    ensures lines { OnOk result ((more : List (List ℕ)) → out.new.items ≡ out.old.items ++ goal_lines types.now (number_among bytes_eq (texts_in numbers.new ++ more)) number goal.now) }
    ensures knows { OnOk result (KnowsNumbers types.now numbers.new) }
{
    write_number_line("goal", number, out)?;
    let left = numbers.number(types, goal.left)?;
    write_number_line("left", left, out)?;
    write_rights(types, &goal.rights, numbers, out)?;
    write_empty_line(goal.empty_right, out)?;
    write_cases(&goal.cases, out)?;
    Ok(())
}

fn write_rights(
    types: &Types,
    rights: &[TypeId],
    numbers: &mut Numbers,
    out: &mut Vec<u8>,
) -> Result<(), NoMemory>
    requires belong { AllByRecursion (BelongsTo types.now) rights.now }
    requires knows { KnowsNumbers types.now numbers.old }
    ensures texts { OnOk result (texts_in numbers.new ≡ with_texts (texts_in numbers.old) (map (text_at types.now) rights.now)) }
    ensures lines { OnOk result ((more : List (List ℕ)) → out.new.items ≡ out.old.items ++ right_lines types.now (number_among bytes_eq (texts_in numbers.new ++ more)) rights.now) }
    ensures knows { OnOk result (KnowsNumbers types.now numbers.new) }
{
    for right in rights {
        let number = numbers.number(types, *right)?;
        write_number_line("right", number, out)?;
    }
    Ok(())
}

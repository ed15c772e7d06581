//! The heads of goals.

ghost use Rattle.std.specs.Prelude.{◌≡◌, ◌<◌, ◌++◌, length, IfOk, OnOk};
ghost use Rattle.std.specs.List.{AllByRecursion};
ghost use Rattle.xd_syntax.specs.Kept.{program_tree};
ghost use Rattle.xd_syntax.specs.Program.{names_of};
ghost use Rattle.xd_heads.specs.Numbered.{KeepsNumbers, Serves};
ghost use Rattle.xd_syntax.specs.declared.types.TypeId.{TypeId};
ghost use Rattle.xd_proof_check.specs.GoalHeads.{AreGoalHeads, AreHeadsOf};
ghost use Rattle.xd_proof_check.specs.Leaves.{GoalBelongs};

use std::alloc::Global;
use xd_doc::NoMemory;
use xd_heads::{HeadLister, NumberedHead};
use xd_proof::ProofGoal;
use xd_syntax::{Program, TypeId};

/// The heads of a goal's left, and those of its rights, one list after the other.
#[derive(Drop)]
pub(crate) struct GoalHeads {
    pub left: Vec<NumberedHead>,
    pub rights: Vec<NumberedHead>,
}

/// The heads of a goal.
pub(crate) fn goal_heads(
    alloc: Global,
    program: &Program,
    lister: &mut HeadLister,
    goal: &ProofGoal,
) -> Result<GoalHeads, NoMemory>
    requires belongs { GoalBelongs (length program.now.types) goal.now }
    requires serves { Serves program.now lister.old }
    ensures heads { IfOk result (AreGoalHeads program.now.types lister.new.cells (names_of (program_tree program.now)) goal.now) }
    ensures serves { OnOk result (Serves program.now lister.new) }
{
    let left = lister.heads(program, goal.left)?;
    let rights = heads_of_all(alloc, program, lister, &goal.rights)?;
    Ok(GoalHeads { left, rights })
}

/// The heads of these types, one list after the other.
fn heads_of_all(
    alloc: Global,
    program: &Program,
    lister: &mut HeadLister,
    types: &[TypeId],
) -> Result<Vec<NumberedHead>, NoMemory>
    requires belong { AllByRecursion (λ (id : TypeId). id.at < length program.now.types) types.now }
    requires serves { Serves program.now lister.old }
    ensures heads { IfOk result (λ made. AreHeadsOf program.now.types lister.new.cells (names_of (program_tree program.now)) types.now made.items) }
    ensures serves { OnOk result (Serves program.now lister.new) }
    ensures keeps { OnOk result (KeepsNumbers lister.old lister.new) }
{
    let mut made = Vec::new(alloc);
    for id in types {
        let more = lister.heads(program, *id)?;
        push_heads(&mut made, more)?;
    }
    Ok(made)
}

fn push_heads(made: &mut Vec<NumberedHead>, more: Vec<NumberedHead>) -> Result<(), NoMemory>
    ensures { OnOk result (made.new.items ≡ made.old.items ++ more.items) }
{
    for head in more {
        made.push(head)?;
    }
    Ok(())
}

//! Choice trees of a table, as steps in prefix order.

ghost use Rattle.std.specs.Prelude.{◌≡◌, ◌<◌, length, IfOk};
ghost use Rattle.xd_rules.specs.Rules.{ChoiceTree};
ghost use Rattle.xd_goals.specs.Trees.{StandsAt};
ghost use Rattle.xd_proof_make.specs.Steps.{HasTree, IsOpened, table_steps};

use std::alloc::Global;
use xd_doc::NoMemory;
use xd_goals::{ChoiceNode, Table};
use xd_proof::Step;

/// The step that a node is. The parts of a split are put on the stack, the first of them on top.
fn open_node(table: &Table, number: usize, stack: &mut Vec<usize>) -> Result<Step, NoMemory>
    requires { number < length table.now.nodes }
    ensures { IfOk result (λ step. IsOpened table.now.nodes number step stack.old.items stack.new.items) }
{
    match table.choice_node(number) {
        ChoiceNode::Content(goal) => Ok(Step::Content(goal.number() as u64)),
        ChoiceNode::Rest(goal) => Ok(Step::Rest(goal.number() as u64)),
        ChoiceNode::Split {
            right,
            content,
            rest,
        } => {
            stack.push(rest)?;
            stack.push(content)?;
            Ok(Step::Split(right as u64))
        }
    }
}

/// The steps of the tree at a node, with the table's numbers of goals and of right heads.
pub(crate) fn table_steps(alloc: Global, table: &Table, root: usize) -> Result<Vec<Step>, NoMemory>
    requires { HasTree table.now.nodes root }
    ensures { IfOk result (λ steps. (tree : ChoiceTree) → StandsAt table.now.nodes root tree → steps.items ≡ table_steps tree) }
{
    let mut stack = Vec::new(alloc);
    stack.push(root)?;
    let mut steps = Vec::new(alloc);
    while let Some(number) = stack.pop() {
        let step = open_node(table, number, &mut stack)?;
        steps.push(step)?;
    }
    Ok(steps)
}

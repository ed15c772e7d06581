//! The goals of a proof.

ghost use Rattle.std.specs.Prelude.{◌≡◌, ◌+◌, ◌<◌, ◌≤◌, ◌^◌, List, map, length, IfOk, OnOk};
ghost use Rattle.std.specs.List.{AllByRecursion, AllZip};
ghost use Rattle.std.specs.Option.{IfNone, option_map};
ghost use Rattle.xd_syntax.specs.Kept.{program_tree};
ghost use Rattle.xd_syntax.specs.Program.{names_of};
ghost use Rattle.xd_syntax.specs.Table.{Row};
ghost use Rattle.xd_syntax.specs.Tree.{Definitions};
ghost use Rattle.xd_meaning.specs.Consistent.{Goal, right_heads};
ghost use Rattle.xd_meaning.specs.Heads as laws;
ghost use Rattle.xd_rules.specs.Rules.{numbered, wanted};
ghost use Rattle.xd_meaning.specs.Violation.{Lined, empty_lines};
ghost use Rattle.xd_laws.proofs.FirstWrong.{first_wrong, wrong_cases, wrong_goal};
ghost use Rattle.xd_moves.specs.Cells.{Cell};
ghost use Rattle.xd_heads.specs.Numbered.{Serves};
ghost use Rattle.xd_heads.specs.declared.lister.NumberedHead.{NumberedHead};
ghost use Rattle.xd_syntax.specs.declared.types.TypeId.{TypeId};
ghost use Rattle.xd_proof.specs.Goals.{AreGoalsAt, IsGoalAt, IsLinedAt};
ghost use Rattle.xd_proof.specs.LinesFit.{LinesFit};
ghost use Rattle.xd_proof_check.specs.Corresponds.{IsClaimAt};
ghost use Rattle.xd_proof_check.specs.GoalHeads.{AreGoalHeads};
ghost use Rattle.xd_proof.specs.Kept.{AreTrees};
ghost use Rattle.xd_proof_check.specs.GoalWalk.{GoalFits, Stands, violation_of, empty_marked, right_marked, sheet_of};
ghost use Rattle.xd_proof_check.specs.Leaves.{GoalBelongs, GoalsBelong};
ghost use Rattle.xd_proof_check.specs.Paths.{IsClear};

use crate::cases::{Cases, check_cases};
use crate::heads::{GoalHeads, goal_heads};
use crate::leaves::numbered;
use crate::path::Path;
use crate::verdict::Reason;
use std::alloc::Global;
use xd_doc::NoMemory;
use xd_heads::{HeadLister, NumberedHead};
use xd_proof::ProofGoal;
use xd_syntax::{Program, TypeId};

/// A line at which a rule is broken, and why.
#[derive(Clone, Copy)]
pub(crate) struct Violation {
    pub line: u64,
    pub reason: Reason,
}

/// A proof beside the numbers of its types.
#[derive(Clone, Copy)]
pub(crate) struct Sheet<'a> {
    pub goals: &'a [ProofGoal],
    /// The number of each type of the program.
    pub numbers: &'a [usize],
}

/// The first violation in a proof, if there is one. The heads of a goal are held while it is looked
/// at.
pub(crate) fn check_goals(
    alloc: Global,
    program: &Program,
    lister: &mut HeadLister,
    goals: &[ProofGoal],
) -> Result<Option<Violation>, NoMemory>
    requires serves { Serves program.now lister.old }
    requires belong { GoalsBelong (length program.now.types) goals.now }
    requires trees { AllByRecursion AreTrees goals.now }
    requires lines { AllByRecursion LinesFit goals.now }
    ensures found { IfOk result (λ found. (ls : List Lined) → AreGoalsAt program.now.types goals.now ls → option_map violation_of found ≡ first_wrong (names_of (program_tree program.now)) ls) }
    ensures serves { OnOk result (Serves program.now lister.new) }
{
    let mut path = Path::new(alloc);
    for goal in goals {
        if let Some(violation) = check_goal(alloc, program, lister, goals, goal, &mut path)? {
            return Ok(Some(violation));
        }
    }
    Ok(None)
}

/// The first violation in a goal, if there is one.
fn check_goal(
    alloc: Global,
    program: &Program,
    lister: &mut HeadLister,
    goals: &[ProofGoal],
    goal: &ProofGoal,
    path: &mut Path,
) -> Result<Option<Violation>, NoMemory>
    requires serves { Serves program.now lister.old }
    requires belong { GoalsBelong (length program.now.types) goals.now }
    requires here { GoalBelongs (length program.now.types) goal.now }
    requires trees { AreTrees goal.now }
    requires lines { LinesFit goal.now }
    requires clear { IsClear path.old }
    ensures found { IfOk result (λ found. (gs : List Goal) (l : Lined) → AllZip (IsClaimAt program.now.types) goals.now gs → IsLinedAt program.now.types goal.now l → option_map violation_of found ≡ wrong_goal (names_of (program_tree program.now)) gs l) }
    ensures serves { OnOk result (Serves program.now lister.new) }
    ensures clear { IfOk result (λ found. IfNone found (IsClear path.new)) }
{
    let rights = goal.rights.as_slice();
    let line = goal.line + 2 + rights.len() as u64;
    if !empty_stands(goal, lister.empty_marks()) {
        return Ok(Some(Violation {
            line,
            reason: Reason::Empty,
        }));
    }
    let heads = goal_heads(alloc, program, lister, goal)?;
    path.widen(lister.bound(), heads.rights.len())?;
    let sheet = Sheet {
        goals,
        numbers: lister.numbers(),
    };
    check_cases_of(alloc, &sheet, goal, &heads, line + empty_lines(goal), path)
}

/// The number of lines on the empty document.
fn empty_lines(goal: &ProofGoal) -> u64
    ensures value { result ≡ empty_lines goal.now.empty_right }
    ensures few { result ≤ 1 }
{
    match goal.empty_right {
        None => 0,
        Some(_) => 1,
    }
}

/// Whether the right that the goal names for the empty document is there and can be empty, and so
/// can its left; or where it names none, its left can't be.
fn empty_stands(goal: &ProofGoal, marks: &[bool]) -> bool
    requires left { goal.now.left.at < length marks.now }
    requires rights { AllByRecursion (λ (id : TypeId). id.at < length marks.now) goal.now.rights.items }
    ensures { result ≡ empty_marked marks.now goal.now }
{
    match goal.empty_right {
        None => !marks[goal.left.at()],
        Some(number) => marks[goal.left.at()] && right_is_empty(&goal.rights, number, marks),
    }
}

/// Whether the right with this number is there and can be empty.
fn right_is_empty(rights: &[TypeId], number: u64, marks: &[bool]) -> bool
    requires { AllByRecursion (λ (id : TypeId). id.at < length marks.now) rights.now }
    ensures { result ≡ right_marked marks.now (numbered rights.now number) }
{
    let Some(id) = numbered(rights, number) else {
        return false;
    };
    marks[id.at()]
}

/// The first violation in the cases of a goal, which begin on this line.
fn check_cases_of(
    alloc: Global,
    sheet: &Sheet,
    goal: &ProofGoal,
    heads: &GoalHeads,
    line: u64,
    path: &mut Path,
) -> Result<Option<Violation>, NoMemory>
    requires fits { GoalFits (sheet_of sheet.now) goal.now heads.now path.old }
    requires lines { line + length goal.now.cases.items < 2 ^ 64 }
    requires clear { IsClear path.old }
    ensures found { IfOk result (λ found. (types : List Row) (cells : List Cell) (E : Definitions) (gs : List Goal) (g : Goal) → Stands types cells gs (sheet_of sheet.now) → IsGoalAt types goal.now g → AreGoalHeads types cells E goal.now heads.now → option_map violation_of found ≡ wrong_cases E gs g line (wanted (laws.heads E g.left) (right_heads E g)) g.cases) }
    ensures clear { IfOk result (λ found. IfNone found (IsClear path.new)) }
{
    let contents = content_numbers(alloc, &heads.rights)?;
    let rests = rest_numbers(alloc, &heads.rights)?;
    let cases = Cases {
        goals: sheet.goals,
        numbers: sheet.numbers,
        cases: &goal.cases,
        left: &heads.left,
        rights: &heads.rights,
        contents: &contents,
        rests: &rests,
    };
    match check_cases(alloc, &cases, path)? {
        None => Ok(None),
        Some((at, reason)) => Ok(Some(Violation {
            line: line + at as u64,
            reason,
        })),
    }
}

/// The numbers of the contents of heads.
fn content_numbers(alloc: Global, heads: &[NumberedHead]) -> Result<Vec<usize>, NoMemory>
    ensures { IfOk result (λ made. made.items ≡ map (λ (h : NumberedHead). h.content) heads.now) }
{
    let mut made = Vec::with_capacity(alloc, heads.len())?;
    for head in heads {
        made.push(head.content)?;
    }
    Ok(made)
}

/// Those of their rests.
fn rest_numbers(alloc: Global, heads: &[NumberedHead]) -> Result<Vec<usize>, NoMemory>
    ensures { IfOk result (λ made. made.items ≡ map (λ (h : NumberedHead). h.rest) heads.now) }
{
    let mut made = Vec::with_capacity(alloc, heads.len())?;
    for head in heads {
        made.push(head.rest)?;
    }
    Ok(made)
}

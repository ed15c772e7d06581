//! How far the lines of goals have been read, and which may follow.

ghost use Rattle.std.specs.Prelude.{◌≡◌, ◌==◌, ◌&&◌, ◌+◌, ◌++◌, ◌∷◌, [], ℕ, nat_lt, vec_len, IfOk};
ghost use Rattle.xd_proof_read.specs.declared.stages.Stage.TheVariants as stages;
ghost use Rattle.xd_proof_read.specs.Stages.{LeadsTo};

use crate::said::Said;
use std::alloc::Global;
use xd_doc::NoMemory;
use xd_proof::ProofGoal;

/// The goals that were read to their ends, of so many.
#[derive(Drop)]
pub(crate) struct Ended {
    count: u64,
    goals: Vec<ProofGoal>,
}

/// What comes next.
#[derive(Drop)]
pub(crate) enum Stage {
    /// The number of goals.
    AtCount,
    /// The first line of the first goal, of so many.
    AtFirstGoal(u64),
    /// The left of a goal that began on this line.
    AtLeft(Ended, u64),
    /// More rights of this goal, and what may stand after them.
    InRights(Ended, ProofGoal),
    /// More cases of this goal, and what may stand after them.
    InCases(Ended, ProofGoal),
    /// Nothing.
    AtEnd(Vec<ProofGoal>),
}

impl Stage {
    /// The stage after what this line says, if it may stand there.
    pub(crate) fn next(self, alloc: Global, said: Said, line: u64) -> Result<Option<Self>, NoMemory>
        ensures { IfOk result (LeadsTo self said line) }
    {
        match self {
            Stage::AtCount => Ok(after_title(said)),
            Stage::AtFirstGoal(count) => Ok(after_count(alloc, count, said, line)),
            Stage::AtLeft(ended, begun) => Ok(after_number(alloc, ended, begun, said)),
            Stage::InRights(ended, goal) => after_right(ended, goal, said, line),
            Stage::InCases(ended, goal) => after_case(ended, goal, said, line),
            Stage::AtEnd(_) => Ok(None),
        }
    }
}

impl Ended {
    /// None yet.
    fn none(alloc: Global, count: u64) -> Self
        ensures count { result.count ≡ count }
        ensures goals { result.goals.items ≡ [] }
    {
        Self {
            count,
            goals: Vec::new(alloc),
        }
    }

    /// These and one more.
    fn with(self, goal: ProofGoal) -> Result<Self, NoMemory>
        ensures count { IfOk result (λ made. made.count ≡ self.count) }
        ensures goals { IfOk result (λ made. made.goals.items ≡ self.goals.items ++ goal ∷ []) }
    {
        let mut goals = self.goals;
        goals.push(goal)?;
        Ok(Self {
            count: self.count,
            goals,
        })
    }

    /// Whether the next goal has this number, and is one of them.
    fn goes_on(&self, number: u64) -> bool
        ensures { result ≡ (number == vec_len self.now.goals + 1) && nat_lt (vec_len self.now.goals) self.now.count }
    {
        let many = self.goals.len() as u64;
        number == many + 1 && many < self.count
    }

    /// Whether they are all.
    fn are_all(&self) -> bool
        ensures { result ≡ (self.now.count == vec_len self.now.goals) }
    {
        self.count == self.goals.len() as u64
    }
}

/// What follows where the number of goals is to come.
fn after_title(said: Said) -> Option<Stage>
    ensures { (line : ℕ) → LeadsTo stages.AtCount said line result }
{
    match said {
        Said::Goals(count) => Some(Stage::AtFirstGoal(count)),
        _ => None,
    }
}

/// What follows the number of goals.
fn after_count(alloc: Global, count: u64, said: Said, line: u64) -> Option<Stage>
    ensures { LeadsTo (stages.AtFirstGoal count) said line result }
{
    match said {
        Said::Goal(1) => Some(Stage::AtLeft(Ended::none(alloc, count), line)),
        _ => None,
    }
}

/// What follows the first line of a goal, which is the line `begun`.
fn after_number(alloc: Global, ended: Ended, begun: u64, said: Said) -> Option<Stage>
    ensures { (line : ℕ) → LeadsTo (stages.AtLeft ended begun) said line result }
{
    match said {
        Said::Left(left) => {
            let goal = ProofGoal {
                line: begun,
                left,
                rights: Vec::new(alloc),
                empty_right: None,
                cases: Vec::new(alloc),
            };
            Some(Stage::InRights(ended, goal))
        }
        _ => None,
    }
}

/// What follows the left or a right.
fn after_right(
    ended: Ended,
    goal: ProofGoal,
    said: Said,
    line: u64,
) -> Result<Option<Stage>, NoMemory>
    ensures { IfOk result (LeadsTo (stages.InRights ended goal) said line) }
{
    let mut goal = goal;
    match said {
        Said::Right(right) => {
            goal.rights.push(right)?;
            Ok(Some(Stage::InRights(ended, goal)))
        }
        Said::Empty(number) => {
            goal.empty_right = Some(number);
            Ok(Some(Stage::InCases(ended, goal)))
        }
        said => after_case(ended, goal, said, line),
    }
}

/// What follows the line on being empty, or a case.
fn after_case(
    ended: Ended,
    goal: ProofGoal,
    said: Said,
    line: u64,
) -> Result<Option<Stage>, NoMemory>
    ensures { IfOk result (LeadsTo (stages.InCases ended goal) said line) }
{
    let mut goal = goal;
    match said {
        Said::Case(case) => {
            goal.cases.push(case)?;
            Ok(Some(Stage::InCases(ended, goal)))
        }
        Said::Goal(number) => {
            let ended = ended.with(goal)?;
            if ended.goes_on(number) {
                return Ok(Some(Stage::AtLeft(ended, line)));
            }
            Ok(None)
        }
        Said::End => {
            let ended = ended.with(goal)?;
            if ended.are_all() {
                return Ok(Some(Stage::AtEnd(ended.goals)));
            }
            Ok(None)
        }
        _ => Ok(None),
    }
}

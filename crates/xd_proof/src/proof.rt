//! The goals of a proof, with the numbers of their lines.

ghost use Rattle.std.specs.Prelude.{◌≡◌, ◌<◌, ◌∷◌, List, length};
ghost use Rattle.std.specs.List.{AllByRecursion};
ghost use Rattle.xd_meaning.specs.Violation.{Lined};
ghost use Rattle.xd_syntax.specs.Table.{Row};
ghost use Rattle.xd_proof.specs.Goals.{AreGoalsAt, GoalsBelong};
ghost use Rattle.xd_proof.specs.Kept.{AreTrees};
ghost use Rattle.xd_proof.specs.LinesFit.{LinesFit};
ghost use Rattle.xd_proof.specs.declared.proof.ProofGoal.{ProofGoal};

use crate::cases::ReadCase;
use std::marker::Model;
use xd_syntax::TypeId;

/// A goal: every document that fits the left fits one of the rights, which are types of the program
/// that the proof was read for.
#[derive(Drop)]
pub struct ProofGoal {
    /// The number of its first line, from 1. Its left stands on the next line, then come its
    /// rights, the line on being empty if there is one, and its cases.
    pub line: u64,
    pub left: TypeId,
    pub rights: Vec<TypeId>,
    /// The number of the right that can be empty, from 1.
    pub empty_right: Option<u64>,
    pub cases: Vec<ReadCase>,
}

/// The goals of a proof, one at least. The first is its claim; others are named by their numbers,
/// from 1. Each of their lines, and the line after a goal, has a number below 2^64; and the steps
/// of each case are those of a choice tree.
#[derive(Drop)]
pub struct Proof {
    goals: Vec<ProofGoal>,
}

impl Model for Proof {
    ghost use Rattle.std.specs.Prelude.{List};
    ghost use Rattle.xd_proof.specs.Kept.{IsProof};
    ghost use Rattle.xd_proof.specs.declared.proof.ProofGoal.{ProofGoal};

    ghost Value = { List ProofGoal };

    ghost view = { λ p. p.goals.items };

    ghost invariant = { λ p. IsProof p.goals.items };
}

impl Proof {
    /// One of these goals, of which there is one at least. Their lines must have numbers, since a
    /// checker tells the line at which a rule is broken, and the steps of each case must be those
    /// of a choice tree.
    pub fn new(goals: Vec<ProofGoal>) -> Self
        requires some { 0 < length goals.items }
        requires lines { AllByRecursion LinesFit goals.items }
        requires trees { AllByRecursion AreTrees goals.items }
        ensures { result ≡ goals.items }
    {
        Self { goals }
    }

    /// Its goals, in order.
    pub fn goals(&self) -> &[ProofGoal]
        ensures same { result.now ≡ self.now }
        ensures some { 0 < length self.now }
        ensures lines { AllByRecursion LinesFit self.now }
        ensures trees { AllByRecursion AreTrees self.now }
        // So in a program that has their types they are goals of a proof, one for one.
        ensures goals { (types : List Row) → GoalsBelong types self.now → (goals : List Lined) × AreGoalsAt types self.now goals }
    {
        self.goals.as_slice()
    }

    /// The left of its claim.
    pub fn left(&self) -> TypeId
        ensures { (goal : ProofGoal) (others : List ProofGoal) → self.now ≡ goal ∷ others → result ≡ goal.left }
    {
        self.goals[0].left
    }

    /// The rights of its claim.
    pub fn rights(&self) -> &[TypeId]
        ensures { (goal : ProofGoal) (others : List ProofGoal) → self.now ≡ goal ∷ others → result.now ≡ goal.rights.items }
    {
        self.goals[0].rights.as_slice()
    }
}

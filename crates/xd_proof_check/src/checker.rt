//! Proofs, checked.

ghost use Rattle.std.specs.Prelude.{◌≡◌, ◌↔◌, List, IfOk};
ghost use Rattle.std.specs.List.{AllByRecursion};
ghost use Rattle.std.specs.Option.{option_map};
ghost use Rattle.xd_syntax.specs.Kept.{AddsTypes, program_tree};
ghost use Rattle.xd_syntax.specs.Program.{names_of};
ghost use Rattle.xd_syntax.specs.ShallowTables.{IsShallow};
ghost use Rattle.xd_meaning.specs.Violation.{Lined, goals_of};
ghost use Rattle.xd_meaning.specs.Consistent.{ClaimHolds, IsConsistent};
ghost use Rattle.xd_proof.specs.Goals.{AreGoalsAt, GoalsBelong};
ghost use Rattle.xd_proof_check.specs.GoalWalk.{violation_of, verdict_of};
ghost use Rattle.xd_proof_check.specs.Reasons.{IsVerdict};
ghost use Rattle.xd_proof_check.specs.declared.verdict.ProofVerdict.TheVariants as verdicts;

use crate::check::{Violation, check_goals};
use crate::verdict::ProofVerdict;
use std::alloc::Global;
use xd_doc::NoMemory;
use xd_heads::HeadLister;
use xd_proof::Proof;
use xd_sound::SoundProgram;

/// Whether a proof, whose types are types of the program, is consistent; if not, its first bad line
/// and the reason.
///
/// It uses types and their heads, and neither automata nor a table of goals. What `Any` stands for
/// is added to the program, and stays there after `NoMemory`, too.
///
/// (The rules are those of Hosoya, Vouillon and Pierce, TOPLAS 2005, by which inclusion is decided;
/// proofs as texts, and the order in which their lines are looked at, are this project's own.)
pub fn accepts(
    alloc: Global,
    sound: &mut SoundProgram,
    proof: &Proof,
) -> Result<ProofVerdict, NoMemory>
    requires { GoalsBelong sound.old.types proof.now }

    ensures accepted { IfOk result (λ verdict. (goals : List Lined) → AreGoalsAt sound.old.types proof.now goals → (verdict ≡ verdicts.Accepted) ↔ IsConsistent (names_of (program_tree sound.old)) (goals_of goals)) }
    ensures verdict { IfOk result (λ verdict. (goals : List Lined) → AreGoalsAt sound.old.types proof.now goals → IsVerdict (names_of (program_tree sound.old)) goals verdict) }
    // the inclusions that it claims hold
    ensures holds { IfOk result (λ verdict. (goals : List Lined) → AreGoalsAt sound.old.types proof.now goals → verdict ≡ verdicts.Accepted → AllByRecursion (ClaimHolds (names_of (program_tree sound.old))) (goals_of goals)) }

    // after `NoMemory` too
    ensures adds { AddsTypes sound.old sound.new }
    ensures same { program_tree sound.new ≡ program_tree sound.old }
    ensures shallow { IsShallow sound.old.types → IsShallow sound.new.types }
{
    let mut lister = HeadLister::new(alloc, sound)?;
    let found = check_goals(alloc, sound.program(), &mut lister, proof.goals())?;
    lister.give_back(sound);
    Ok(verdict(found))
}

/// What is found, as a verdict.
fn verdict(found: Option<Violation>) -> ProofVerdict
    ensures { verdict_of result ≡ option_map violation_of found }
{
    match found {
        None => ProofVerdict::Accepted,
        Some(violation) => ProofVerdict::Refused(violation.line, violation.reason),
    }
}

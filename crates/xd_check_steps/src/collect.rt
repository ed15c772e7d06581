//! The patterns of a program's clauses.
//!
//! The nodes are walked by recursion, no deeper than expressions stand in one another.

ghost use Rattle.std.specs.Prelude.{IfOk, OnOk};
ghost use Rattle.std.specs.List.{AllByRecursion};
ghost use Rattle.xd_syntax.specs.Exprs.{clause_numbers, expr_numbers};
ghost use Rattle.xd_patterns.specs.CompiledProgram.{IsLinearPattern};
ghost use Rattle.xd_check_steps.specs.Walkable.{CanBeWalked, ClauseCanBeWalked};

use std::alloc::Global;
use xd_doc::NoMemory;
use xd_pattern_runs::laws::programs_are_linear;
use xd_sound::SoundProgram;
use xd_syntax::{Clause, ExprForm, ExprId, PatternId};

/// The patterns of the clauses in the bodies of all functions.
pub fn patterns_of(alloc: Global, sound: &SoundProgram) -> Result<Vec<PatternId>, NoMemory>
    ensures { IfOk result (λ ids. AllByRecursion (IsLinearPattern sound.now.patterns) ids.items) }
{
    programs_are_linear();
    let mut ids = Vec::new(alloc);
    for function in sound.program().functions() {
        collect(sound, function.body(), &mut ids)?;
    }
    Ok(ids)
}

/// Adds those in an expression.
#[cycle(collecting)]
fn collect(sound: &SoundProgram, id: ExprId, ids: &mut Vec<PatternId>) -> Result<(), NoMemory>
    requires expression { CanBeWalked sound.now id.at }
    requires ids { AllByRecursion (IsLinearPattern sound.now.patterns) ids.old.items }
    ensures { OnOk result (AllByRecursion (IsLinearPattern sound.now.patterns) ids.new.items) }
{
    let node = sound.program().exprs().node(id);
    match node.form() {
        ExprForm::Empty | ExprForm::Text(_) | ExprForm::Var(_) => Ok(()),
        ExprForm::Elem(_, content) => collect(sound, *content, ids),
        ExprForm::Seq(parts) => collect_each(sound, parts, ids),
        ExprForm::Call(_, arguments) => collect_each(sound, arguments, ids),
        ExprForm::Match(scrutinee, clauses) => {
            collect(sound, *scrutinee, ids)?;
            collect_clauses(sound, clauses, ids)
        }
    }
}

/// Adds those in each of these expressions.
#[cycle(collecting)]
fn collect_each(
    sound: &SoundProgram,
    parts: &[ExprId],
    ids: &mut Vec<PatternId>,
) -> Result<(), NoMemory>
    requires parts { AllByRecursion (CanBeWalked sound.now) (expr_numbers parts.now) }
    requires ids { AllByRecursion (IsLinearPattern sound.now.patterns) ids.old.items }
    ensures { OnOk result (AllByRecursion (IsLinearPattern sound.now.patterns) ids.new.items) }
{
    for part in parts {
        collect(sound, *part, ids)?;
    }
    Ok(())
}

/// Adds those of clauses, and those in their bodies.
#[cycle(collecting)]
fn collect_clauses(
    sound: &SoundProgram,
    clauses: &[Clause],
    ids: &mut Vec<PatternId>,
) -> Result<(), NoMemory>
    requires clauses { AllByRecursion (ClauseCanBeWalked sound.now) (clause_numbers clauses.now) }
    requires ids { AllByRecursion (IsLinearPattern sound.now.patterns) ids.old.items }
    ensures { OnOk result (AllByRecursion (IsLinearPattern sound.now.patterns) ids.new.items) }
{
    for clause in clauses {
        ids.push(clause.pattern)?;
        collect(sound, clause.body, ids)?;
    }
    Ok(())
}

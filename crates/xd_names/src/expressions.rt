//! Faults of expressions.

ghost use Rattle.std.specs.Prelude.{◌≡◌, ◌<◌, ◌++◌, length, flat_map, OnOk};
ghost use Rattle.std.specs.List.{AllByRecursion};
ghost use Rattle.xd_syntax.specs.Patterns.{IsPattern};
ghost use Rattle.xd_syntax.specs.PlacedTable.{placed_at};
ghost use Rattle.xd_syntax.specs.Placed.{variables};
ghost use Rattle.xd_syntax.specs.ExpressionTable.{expression_at, clauses_of};
ghost use Rattle.xd_syntax.specs.Exprs.{IsExpr, expr_numbers, clause_numbers, expression};
ghost use Rattle.xd_syntax.specs.NameFaults.{known_types, pattern_faults, expression_faults, clause_faults};
ghost use Rattle.xd_names.specs.Knows.{Knows, whole};

use crate::arities::in_call;
use crate::linear::{not_linear, push_all};
use crate::names::Names;
use crate::scope::Scope;
use crate::types::in_tree;
use crate::words::Words;
use std::alloc::Global;
use xd_doc::NoMemory;
use xd_syntax::{Clause, ExprForm, ExprId, Fault, FaultKind, PatternId, Program};

/// The faults of a clause's pattern. Its variables come into scope.
fn in_clause_pattern(
    alloc: Global,
    program: &Program,
    names: &Names,
    pattern: PatternId,
    scope: &mut Scope,
    faults: &mut Vec<Fault>,
) -> Result<(), NoMemory>
    requires knows { Knows names.now (whole program.now) }
    requires belongs { IsPattern program.now.patterns pattern }
    ensures scope { OnOk result (scope.new ≡ scope.old ++ variables (placed_at program.now.patterns pattern.at)) }
    ensures faults { OnOk result (faults.new.items ≡ faults.old.items ++ pattern_faults (known_types (whole program.now)) (placed_at program.now.patterns pattern.at)) }
{
    let patterns = program.patterns();
    in_tree(patterns, pattern, &names.types, faults)?;
    let mut earlier = Scope::new(alloc);
    let mut partial = Words::new(alloc);
    not_linear(
        alloc,
        patterns,
        pattern,
        false,
        &mut earlier,
        &mut partial,
        faults,
    )?;
    push_all(earlier.variables(), scope)
}

/// The faults of an expression, where these variables are in scope.
#[cycle(expressions)]
pub(crate) fn in_expression(
    alloc: Global,
    program: &Program,
    names: &Names,
    id: ExprId,
    scope: &mut Scope,
    faults: &mut Vec<Fault>,
) -> Result<(), NoMemory>
    requires knows { Knows names.now (whole program.now) }
    requires belongs { IsExpr program.now.exprs id }
    ensures scope { OnOk result (scope.new ≡ scope.old) }
    ensures faults { OnOk result (faults.new.items ≡ faults.old.items ++ expression_faults (whole program.now) scope.old (expression program.now.patterns program.now.exprs id)) }
{
    let node = program.exprs().node(id);
    match node.form() {
        ExprForm::Empty | ExprForm::Text(_) => {}
        ExprForm::Var(word) => {
            if !scope.has(word) {
                faults.push(Fault {
                    place: Some(node.place()),
                    kind: FaultKind::UnknownVariable(word.share()?),
                })?;
            }
        }
        ExprForm::Elem(_, content) => {
            in_expression(alloc, program, names, *content, scope, faults)?;
        }
        ExprForm::Seq(parts) => in_parts(alloc, program, names, parts, scope, faults)?,
        ExprForm::Call(word, arguments) => {
            let given = arguments.len() as u64;
            in_call(&names.arities, node.place(), word, given, faults)?;
            in_parts(alloc, program, names, arguments, scope, faults)?;
        }
        ExprForm::Match(scrutinee, clauses) => {
            in_expression(alloc, program, names, *scrutinee, scope, faults)?;
            in_clauses(alloc, program, names, clauses, scope, faults)?;
        }
    }
    Ok(())
}

#[cycle(expressions)]
fn in_parts(
    alloc: Global,
    program: &Program,
    names: &Names,
    parts: &[ExprId],
    scope: &mut Scope,
    faults: &mut Vec<Fault>,
) -> Result<(), NoMemory>
    requires knows { Knows names.now (whole program.now) }
    requires belong { AllByRecursion (λ i. i < length program.now.exprs) (expr_numbers parts.now) }
    ensures scope { OnOk result (scope.new ≡ scope.old) }
    ensures faults { OnOk result (faults.new.items ≡ faults.old.items ++ flat_map (λ i. expression_faults (whole program.now) scope.old (expression_at program.now.patterns program.now.exprs i)) (expr_numbers parts.now)) }
{
    for part in parts {
        in_expression(alloc, program, names, *part, scope, faults)?;
    }
    Ok(())
}

#[cycle(expressions)]
fn in_clauses(
    alloc: Global,
    program: &Program,
    names: &Names,
    clauses: &[Clause],
    scope: &mut Scope,
    faults: &mut Vec<Fault>,
) -> Result<(), NoMemory>
    requires knows { Knows names.now (whole program.now) }
    requires patterns { AllByRecursion (λ c. c.0 < length program.now.patterns) (clause_numbers clauses.now) }
    requires bodies { AllByRecursion (λ c. c.1 < length program.now.exprs) (clause_numbers clauses.now) }
    ensures scope { OnOk result (scope.new ≡ scope.old) }
    ensures faults { OnOk result (faults.new.items ≡ faults.old.items ++ clause_faults (whole program.now) scope.old (clauses_of (placed_at program.now.patterns) (expression_at program.now.patterns program.now.exprs) (clause_numbers clauses.now))) }
{
    let before = scope.len();
    for clause in clauses {
        in_clause_pattern(alloc, program, names, clause.pattern, scope, faults)?;
        in_expression(alloc, program, names, clause.body, scope, faults)?;
        scope.truncate(before);
    }
    Ok(())
}

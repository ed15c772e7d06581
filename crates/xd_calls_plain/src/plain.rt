//! Calls of the slow programs, on what was read: types, patterns and programs as trees of boxes.

ghost use Rattle.std.specs.Prelude.{◌<◌, length, IfOk};
ghost use Rattle.xd_syntax.specs.ExpressionTable.{PatternsBelong};
ghost use Rattle.xd_syntax.specs.Exprs.{IsExpr, clause_numbers, expr_numbers};
ghost use Rattle.xd_syntax.specs.Kept.{FunctionStands};
ghost use Rattle.xd_syntax.specs.Types.{BelongsTo};
ghost use Rattle.xd_syntax.specs.declared.program.Param.{Param};
ghost use Rattle.std.specs.List.{AllByRecursion};
ghost use Rattle.xd_plain.specs.PlainPrograms.{AnyIsFirst};

use std::alloc::Global;
use xd_calls_lines::CallError;
use xd_doc::Label;
use xd_plain::{
    PlainArguments, PlainClauses, PlainDefinition, PlainExpression, PlainFunction, PlainParameter,
    PlainProgram, PlainTree,
};
use xd_syntax::{
    Clause, ExprForm, ExprId, Exprs, FormView, Function, Nodes, Param, Patterns, Program, TypeDef,
    Types,
};

/// Two trees, one after the other or one beside the other.
fn pair(
    alloc: Global,
    first: PlainTree,
    second: PlainTree,
    is_sequence: bool,
) -> Result<PlainTree, CallError> {
    let first = Box::new(alloc, first)?;
    let second = Box::new(alloc, second)?;
    if is_sequence {
        Ok(PlainTree::Seq(first, second))
    } else {
        Ok(PlainTree::Alt(first, second))
    }
}

/// Trees two by two from the right.
fn in_pairs(
    alloc: Global,
    parts: Vec<PlainTree>,
    is_sequence: bool,
) -> Result<PlainTree, CallError> {
    let mut parts = parts;
    let mut made = parts.pop().ok_or(CallError::Unknown)?;
    while let Some(part) = parts.pop() {
        made = pair(alloc, part, made, is_sequence)?;
    }
    Ok(made)
}

/// The only part.
fn only(alloc: Global, parts: Vec<PlainTree>) -> Result<Box<PlainTree>, CallError> {
    let mut parts = parts;
    let part = parts.pop().ok_or(CallError::Unknown)?;
    Ok(Box::new(alloc, part)?)
}

/// What a node without parts is.
fn leaf<I: Copy>(form: FormView<'_, I>) -> Result<PlainTree, CallError> {
    match form {
        FormView::Empty => Ok(PlainTree::Empty),
        FormView::Text => Ok(PlainTree::Text),
        FormView::Words(words) => Ok(PlainTree::Words(words.share()?)),
        FormView::Name(word) => Ok(PlainTree::Name(word.share()?)),
        _ => Err(CallError::Unknown),
    }
}

/// What a node is, over its only part.
fn over_one<I: Copy>(form: FormView<'_, I>, part: Box<PlainTree>) -> Result<PlainTree, CallError> {
    match form {
        FormView::Elem(class, _) => Ok(PlainTree::Elem(class.share()?, part)),
        FormView::Star(_) => Ok(PlainTree::Star(part)),
        FormView::Plus(_) => Ok(PlainTree::Plus(part)),
        FormView::Opt(_) => Ok(PlainTree::Opt(part)),
        FormView::Val(variable, _, _) => Ok(PlainTree::Val(variable.share()?, part)),
        _ => Err(CallError::Unknown),
    }
}

/// What a node is, over its parts.
fn node_over<I: Copy>(
    alloc: Global,
    form: FormView<'_, I>,
    parts: Vec<PlainTree>,
) -> Result<PlainTree, CallError> {
    if parts.is_empty() {
        return leaf(form);
    }
    match form {
        FormView::Seq(_) => in_pairs(alloc, parts, true),
        FormView::Alt(_) => in_pairs(alloc, parts, false),
        _ => over_one(form, only(alloc, parts)?),
    }
}

/// The type or the pattern of a node.
pub fn plain_tree<N: Nodes>(alloc: Global, nodes: &N, id: N::Id) -> Result<PlainTree, CallError>
    requires { N.at id < length (N.rows nodes.now) }
{
    let node = nodes.view(id);
    let mut parts = Vec::new(alloc);
    for part in node.parts {
        parts.push(plain_tree(alloc, nodes, *part)?)?;
    }
    node_over(alloc, node.form, parts)
}

fn elem_of(
    alloc: Global,
    label: &Label,
    content: PlainExpression,
) -> Result<PlainExpression, CallError> {
    let content = Box::new(alloc, content)?;
    Ok(PlainExpression::Elem(label.share()?, content))
}

fn sequence(alloc: Global, parts: Vec<PlainExpression>) -> Result<PlainExpression, CallError> {
    let mut parts = parts;
    let mut made = parts.pop().ok_or(CallError::Unknown)?;
    while let Some(part) = parts.pop() {
        let first = Box::new(alloc, part)?;
        made = PlainExpression::Seq(first, Box::new(alloc, made)?);
    }
    Ok(made)
}

/// One more argument in front of these.
fn argument_before(
    alloc: Global,
    argument: PlainExpression,
    rest: PlainArguments,
) -> Result<PlainArguments, CallError> {
    let argument = Box::new(alloc, argument)?;
    Ok(PlainArguments::Argument(argument, Box::new(alloc, rest)?))
}

fn call_of(
    alloc: Global,
    function: &Label,
    arguments: Vec<PlainExpression>,
) -> Result<PlainExpression, CallError> {
    let mut arguments = arguments;
    let mut made = PlainArguments::NoArgument;
    while let Some(argument) = arguments.pop() {
        made = argument_before(alloc, argument, made)?;
    }
    Ok(PlainExpression::Call(function.share()?, Box::new(alloc, made)?))
}

/// A clause of a match.
#[derive(Drop)]
struct PlainClause {
    pattern: PlainTree,
    body: PlainExpression,
}

/// One more clause in front of these.
fn clause_before(
    alloc: Global,
    clause: PlainClause,
    rest: PlainClauses,
) -> Result<PlainClauses, CallError> {
    let PlainClause { pattern, body } = clause;
    let body = Box::new(alloc, body)?;
    Ok(PlainClauses::Clause(pattern, body, Box::new(alloc, rest)?))
}

fn match_of(
    alloc: Global,
    scrutinee: PlainExpression,
    clauses: Vec<PlainClause>,
) -> Result<PlainExpression, CallError> {
    let mut clauses = clauses;
    let mut made = PlainClauses::NoClause;
    while let Some(clause) = clauses.pop() {
        made = clause_before(alloc, clause, made)?;
    }
    let scrutinee = Box::new(alloc, scrutinee)?;
    Ok(PlainExpression::Match(scrutinee, Box::new(alloc, made)?))
}

#[cycle(expressions)]
fn plain_expr(
    alloc: Global,
    patterns: &Patterns,
    exprs: &Exprs,
    id: ExprId,
) -> Result<PlainExpression, CallError>
    requires belongs { IsExpr exprs.now id }
    requires clauses { PatternsBelong (length patterns.now) exprs.now }
{
    let node = exprs.node(id);
    match node.form() {
        ExprForm::Empty => Ok(PlainExpression::Empty),
        ExprForm::Text(text) => Ok(PlainExpression::Text(text.share()?)),
        ExprForm::Var(variable) => Ok(PlainExpression::Variable(variable.share()?)),
        ExprForm::Elem(label, content) => {
            let content = plain_expr(alloc, patterns, exprs, *content)?;
            elem_of(alloc, label, content)
        }
        ExprForm::Seq(parts) => sequence(alloc, plain_parts(alloc, patterns, exprs, id, parts)?),
        ExprForm::Call(function, arguments) => {
            let arguments = plain_parts(alloc, patterns, exprs, id, arguments)?;
            call_of(alloc, function, arguments)
        }
        ExprForm::Match(scrutinee, clauses) => {
            let clauses = plain_clauses(alloc, patterns, exprs, id, clauses)?;
            let scrutinee = plain_expr(alloc, patterns, exprs, *scrutinee)?;
            match_of(alloc, scrutinee, clauses)
        }
    }
}

/// Parts of the expression `whole`.
#[cycle(expressions)]
fn plain_parts(
    alloc: Global,
    patterns: &Patterns,
    exprs: &Exprs,
    whole: ExprId,
    parts: &[ExprId],
) -> Result<Vec<PlainExpression>, CallError>
    requires belongs { IsExpr exprs.now whole }
    requires clauses { PatternsBelong (length patterns.now) exprs.now }
    requires older { AllByRecursion (λ i. i < whole.at) (expr_numbers parts.now) }
{
    let mut made = Vec::new(alloc);
    for part in parts {
        made.push(plain_expr(alloc, patterns, exprs, *part)?)?;
    }
    Ok(made)
}

/// The clauses of the match `whole`.
#[cycle(expressions)]
fn plain_clauses(
    alloc: Global,
    patterns: &Patterns,
    exprs: &Exprs,
    whole: ExprId,
    clauses: &[Clause],
) -> Result<Vec<PlainClause>, CallError>
    requires belongs { IsExpr exprs.now whole }
    requires clauses { PatternsBelong (length patterns.now) exprs.now }
    requires takes { AllByRecursion (λ c. c.0 < length patterns.now) (clause_numbers clauses.now) }
    requires older { AllByRecursion (λ c. c.1 < whole.at) (clause_numbers clauses.now) }
{
    let mut made = Vec::new(alloc);
    for clause in clauses {
        let pattern = plain_tree(alloc, patterns, clause.pattern)?;
        let body = plain_expr(alloc, patterns, exprs, clause.body)?;
        made.push(PlainClause { pattern, body })?;
    }
    Ok(made)
}

fn plain_definition(
    alloc: Global,
    types: &Types,
    def: &TypeDef,
) -> Result<PlainDefinition, CallError>
    requires { BelongsTo types.now def.now.body }
{
    let body = plain_tree(alloc, types, def.body)?;
    let name = def.name.share()?;
    Ok(PlainDefinition { name, body })
}

fn plain_definitions(alloc: Global, program: &Program) -> Result<Vec<PlainDefinition>, CallError> {
    let mut made = Vec::new(alloc);
    for def in program.type_defs() {
        made.push(plain_definition(alloc, program.types(), def)?)?;
    }
    Ok(made)
}

fn plain_parameter(alloc: Global, types: &Types, param: &Param) -> Result<PlainParameter, CallError>
    requires { BelongsTo types.now param.now.body }
{
    let declared = plain_tree(alloc, types, param.body)?;
    let name = param.name.share()?;
    Ok(PlainParameter { name, declared })
}

fn plain_parameters(
    alloc: Global,
    types: &Types,
    params: &[Param],
) -> Result<Vec<PlainParameter>, CallError>
    requires { AllByRecursion (λ (p : Param). BelongsTo types.now p.body) params.now }
{
    let mut made = Vec::new(alloc);
    for param in params {
        made.push(plain_parameter(alloc, types, param)?)?;
    }
    Ok(made)
}

fn plain_function(
    alloc: Global,
    program: &Program,
    function: &Function,
) -> Result<PlainFunction, CallError>
    requires { FunctionStands program.now.types program.now.exprs function.now }
{
    let parameters = plain_parameters(alloc, program.types(), function.params())?;
    let declared = plain_tree(alloc, program.types(), function.result_type())?;
    let body = plain_expr(alloc, program.patterns(), program.exprs(), function.body())?;
    let name = function.name().share()?;
    Ok(PlainFunction {
        name,
        parameters,
        declared,
        body,
    })
}

fn plain_functions(alloc: Global, program: &Program) -> Result<Vec<PlainFunction>, CallError> {
    let mut made = Vec::new(alloc);
    for function in program.functions() {
        made.push(plain_function(alloc, program, function)?)?;
    }
    Ok(made)
}

/// A program as trees of boxes.
pub fn plain_program(alloc: Global, program: &Program) -> Result<PlainProgram, CallError>
    ensures { IfOk result AnyIsFirst }
{
    let definitions = plain_definitions(alloc, program)?;
    let functions = plain_functions(alloc, program)?;
    Ok(PlainProgram::new(alloc, definitions, functions)?)
}

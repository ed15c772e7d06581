//! What was read, as a text: each node in parentheses, with its place and its parts.

ghost use Rattle.std.specs.Prelude.{◌<◌, length};
ghost use Rattle.xd_syntax.specs.Types.{BelongsTo};
ghost use Rattle.xd_syntax.specs.ExpressionTable.{PatternsBelong};
ghost use Rattle.xd_syntax.specs.Exprs.{IsExpr};
ghost use Rattle.xd_syntax.specs.Kept.{FunctionStands};
ghost use Rattle.xd_syntax.specs.Patterns.{IsPattern};

use std::io::Write;
use xd_base::Place;
use xd_calls_lines::{CallError, show_class, show_place, show_words};
use xd_syntax::{
    ExprForm, ExprId, Exprs, FormView, Function, Nodes, PatternId, Patterns, Program, TypeId, Types,
};

fn show(out: &mut Vec<u8>, word: &str, place: Place) -> Result<(), CallError> {
    out.extend_from_slice(word.as_bytes())?;
    out.push(b' ')?;
    show_place(place, out)
}

/// What a node of a type or of a pattern is, without its parts.
fn show_form<I: Copy>(
    out: &mut Vec<u8>,
    form: FormView<'_, I>,
    place: Place,
) -> Result<(), CallError> {
    match form {
        FormView::Empty => show(out, "()", place),
        FormView::Text => show(out, "String", place),
        FormView::Words(words) => {
            show_words(words, out)?;
            show(out, "", place)
        }
        FormView::Name(word) => show(out, word.as_str(), place),
        FormView::Elem(class, _) => {
            show_class(class, out)?;
            show(out, "[]", place)
        }
        FormView::Seq(_) => show(out, ",", place),
        FormView::Alt(_) => show(out, "|", place),
        FormView::Star(_) => show(out, "*", place),
        FormView::Plus(_) => show(out, "+", place),
        FormView::Opt(_) => show(out, "?", place),
        FormView::Val(variable, word, _) => {
            show(out, "val", place)?;
            out.push(b' ')?;
            show(out, variable.as_str(), word)
        }
    }
}

/// A node of a type or of a pattern, with its parts.
fn show_node<N: Nodes>(out: &mut Vec<u8>, nodes: &N, id: N::Id) -> Result<(), CallError>
    requires { N.at id < length (N.rows nodes.now) }
{
    let node = nodes.view(id);
    out.extend_from_slice(b" (")?;
    show_form(out, node.form, node.place)?;
    for part in node.parts {
        show_node(out, nodes, *part)?;
    }
    out.push(b')')?;
    Ok(())
}

/// A type, with the place of each node.
pub fn show_type(out: &mut Vec<u8>, types: &Types, id: TypeId) -> Result<(), CallError>
    requires { BelongsTo types.now id }
{
    show_node(out, types, id)
}

/// A pattern, with the place of each node.
pub fn show_pattern(out: &mut Vec<u8>, patterns: &Patterns, id: PatternId) -> Result<(), CallError>
    requires { IsPattern patterns.now id }
{
    show_node(out, patterns, id)
}

fn show_expr(
    out: &mut Vec<u8>,
    patterns: &Patterns,
    exprs: &Exprs,
    id: ExprId,
) -> Result<(), CallError>
    requires belongs { IsExpr exprs.now id }
    requires clauses { PatternsBelong (length patterns.now) exprs.now }
{
    let node = exprs.node(id);
    let place = node.place();
    out.extend_from_slice(b" (")?;
    match node.form() {
        ExprForm::Empty => show(out, "()", place)?,
        ExprForm::Text(text) => {
            write!(out, "\"{}\"", text.as_str())?;
            show(out, "", place)?;
        }
        ExprForm::Var(variable) => show(out, variable.as_str(), place)?,
        ExprForm::Elem(label, content) => {
            out.extend_from_slice(label.as_str().as_bytes())?;
            show(out, "[]", place)?;
            show_expr(out, patterns, exprs, *content)?;
        }
        ExprForm::Seq(parts) => {
            show(out, ",", place)?;
            for part in parts {
                show_expr(out, patterns, exprs, *part)?;
            }
        }
        ExprForm::Call(function, arguments) => {
            show(out, "call", place)?;
            out.push(b' ')?;
            out.extend_from_slice(function.as_str().as_bytes())?;
            for argument in arguments {
                show_expr(out, patterns, exprs, *argument)?;
            }
        }
        ExprForm::Match(scrutinee, clauses) => {
            show(out, "match", place)?;
            show_expr(out, patterns, exprs, *scrutinee)?;
            for clause in clauses {
                show_node(out, patterns, clause.pattern)?;
                show_expr(out, patterns, exprs, clause.body)?;
            }
        }
    }
    out.push(b')')?;
    Ok(())
}

fn show_function(out: &mut Vec<u8>, program: &Program, function: &Function) -> Result<(), CallError>
    requires { FunctionStands program.now.types program.now.exprs function.now }
{
    out.extend_from_slice(b"fun ")?;
    show(out, function.name().as_str(), function.place())?;
    for param in function.params() {
        out.extend_from_slice(b", ")?;
        show(out, param.name.as_str(), param.place)?;
        show_type(out, program.types(), param.body)?;
    }
    out.extend_from_slice(b" :")?;
    show_type(out, program.types(), function.result_type())?;
    out.extend_from_slice(b" =")?;
    show_expr(out, program.patterns(), program.exprs(), function.body())?;
    out.push(b'\n')?;
    Ok(())
}

/// The definitions of a program, a line each.
pub fn show_program(out: &mut Vec<u8>, program: &Program) -> Result<(), CallError> {
    for def in program.type_defs() {
        out.extend_from_slice(b"type ")?;
        show(out, def.name.as_str(), def.place)?;
        out.extend_from_slice(b" =")?;
        show_type(out, program.types(), def.body)?;
        out.push(b'\n')?;
    }
    for function in program.functions() {
        show_function(out, program, function)?;
    }
    Ok(())
}

//! Copies of what programs are made of, under the same numbers. Words, texts and classes are
//! shared.

ghost use Rattle.std.specs.Prelude.{◌≡◌, IfOk};
ghost use Rattle.xd_syntax.specs.Types.{form_of};
ghost use Rattle.xd_syntax.specs.Patterns.{form_of_pattern};
ghost use Rattle.xd_syntax.specs.Exprs.{shape_of};

use crate::exprs::ExprForm;
use crate::patterns::PatternForm;
use crate::types::TypeForm;
use std::alloc::Global;
use xd_doc::NoMemory;

/// What stands in tables and lists of a program.
pub(crate) trait Copied: Drop {
    /// An equal one.
    fn copied(&self, alloc: Global) -> Result<Self, NoMemory>
        ensures { IfOk result (λ made. made ≡ self.now) };
}

/// Equal rows, in the same order.
pub(crate) fn copied_rows<T: Copied>(alloc: Global, rows: &[T]) -> Result<Vec<T>, NoMemory>
    ensures { IfOk result (λ made. made.items ≡ rows.now) }
{
    let mut made = Vec::new(alloc);
    for row in rows {
        made.push(row.copied(alloc)?)?;
    }
    Ok(made)
}

/// The same form, of the same parts.
pub(crate) fn copied_type(alloc: Global, form: &TypeForm) -> Result<TypeForm, NoMemory>
    ensures { IfOk result (λ made. form_of made ≡ form_of form.now) }
{
    match form {
        TypeForm::Empty => Ok(TypeForm::Empty),
        TypeForm::Text => Ok(TypeForm::Text),
        TypeForm::Words(texts) => Ok(TypeForm::Words(texts.share()?)),
        TypeForm::Name(word) => Ok(TypeForm::Name(word.share()?)),
        TypeForm::Elem(class, content) => Ok(TypeForm::Elem(class.share()?, *content)),
        TypeForm::Seq(parts) => Ok(TypeForm::Seq(copied_parts(alloc, parts)?)),
        TypeForm::Alt(parts) => Ok(TypeForm::Alt(copied_parts(alloc, parts)?)),
        TypeForm::Star(part) => Ok(TypeForm::Star(*part)),
        TypeForm::Plus(part) => Ok(TypeForm::Plus(*part)),
        TypeForm::Opt(part) => Ok(TypeForm::Opt(*part)),
    }
}

pub(crate) fn copied_pattern(alloc: Global, form: &PatternForm) -> Result<PatternForm, NoMemory>
    ensures { IfOk result (λ made. form_of_pattern made ≡ form_of_pattern form.now) }
{
    match form {
        PatternForm::Empty => Ok(PatternForm::Empty),
        PatternForm::Text => Ok(PatternForm::Text),
        PatternForm::Words(texts) => Ok(PatternForm::Words(texts.share()?)),
        PatternForm::Name(word) => Ok(PatternForm::Name(word.share()?)),
        PatternForm::Elem(class, content) => Ok(PatternForm::Elem(class.share()?, *content)),
        PatternForm::Seq(parts) => Ok(PatternForm::Seq(copied_parts(alloc, parts)?)),
        PatternForm::Alt(parts) => Ok(PatternForm::Alt(copied_parts(alloc, parts)?)),
        PatternForm::Star(part) => Ok(PatternForm::Star(*part)),
        PatternForm::Plus(part) => Ok(PatternForm::Plus(*part)),
        PatternForm::Opt(part) => Ok(PatternForm::Opt(*part)),
        PatternForm::Val(variable, place, part) => Ok(PatternForm::Val(
            variable.share()?,
            *place,
            *part,
        )),
    }
}

pub(crate) fn copied_expression(alloc: Global, form: &ExprForm) -> Result<ExprForm, NoMemory>
    ensures { IfOk result (λ made. shape_of made ≡ shape_of form.now) }
{
    match form {
        ExprForm::Empty => Ok(ExprForm::Empty),
        ExprForm::Text(text) => Ok(ExprForm::Text(text.share()?)),
        ExprForm::Var(variable) => Ok(ExprForm::Var(variable.share()?)),
        ExprForm::Elem(label, content) => Ok(ExprForm::Elem(label.share()?, *content)),
        ExprForm::Seq(parts) => Ok(ExprForm::Seq(copied_parts(alloc, parts)?)),
        ExprForm::Call(function, arguments) => Ok(ExprForm::Call(
            function.share()?,
            copied_parts(alloc, arguments)?,
        )),
        ExprForm::Match(subject, clauses) => Ok(ExprForm::Match(
            *subject,
            copied_parts(alloc, clauses)?,
        )),
    }
}

/// The same parts, in the same order.
fn copied_parts<P: Copy>(alloc: Global, parts: &[P]) -> Result<Vec<P>, NoMemory>
    ensures { IfOk result (λ made. made.items ≡ parts.now) }
{
    let made = Vec::from_slice(alloc, parts)?;
    Ok(made)
}

//! The forms of types, copied to another table.

ghost use Rattle.std.specs.Prelude.{◌≡◌, true, List, Option, IfOk};
ghost use Rattle.std.specs.List.{AllByRecursion};
ghost use Rattle.std.specs.Option.{IfSome};
ghost use Rattle.xd_syntax.specs.Table.{IsAltPart, IsSeqPart, alt_form, elem_form, opt_form, plus_form, seq_form, star_form};
ghost use Rattle.xd_syntax.specs.Types.{BelongsTo, form_of, type_numbers};
ghost use Rattle.xd_syntax.specs.declared.types.TypeId.{TypeId};
ghost use Rattle.xd_same_types.specs.Grown.{GrowsTypes};
ghost use Rattle.xd_same_types.specs.Same.{AreAltParts, AreSeqParts};
ghost use Rattle.xd_named_parts.specs.Copies.{AllCopied, CopiesBelong, HasWords, IsFormCopy, copy_in};

use crate::any::{some_any, takes_items, takes_more};
use std::alloc::Global;
use xd_doc::{Class, NoMemory};
use xd_same_types::{Pool, any_type, node};
use xd_syntax::{TypeForm, TypeId};

/// The copy of the node with this number, if it has one.
pub(crate) fn copy_at(table: &[Option<TypeId>], number: usize) -> Option<TypeId>
    ensures { result ≡ copy_in table.now number }
{
    if number < table.len() {
        table[number]
    } else {
        None
    }
}

/// The copies of these nodes, if each has one.
pub(crate) fn copies_of(
    alloc: Global,
    table: &[Option<TypeId>],
    parts: &[TypeId],
) -> Result<Option<Vec<TypeId>>, NoMemory>
    ensures { IfOk result (λ found. IfSome found (λ made. AllCopied table.now parts.now made.items)) }
{
    let mut made = Vec::new(alloc);
    for part in parts {
        match copy_at(table, part.at()) {
            Some(id) => made.push(id)?,
            None => return Ok(None),
        }
    }
    Ok(Some(made))
}

/// Whether it may be a part of a sequence.
fn is_seq_part(pool: &Pool, id: TypeId) -> bool
    requires { BelongsTo pool.now.types id }
    ensures { result ≡ true → IsSeqPart pool.now.types id.at }
{
    match pool.types.node(id).form() {
        TypeForm::Empty => false,
        TypeForm::Seq(_) => false,
        _ => true,
    }
}

/// Whether each may be.
fn are_seq_parts(pool: &Pool, ids: &[TypeId]) -> bool
    requires { AllByRecursion (BelongsTo pool.now.types) ids.now }
    ensures { result ≡ true → AreSeqParts pool.now.types ids.now }
{
    for number in 0..ids.len() {
        if !is_seq_part(pool, ids[number]) {
            return false;
        }
    }
    true
}

/// Whether it may be an alternative.
fn is_alt_part(pool: &Pool, id: TypeId) -> bool
    requires { BelongsTo pool.now.types id }
    ensures { result ≡ true → IsAltPart pool.now.types id.at }
{
    match pool.types.node(id).form() {
        TypeForm::Alt(_) => false,
        _ => true,
    }
}

/// Whether each may be.
fn are_alt_parts(pool: &Pool, ids: &[TypeId]) -> bool
    requires { AllByRecursion (BelongsTo pool.now.types) ids.now }
    ensures { result ≡ true → AreAltParts pool.now.types ids.now }
{
    for number in 0..ids.len() {
        if !is_alt_part(pool, ids[number]) {
            return false;
        }
    }
    true
}

/// The sequence of the copies of these parts, if each has one.
fn seq_copy(
    alloc: Global,
    pool: &mut Pool,
    tops: &[Option<TypeId>],
    parts: &[TypeId],
) -> Result<Option<TypeId>, NoMemory>
    requires { CopiesBelong pool.old.types tops.now }
    ensures copy { IfOk result (λ found. IfSome found (λ id. (inner : List (Option TypeId)) → IsFormCopy (seq_form (type_numbers parts.now)) tops.now inner pool.old.types pool.new.types id)) }
    ensures keeps { GrowsTypes pool.old.types pool.new.types }
{
    let Some(made) = copies_of(alloc, tops, parts)? else {
        return Ok(None);
    };
    if made.len() < 2 || !are_seq_parts(pool, &made) {
        return Ok(None);
    }
    Ok(Some(node(pool, TypeForm::Seq(made))?))
}

/// The alternatives that are the copies of these, if each has one.
fn alt_copy(
    alloc: Global,
    pool: &mut Pool,
    tops: &[Option<TypeId>],
    parts: &[TypeId],
) -> Result<Option<TypeId>, NoMemory>
    requires { CopiesBelong pool.old.types tops.now }
    ensures copy { IfOk result (λ found. IfSome found (λ id. (inner : List (Option TypeId)) → IsFormCopy (alt_form (type_numbers parts.now)) tops.now inner pool.old.types pool.new.types id)) }
    ensures keeps { GrowsTypes pool.old.types pool.new.types }
{
    let Some(made) = copies_of(alloc, tops, parts)? else {
        return Ok(None);
    };
    if made.len() < 2 || !are_alt_parts(pool, &made) {
        return Ok(None);
    }
    if some_any(pool, &made) {
        return Ok(Some(any_type(alloc, pool)?));
    }
    Ok(Some(node(pool, TypeForm::Alt(made))?))
}

/// The element around the copy of its content, if that has one.
fn elem_copy(
    pool: &mut Pool,
    inner: &[Option<TypeId>],
    class: &Class,
    content: TypeId,
) -> Result<Option<TypeId>, NoMemory>
    requires { CopiesBelong pool.old.types inner.now }
    ensures copy { IfOk result (λ found. IfSome found (λ id. (tops : List (Option TypeId)) → IsFormCopy (elem_form class.now content.at) tops inner.now pool.old.types pool.new.types id)) }
    ensures keeps { GrowsTypes pool.old.types pool.new.types }
{
    match copy_at(inner, content.at()) {
        Some(id) => Ok(Some(node(pool, TypeForm::Elem(class.share()?, id))?)),
        None => Ok(None),
    }
}

/// The copy of a part again and again, if it has one.
fn star_copy(
    alloc: Global,
    pool: &mut Pool,
    tops: &[Option<TypeId>],
    part: TypeId,
) -> Result<Option<TypeId>, NoMemory>
    requires { CopiesBelong pool.old.types tops.now }
    ensures copy { IfOk result (λ found. IfSome found (λ id. (inner : List (Option TypeId)) → IsFormCopy (star_form part.at) tops.now inner pool.old.types pool.new.types id)) }
    ensures keeps { GrowsTypes pool.old.types pool.new.types }
{
    let Some(id) = copy_at(tops, part.at()) else {
        return Ok(None);
    };
    if takes_items(pool, id) {
        return Ok(Some(any_type(alloc, pool)?));
    }
    Ok(Some(node(pool, TypeForm::Star(id))?))
}

/// The same, once at least.
fn plus_copy(
    pool: &mut Pool,
    tops: &[Option<TypeId>],
    part: TypeId,
) -> Result<Option<TypeId>, NoMemory>
    requires { CopiesBelong pool.old.types tops.now }
    ensures copy { IfOk result (λ found. IfSome found (λ id. (inner : List (Option TypeId)) → IsFormCopy (plus_form part.at) tops.now inner pool.old.types pool.new.types id)) }
    ensures keeps { GrowsTypes pool.old.types pool.new.types }
{
    match copy_at(tops, part.at()) {
        Some(id) => Ok(Some(node(pool, TypeForm::Plus(id))?)),
        None => Ok(None),
    }
}

/// The copy of a part or nothing, if it has one.
fn opt_copy(
    alloc: Global,
    pool: &mut Pool,
    tops: &[Option<TypeId>],
    part: TypeId,
) -> Result<Option<TypeId>, NoMemory>
    requires { CopiesBelong pool.old.types tops.now }
    ensures copy { IfOk result (λ found. IfSome found (λ id. (inner : List (Option TypeId)) → IsFormCopy (opt_form part.at) tops.now inner pool.old.types pool.new.types id)) }
    ensures keeps { GrowsTypes pool.old.types pool.new.types }
{
    let Some(id) = copy_at(tops, part.at()) else {
        return Ok(None);
    };
    if takes_more(pool, id) {
        return Ok(Some(any_type(alloc, pool)?));
    }
    Ok(Some(node(pool, TypeForm::Opt(id))?))
}

/// The copy of a form, if its parts have copies: those in `tops` stand outside of labels, and those
/// in `inner` under labels. A name is none of these forms.
pub(crate) fn form_copy(
    alloc: Global,
    pool: &mut Pool,
    form: &TypeForm,
    tops: &[Option<TypeId>],
    inner: &[Option<TypeId>],
) -> Result<Option<TypeId>, NoMemory>
    requires words { HasWords (form_of form.now) }
    requires tops { CopiesBelong pool.old.types tops.now }
    requires inner { CopiesBelong pool.old.types inner.now }
    ensures copy { IfOk result (λ found. IfSome found (IsFormCopy (form_of form.now) tops.now inner.now pool.old.types pool.new.types)) }
    ensures keeps { GrowsTypes pool.old.types pool.new.types }
{
    match form {
        TypeForm::Empty => Ok(Some(node(pool, TypeForm::Empty)?)),
        TypeForm::Text => Ok(Some(node(pool, TypeForm::Text)?)),
        TypeForm::Words(texts) => Ok(Some(node(pool, TypeForm::Words(texts.share()?))?)),
        TypeForm::Name(_) => Ok(None),
        TypeForm::Elem(class, content) => elem_copy(pool, inner, class, *content),
        TypeForm::Seq(parts) => seq_copy(alloc, pool, tops, parts),
        TypeForm::Alt(parts) => alt_copy(alloc, pool, tops, parts),
        TypeForm::Star(part) => star_copy(alloc, pool, tops, *part),
        TypeForm::Plus(part) => plus_copy(pool, tops, *part),
        TypeForm::Opt(part) => opt_copy(alloc, pool, tops, *part),
    }
}

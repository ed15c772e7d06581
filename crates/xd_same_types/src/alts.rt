//! Types as alternatives.

ghost use Rattle.std.specs.Prelude.{◌≡◌, ◌⊎◌, ◌<◌, ◌≤◌, ℕ, List, ◌||◌, ◌∷◌, [], Bool, IfOk, OnOk, true, false, length};
ghost use Rattle.std.specs.Option.{IfSome};
ghost use Rattle.std.specs.List.{AllByRecursion};
ghost use Rattle.xd_syntax.specs.Table.{CanFollow, IsAltPart, form_tree, tree_at};
ghost use Rattle.xd_same_types.specs.Grown.{GrowsTypes, form_named};
ghost use Rattle.xd_syntax.specs.Tree.{Alt, Opt, Plus, Star, Text, Tree};
ghost use Rattle.xd_syntax.specs.TreeForms.{alt_of, is_alt};
ghost use Rattle.xd_syntax.specs.Types.{BelongsTo, form_of, tree};
ghost use Rattle.xd_same_types.specs.Joints.{IsJoint};
ghost use Rattle.xd_same_types.specs.Same.{AddsFit, AddsFits, AreAltParts, CanBeEmpty, IsChoice, MeansSame, TakesIn, trees};

use crate::classes::united;
use crate::ends::join_ends;
use crate::pool::{Pool, node};
use crate::seqs::{is_plus, is_star, one_part, star_of};
use std::alloc::Global;
use std::collections::HashMap;
use xd_doc::NoMemory;
use xd_syntax::{TypeForm, TypeId};

/// Alternatives, and whether the empty document is one more.
#[derive(Drop)]
pub(crate) struct Choice {
    parts: Vec<TypeId>,
    empty: bool,
}

/// The parts of a type as an alternative.
pub(crate) fn alt_parts(alloc: Global, pool: &Pool, id: TypeId) -> Result<Vec<TypeId>, NoMemory>
    requires { BelongsTo pool.now.types id }
    ensures parts { IfOk result (λ parts. AreAltParts pool.now.types parts.items) }
    ensures some { IfOk result (λ parts. 0 < length parts.items) }
    ensures tree { IfOk result (λ parts. alt_of (trees pool.now.types parts.items) ≡ tree pool.now.types id) }
{
    match pool.types.node(id).form() {
        TypeForm::Alt(pieces) => Ok(Vec::from_slice(alloc, pieces)?),
        _ => one_part(alloc, id),
    }
}

/// The alternatives of a type.
fn choice_of(alloc: Global, pool: &Pool, id: TypeId) -> Result<Choice, NoMemory>
    requires { BelongsTo pool.now.types id }
    ensures parts { IfOk result (λ choice. AreAltParts pool.now.types choice.parts.items) }
    ensures some { IfOk result (λ choice. (0 < length choice.parts.items) ⊎ (choice.empty ≡ true)) }
    ensures fits { IfOk result (λ choice. IsChoice (tree pool.now.types id) (trees pool.now.types choice.parts.items) choice.empty) }
{
    match pool.types.node(id).form() {
        TypeForm::Empty => Ok(Choice {
            parts: Vec::new(alloc),
            empty: true,
        }),
        TypeForm::Opt(part) => Ok(Choice {
            parts: alt_parts(alloc, pool, *part)?,
            empty: true,
        }),
        _ => Ok(Choice {
            parts: alt_parts(alloc, pool, id)?,
            empty: false,
        }),
    }
}

/// The alternative of these parts, and of none the empty document.
pub(crate) fn alt_from(pool: &mut Pool, parts: Vec<TypeId>) -> Result<TypeId, NoMemory>
    requires { AreAltParts pool.old.types parts.items }
    ensures tree { IfOk result (λ id. tree pool.new.types id ≡ alt_of (trees pool.old.types parts.items)) }
    ensures belongs { IfOk result (BelongsTo pool.new.types) }
    ensures keeps { GrowsTypes pool.old.types pool.new.types }
{
    if parts.is_empty() {
        return node(pool, TypeForm::Empty);
    }
    if parts.len() == 1 {
        return Ok(parts[0]);
    }
    node(pool, TypeForm::Alt(parts))
}

/// Whether it is a repetition, or a type or nothing.
fn is_optional(pool: &Pool, id: TypeId) -> bool
    requires { BelongsTo pool.now.types id }
    ensures { result ≡ true → CanBeEmpty (tree pool.now.types id) }
{
    match pool.types.node(id).form() {
        TypeForm::Empty => true,
        TypeForm::Star(_) => true,
        TypeForm::Opt(_) => true,
        _ => false,
    }
}

fn all_optional(pool: &Pool, parts: &[TypeId]) -> bool
    requires { AllByRecursion (BelongsTo pool.now.types) parts.now }
    ensures { result ≡ true → AllByRecursion (λ id. CanBeEmpty (tree pool.now.types id)) parts.now }
{
    for part in parts {
        if !is_optional(pool, *part) {
            return false;
        }
    }
    true
}

/// Whether the empty document plainly fits a type that is no alternative.
fn is_plainly_empty(pool: &Pool, id: TypeId) -> bool
    requires { BelongsTo pool.now.types id }
    ensures { result ≡ true → CanBeEmpty (tree pool.now.types id) }
{
    match pool.types.node(id).form() {
        TypeForm::Seq(parts) => all_optional(pool, parts),
        _ => is_optional(pool, id),
    }
}

/// Whether the empty document plainly fits one of the types.
fn some_plainly_empty(pool: &Pool, parts: &[TypeId]) -> bool
    requires { AreAltParts pool.now.types parts.now }
    ensures { result ≡ true → CanBeEmpty (alt_of (trees pool.now.types parts.now)) }
{
    for part in parts {
        if is_plainly_empty(pool, *part) {
            return true;
        }
    }
    false
}

/// What a plus repeats.
fn plus_of(pool: &Pool, id: TypeId) -> Option<TypeId>
    requires { BelongsTo pool.now.types id }
    ensures plus { IfSome result (λ part. tree pool.now.types id ≡ Plus (tree pool.now.types part)) }
    ensures belongs { IfSome result (BelongsTo pool.now.types) }
{
    match pool.types.node(id).form() {
        TypeForm::Plus(part) => Some(*part),
        _ => None,
    }
}

/// The type, or nothing.
fn opt(pool: &mut Pool, id: TypeId) -> Result<TypeId, NoMemory>
    requires { BelongsTo pool.old.types id }
    ensures same { IfOk result (λ made. MeansSame (tree pool.new.types made) (Opt (tree pool.old.types id))) }
    ensures belongs { IfOk result (BelongsTo pool.new.types) }
    ensures keeps { GrowsTypes pool.old.types pool.new.types }
{
    if is_plainly_empty(pool, id) {
        return Ok(id);
    }
    match plus_of(pool, id) {
        Some(part) => node(pool, TypeForm::Star(part)),
        None => node(pool, TypeForm::Opt(id)),
    }
}

/// Whether what fits the second type plainly fits the first.
fn takes_in(pool: &Pool, one: TypeId, two: TypeId) -> bool
    requires one { BelongsTo pool.now.types one }
    requires two { BelongsTo pool.now.types two }
    ensures { result ≡ true → TakesIn (tree pool.now.types one) (tree pool.now.types two) }
{
    if one.at() == two.at() {
        return true;
    }
    if is_star(pool, one, two) {
        return true;
    }
    if is_plus(pool, one, two) {
        return true;
    }
    if let Some(part) = star_of(pool, one) {
        return is_plus(pool, two, part);
    }
    is_text(pool, one) && is_words(pool, two)
}

/// Whether it is the type of all texts.
fn is_text(pool: &Pool, id: TypeId) -> bool
    requires { BelongsTo pool.now.types id }
    ensures { result ≡ true → tree pool.now.types id ≡ Text }
{
    match pool.types.node(id).form() {
        TypeForm::Text => true,
        _ => false,
    }
}

/// Whether it is a class of texts.
fn is_words(pool: &Pool, id: TypeId) -> bool
    requires { BelongsTo pool.now.types id }
    ensures { result ≡ true → TakesIn Text (tree pool.now.types id) }
{
    match pool.types.node(id).form() {
        TypeForm::Words(_) => true,
        _ => false,
    }
}

/// Of two elements with one content the form of both.
fn common(
    alloc: Global,
    pool: &Pool,
    one: TypeId,
    two: TypeId,
) -> Result<Option<TypeForm>, NoMemory>
    requires one { BelongsTo pool.now.types one }
    requires two { BelongsTo pool.now.types two }
    ensures same { IfOk result (λ found. IfSome found (λ form. MeansSame (form_tree (tree_at pool.now.types) (form_of form)) (Alt (tree pool.now.types one) (tree pool.now.types two)))) }
    ensures follows { IfOk result (λ found. IfSome found (λ form. CanFollow false pool.now.types (form_of form) × (form_named [] (form_of form) ≡ true))) }
    ensures part { IfOk result (λ found. IfSome found (λ form. is_alt (form_tree (tree_at pool.now.types) (form_of form)) ≡ false)) }
{
    let TypeForm::Elem(class, content) = pool.types.node(one).form() else {
        return Ok(None);
    };
    let TypeForm::Elem(kind, inside) = pool.types.node(two).form() else {
        return Ok(None);
    };
    if content.at() != inside.at() {
        return Ok(None);
    }
    let both = united(alloc, class, kind)?;
    Ok(Some(TypeForm::Elem(both, *content)))
}

/// One type for two alternatives, where there is one: `a[T]|b[T]` is `(a|b)[T]`, and `x|x*` is
/// `x*`.
fn joined(
    alloc: Global,
    pool: &mut Pool,
    one: TypeId,
    two: TypeId,
) -> Result<Option<TypeId>, NoMemory>
    requires one { IsAltPart pool.old.types one.at }
    requires two { IsAltPart pool.old.types two.at }
    ensures same { IfOk result (λ found. IfSome found (λ id. MeansSame (tree pool.new.types id) (Alt (tree pool.old.types one) (tree pool.old.types two)))) }
    ensures part { IfOk result (λ found. IfSome found (λ id. IsAltPart pool.new.types id.at)) }
    ensures keeps { GrowsTypes pool.old.types pool.new.types }
{
    if takes_in(pool, one, two) {
        return Ok(Some(one));
    }
    if takes_in(pool, two, one) {
        return Ok(Some(two));
    }
    match common(alloc, pool, one, two)? {
        Some(form) => Ok(Some(node(pool, form)?)),
        None => Ok(None),
    }
}

/// A number that a type, its star and its plus share.
fn same_key(id: TypeId) -> usize {
    id.at().wrapping_mul(4)
}

/// A number that elements with one content share.
fn content_key(content: TypeId) -> usize {
    content.at().wrapping_mul(4).wrapping_add(1)
}

/// The number of the types of texts.
const TEXT_KEY: usize = 2;

/// Alternatives, and where one stands that may be joined with others of its key.
#[derive(Drop)]
pub(crate) struct Alternatives {
    pub(crate) parts: Vec<TypeId>,
    near: HashMap<usize, usize>,
}

/// No alternative.
pub(crate) fn no_alternatives(alloc: Global) -> Alternatives
    ensures { result.parts.items ≡ [] }
{
    Alternatives {
        parts: Vec::new(alloc),
        near: HashMap::new(alloc),
    }
}

/// Notes where an alternative stands.
fn note(
    pool: &Pool,
    near: &mut HashMap<usize, usize>,
    id: TypeId,
    place: usize,
) -> Result<(), NoMemory>
    requires { BelongsTo pool.now.types id }
{
    near.insert(same_key(id), place)?;
    match pool.types.node(id).form() {
        TypeForm::Star(part) => near.insert(same_key(*part), place)?,
        TypeForm::Plus(part) => near.insert(same_key(*part), place)?,
        TypeForm::Elem(_, content) => near.insert(content_key(*content), place)?,
        TypeForm::Text => near.insert(TEXT_KEY, place)?,
        TypeForm::Words(_) => near.insert(TEXT_KEY, place)?,
        _ => None,
    };
    Ok(())
}

/// Where an alternative of this key stands, if one was noted.
fn noted(some: &Alternatives, key: usize) -> Option<usize>
    ensures { IfSome result (λ k. k < length some.now.parts.items) }
{
    match some.near.get(&key).copied() {
        Some(place) if place < some.parts.len() => Some(place),
        _ => None,
    }
}

/// Where an alternative stands that may be joined with this one.
fn near_place(pool: &Pool, some: &Alternatives, next: TypeId) -> Option<usize>
    requires { BelongsTo pool.now.types next }
    ensures { IfSome result (λ k. k < length some.now.parts.items) }
{
    if let Some(place) = noted(some, same_key(next)) {
        return Some(place);
    }
    match pool.types.node(next).form() {
        TypeForm::Star(part) => noted(some, same_key(*part)),
        TypeForm::Plus(part) => noted(some, same_key(*part)),
        TypeForm::Elem(_, content) => noted(some, content_key(*content)),
        TypeForm::Text => noted(some, TEXT_KEY),
        TypeForm::Words(_) => noted(some, TEXT_KEY),
        _ => None,
    }
}

/// A type for the alternative at a place and one more.
#[derive(Clone, Copy)]
pub(crate) struct Joint {
    pub(crate) place: usize,
    pub(crate) one: TypeId,
}

/// One type for an alternative and one more, where there is one.
fn joined_near(
    alloc: Global,
    pool: &mut Pool,
    some: &Alternatives,
    next: TypeId,
) -> Result<Option<Joint>, NoMemory>
    requires parts { AreAltParts pool.old.types some.now.parts.items }
    requires next { IsAltPart pool.old.types next.at }
    ensures joint { IfOk result (λ found. IfSome found (IsJoint pool.old.types some.now.parts.items next pool.new.types)) }
    ensures keeps { GrowsTypes pool.old.types pool.new.types }
{
    let Some(place) = near_place(pool, some, next) else {
        return Ok(None);
    };
    let old = some.parts[place];
    match joined(alloc, pool, old, next)? {
        Some(one) => Ok(Some(Joint { place, one })),
        None => Ok(None),
    }
}

/// Puts one more alternative to the others.
fn add_alternative(
    alloc: Global,
    pool: &mut Pool,
    some: &mut Alternatives,
    next: TypeId,
) -> Result<(), NoMemory>
    requires parts { AreAltParts pool.old.types some.old.parts.items }
    requires next { IsAltPart pool.old.types next.at }
    ensures fits { OnOk result (AddsFit (trees pool.old.types some.old.parts.items) (tree pool.old.types next) (trees pool.new.types some.new.parts.items)) }
    ensures parts { OnOk result (AreAltParts pool.new.types some.new.parts.items) }
    ensures some { OnOk result (0 < length some.new.parts.items) }
    ensures keeps { GrowsTypes pool.old.types pool.new.types }
{
    match joined_near(alloc, pool, some, next)? {
        Some(joint) => {
            some.parts[joint.place] = joint.one;
            note(pool, &mut some.near, joint.one, joint.place)
        }
        None => {
            let place = some.parts.len();
            some.parts.push(next)?;
            note(pool, &mut some.near, next, place)
        }
    }
}

/// Puts more alternatives to the others.
pub(crate) fn add_alternatives(
    alloc: Global,
    pool: &mut Pool,
    some: &mut Alternatives,
    more: &[TypeId],
) -> Result<(), NoMemory>
    requires parts { AreAltParts pool.old.types some.old.parts.items }
    requires more { AreAltParts pool.old.types more.now }
    ensures fits { OnOk result (AddsFits (trees pool.old.types some.old.parts.items) (trees pool.old.types more.now) (trees pool.new.types some.new.parts.items)) }
    ensures parts { OnOk result (AreAltParts pool.new.types some.new.parts.items) }
    ensures some { OnOk result ((0 < length some.old.parts.items) ⊎ (0 < length more.now) → 0 < length some.new.parts.items) }
    ensures keeps { GrowsTypes pool.old.types pool.new.types }
{
    for next in more {
        add_alternative(alloc, pool, some, *next)?;
    }
    Ok(())
}

/// Puts the alternatives of a type to others; whether the empty document is one.
fn add_choice(
    alloc: Global,
    pool: &mut Pool,
    some: &mut Alternatives,
    id: TypeId,
) -> Result<bool, NoMemory>
    requires parts { AreAltParts pool.old.types some.old.parts.items }
    requires id { BelongsTo pool.old.types id }
    ensures fits { IfOk result (λ e. (T : Tree) (b : Bool) → IsChoice T (trees pool.old.types some.old.parts.items) b → IsChoice (Alt T (tree pool.old.types id)) (trees pool.new.types some.new.parts.items) (b || e)) }
    ensures parts { OnOk result (AreAltParts pool.new.types some.new.parts.items) }
    ensures grows { OnOk result (0 < length some.old.parts.items → 0 < length some.new.parts.items) }
    ensures keeps { GrowsTypes pool.old.types pool.new.types }
{
    let choice = choice_of(alloc, pool, id)?;
    add_alternatives(alloc, pool, some, &choice.parts)?;
    Ok(choice.empty)
}

/// Alternatives as a type.
fn choice_type(pool: &mut Pool, parts: Vec<TypeId>, empty: bool) -> Result<TypeId, NoMemory>
    requires parts { AreAltParts pool.old.types parts.items }
    requires some { (0 < length parts.items) ⊎ (empty ≡ true) }
    ensures same { IfOk result (λ id. (T : Tree) → IsChoice T (trees pool.old.types parts.items) empty → MeansSame (tree pool.new.types id) T) }
    ensures belongs { IfOk result (BelongsTo pool.new.types) }
    ensures keeps { GrowsTypes pool.old.types pool.new.types }
{
    if parts.is_empty() {
        return node(pool, TypeForm::Empty);
    }
    if !empty {
        return alt_from(pool, parts);
    }
    if some_plainly_empty(pool, &parts) {
        return alt_from(pool, parts);
    }
    let id = alt_from(pool, parts)?;
    opt(pool, id)
}

/// The alternatives of several types, each once.
fn choice_of_all(
    alloc: Global,
    pool: &mut Pool,
    first: TypeId,
    more: &[TypeId],
) -> Result<Choice, NoMemory>
    requires first { BelongsTo pool.old.types first }
    requires more { AllByRecursion (BelongsTo pool.old.types) more.now }
    ensures fits { IfOk result (λ choice. IsChoice (alt_of (tree pool.old.types first ∷ trees pool.old.types more.now)) (trees pool.new.types choice.parts.items) choice.empty) }
    ensures parts { IfOk result (λ choice. AreAltParts pool.new.types choice.parts.items) }
    ensures some { IfOk result (λ choice. (0 < length choice.parts.items) ⊎ (choice.empty ≡ true)) }
    ensures keeps { GrowsTypes pool.old.types pool.new.types }
{
    let choice = choice_of(alloc, pool, first)?;
    let mut some = no_alternatives(alloc);
    add_alternatives(alloc, pool, &mut some, &choice.parts)?;
    let mut empty = choice.empty;
    for id in more {
        let also = add_choice(alloc, pool, &mut some, *id)?;
        empty = empty | also;
    }
    Ok(Choice {
        parts: some.parts,
        empty,
    })
}

/// The type of what fits one of two types. Alternatives that end in the same parts stay as they
/// are.
pub(crate) fn plain_alt(
    alloc: Global,
    pool: &mut Pool,
    one: TypeId,
    two: TypeId,
) -> Result<TypeId, NoMemory>
    requires one { BelongsTo pool.old.types one }
    requires two { BelongsTo pool.old.types two }
    ensures same { IfOk result (λ id. MeansSame (tree pool.new.types id) (Alt (tree pool.old.types one) (tree pool.old.types two))) }
    ensures belongs { IfOk result (BelongsTo pool.new.types) }
    ensures keeps { GrowsTypes pool.old.types pool.new.types }
{
    let Choice { parts, empty } = choice_of_all(alloc, pool, one, &[two])?;
    choice_type(pool, parts, empty)
}

/// The type of what fits one of several types, written short; the order stays.
///
/// An alternative that another takes in is left out, elements with one content become one,
/// alternatives that end in the same parts are put together, and of several ways to be empty one is
/// kept. The time is linear in the alternatives, but for the classes of labels and the sequences
/// that are put together. Fails only where memory is refused; the table may have more types then,
/// and keeps its old ones.
pub fn alt_of_all(
    alloc: Global,
    pool: &mut Pool,
    first: TypeId,
    more: &[TypeId],
) -> Result<TypeId, NoMemory>
    requires first { BelongsTo pool.old.types first }
    requires more { AllByRecursion (BelongsTo pool.old.types) more.now }
    ensures same { IfOk result (λ id. MeansSame (tree pool.new.types id) (alt_of (tree pool.old.types first ∷ trees pool.old.types more.now))) }
    ensures belongs { IfOk result (BelongsTo pool.new.types) }
    ensures keeps { GrowsTypes pool.old.types pool.new.types }
{
    let choice = choice_of_all(alloc, pool, first, more)?;
    let parts = join_ends(alloc, pool, &choice.parts)?;
    choice_type(pool, parts, choice.empty)
}

/// The type of what fits one of two types, written short as by `alt_of_all`. Fails only where
/// memory is refused; the table may have more types then, and keeps its old ones.
pub fn alt(alloc: Global, pool: &mut Pool, one: TypeId, two: TypeId) -> Result<TypeId, NoMemory>
    requires one { BelongsTo pool.old.types one }
    requires two { BelongsTo pool.old.types two }
    ensures same { IfOk result (λ id. MeansSame (tree pool.new.types id) (Alt (tree pool.old.types one) (tree pool.old.types two))) }
    ensures belongs { IfOk result (BelongsTo pool.new.types) }
    ensures keeps { GrowsTypes pool.old.types pool.new.types }
{
    alt_of_all(alloc, pool, one, &[two])
}

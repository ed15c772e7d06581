//! Types one after the other.

ghost use Rattle.std.specs.Prelude.{◌≡◌, ◌<◌, ◌≤◌, ◌-◌, ◌++◌, ◌∷◌, [], IfOk, OnOk, true, length, take};
ghost use Rattle.std.specs.Option.{IfSome};
ghost use Rattle.xd_syntax.specs.Table.{IsSeqPart};
ghost use Rattle.xd_same_types.specs.Grown.{GrowsTypes};
ghost use Rattle.xd_syntax.specs.Tree.{Opt, Plus, Seq, Star, seq_of};
ghost use Rattle.xd_syntax.specs.Types.{BelongsTo, tree};
ghost use Rattle.xd_same_types.specs.Same.{AreSeqParts, EndsRepeated, MeansSame, trees};

use crate::pool::{Pool, node};
use crate::same::are_same_parts;
use std::alloc::Global;
use xd_doc::NoMemory;
use xd_syntax::{TypeForm, TypeId};

/// A list of one part.
pub(crate) fn one_part(alloc: Global, id: TypeId) -> Result<Vec<TypeId>, NoMemory>
    ensures { IfOk result (λ parts. parts.items ≡ id ∷ []) }
{
    let mut parts = Vec::new(alloc);
    parts.push(id)?;
    Ok(parts)
}

/// The parts of a type as a sequence.
pub(crate) fn seq_parts(alloc: Global, pool: &Pool, id: TypeId) -> Result<Vec<TypeId>, NoMemory>
    requires { BelongsTo pool.now.types id }
    ensures parts { IfOk result (λ parts. AreSeqParts pool.now.types parts.items) }
    ensures tree { IfOk result (λ parts. seq_of (trees pool.now.types parts.items) ≡ tree pool.now.types id) }
{
    match pool.types.node(id).form() {
        TypeForm::Empty => Ok(Vec::new(alloc)),
        TypeForm::Seq(pieces) => Ok(Vec::from_slice(alloc, pieces)?),
        _ => one_part(alloc, id),
    }
}

/// The sequence of these parts.
pub(crate) fn seq_of(pool: &mut Pool, parts: Vec<TypeId>) -> Result<TypeId, NoMemory>
    requires { AreSeqParts pool.old.types parts.items }
    ensures tree { IfOk result (λ id. tree pool.new.types id ≡ seq_of (trees pool.old.types parts.items)) }
    ensures belongs { IfOk result (BelongsTo pool.new.types) }
    ensures keeps { GrowsTypes pool.old.types pool.new.types }
{
    if parts.is_empty() {
        return node(pool, TypeForm::Empty);
    }
    if parts.len() == 1 {
        return Ok(parts[0]);
    }
    node(pool, TypeForm::Seq(parts))
}

/// What a star repeats.
pub(crate) fn star_of(pool: &Pool, id: TypeId) -> Option<TypeId>
    requires { BelongsTo pool.now.types id }
    ensures star { IfSome result (λ part. tree pool.now.types id ≡ Star (tree pool.now.types part)) }
    ensures belongs { IfSome result (BelongsTo pool.now.types) }
{
    match pool.types.node(id).form() {
        TypeForm::Star(part) => Some(*part),
        _ => None,
    }
}

/// Whether it is the star of this part.
pub(crate) fn is_star(pool: &Pool, id: TypeId, of: TypeId) -> bool
    requires { BelongsTo pool.now.types id }
    ensures { result ≡ true → tree pool.now.types id ≡ Star (tree pool.now.types of) }
{
    match pool.types.node(id).form() {
        TypeForm::Star(part) => part.at() == of.at(),
        _ => false,
    }
}

/// Whether it is the plus of this part.
pub(crate) fn is_plus(pool: &Pool, id: TypeId, of: TypeId) -> bool
    requires { BelongsTo pool.now.types id }
    ensures { result ≡ true → tree pool.now.types id ≡ Plus (tree pool.now.types of) }
{
    match pool.types.node(id).form() {
        TypeForm::Plus(part) => part.at() == of.at(),
        _ => false,
    }
}

/// Whether it is this part or nothing.
fn is_opt(pool: &Pool, id: TypeId, of: TypeId) -> bool
    requires { BelongsTo pool.now.types id }
    ensures { result ≡ true → tree pool.now.types id ≡ Opt (tree pool.now.types of) }
{
    match pool.types.node(id).form() {
        TypeForm::Opt(part) => part.at() == of.at(),
        _ => false,
    }
}

/// The type of two that stand one after the other which stands for both: `x*,x*` is `x*`.
fn absorbed(pool: &Pool, one: TypeId, two: TypeId) -> Option<TypeId>
    requires one { IsSeqPart pool.now.types one.at }
    requires two { IsSeqPart pool.now.types two.at }
    ensures same { IfSome result (λ id. MeansSame (tree pool.now.types id) (Seq (tree pool.now.types one) (tree pool.now.types two))) }
    ensures part { IfSome result (λ id. IsSeqPart pool.now.types id.at) }
{
    if let Some(part) = star_of(pool, two) {
        if is_star(pool, one, part) {
            return Some(one);
        }
        if is_plus(pool, one, part) {
            return Some(one);
        }
        if is_opt(pool, one, part) {
            return Some(two);
        }
    }
    if let Some(part) = star_of(pool, one) {
        if is_plus(pool, two, part) {
            return Some(two);
        }
        if is_opt(pool, two, part) {
            return Some(one);
        }
    }
    None
}

/// Of `x,x*` and of `x*,x` what stands once and again.
fn once_and_again(pool: &Pool, one: TypeId, two: TypeId) -> Option<TypeId>
    requires one { IsSeqPart pool.now.types one.at }
    requires two { IsSeqPart pool.now.types two.at }
    ensures same { IfSome result (λ id. MeansSame (Plus (tree pool.now.types id)) (Seq (tree pool.now.types one) (tree pool.now.types two))) }
    ensures belongs { IfSome result (BelongsTo pool.now.types) }
{
    if is_star(pool, two, one) {
        return Some(one);
    }
    if is_star(pool, one, two) {
        return Some(two);
    }
    None
}

/// One type for two that stand one after the other, where there is one: `x,x*` is `x+`, and
/// `x*,x*` is `x*`.
fn fused(pool: &mut Pool, one: TypeId, two: TypeId) -> Result<Option<TypeId>, NoMemory>
    requires one { IsSeqPart pool.old.types one.at }
    requires two { IsSeqPart pool.old.types two.at }
    ensures same { IfOk result (λ found. IfSome found (λ id. MeansSame (tree pool.new.types id) (Seq (tree pool.old.types one) (tree pool.old.types two)))) }
    ensures part { IfOk result (λ found. IfSome found (λ id. IsSeqPart pool.new.types id.at)) }
    ensures keeps { GrowsTypes pool.old.types pool.new.types }
{
    if let Some(id) = absorbed(pool, one, two) {
        return Ok(Some(id));
    }
    match once_and_again(pool, one, two) {
        Some(part) => Ok(Some(node(pool, TypeForm::Plus(part))?)),
        None => Ok(None),
    }
}

/// Whether these parts stand at the end.
fn ends_with(parts: &[TypeId], end: &[TypeId]) -> bool
    ensures within { result ≡ true → length end.now ≤ length parts.now }
    ensures end { result ≡ true → parts.now ≡ take (length parts.now - length end.now) parts.now ++ end.now }
{
    if parts.len() < end.len() {
        return false;
    }
    are_same_parts(&parts[parts.len() - end.len()..], end)
}

/// Takes what a star repeats from the end of the parts, and gives the plus of it; else the type
/// itself.
fn gather(
    alloc: Global,
    pool: &mut Pool,
    parts: &mut Vec<TypeId>,
    next: TypeId,
) -> Result<TypeId, NoMemory>
    requires parts { AreSeqParts pool.old.types parts.old.items }
    requires next { IsSeqPart pool.old.types next.at }
    ensures same { IfOk result (λ id. MeansSame (Seq (seq_of (trees pool.new.types parts.new.items)) (tree pool.new.types id)) (Seq (seq_of (trees pool.old.types parts.old.items)) (tree pool.old.types next))) }
    ensures parts { AreSeqParts pool.new.types parts.new.items }
    ensures next { IfOk result (λ id. IsSeqPart pool.new.types id.at) }
    ensures keeps { GrowsTypes pool.old.types pool.new.types }
{
    let Some(body) = star_of(pool, next) else {
        return Ok(next);
    };
    let inner = seq_parts(alloc, pool, body)?;
    if inner.len() < 2 || !ends_with(parts, &inner) {
        return Ok(next);
    }
    let plus = node(pool, TypeForm::Plus(body))?;
    parts.truncate(parts.len() - inner.len());
    Ok(plus)
}

/// Puts a part after the others, or one for it and the last of them.
fn push_fused(pool: &mut Pool, parts: &mut Vec<TypeId>, next: TypeId) -> Result<(), NoMemory>
    requires parts { AreSeqParts pool.old.types parts.old.items }
    requires next { IsSeqPart pool.old.types next.at }
    ensures same { OnOk result (MeansSame (seq_of (trees pool.new.types parts.new.items)) (Seq (seq_of (trees pool.old.types parts.old.items)) (tree pool.old.types next))) }
    ensures parts { AreSeqParts pool.new.types parts.new.items }
    ensures keeps { GrowsTypes pool.old.types pool.new.types }
{
    if parts.is_empty() {
        parts.push(next)?;
        return Ok(());
    }
    let last = parts[parts.len() - 1];
    match fused(pool, last, next)? {
        Some(one) => {
            parts.truncate(parts.len() - 1);
            parts.push(one)?;
        }
        None => parts.push(next)?,
    }
    Ok(())
}

/// Whether the part at a place is a star, and what it repeats follows it up to the end.
fn is_repeated(pool: &Pool, parts: &[TypeId], place: usize) -> bool
    requires parts { AreSeqParts pool.now.types parts.now }
    requires place { place < length parts.now }
    ensures { result ≡ true → EndsRepeated pool.now.types parts.now place }
{
    let star = parts[place];
    let Some(body) = star_of(pool, star) else {
        return false;
    };
    match pool.types.node(body).form() {
        TypeForm::Seq(pieces) => are_same_parts(pieces, &parts[place + 1..]),
        _ => false,
    }
}

/// How far back a star is looked for.
const REACH: usize = 32;

/// The star at whose place all parts up to the end are its plus, if there is one among the last
/// parts.
fn repeated_place(pool: &Pool, parts: &[TypeId]) -> Option<usize>
    requires { AreSeqParts pool.now.types parts.now }
    ensures { IfSome result (EndsRepeated pool.now.types parts.now) }
{
    for place in parts.len().saturating_sub(REACH)..parts.len() {
        if is_repeated(pool, parts, place) {
            return Some(place);
        }
    }
    None
}

/// Writes `(x,y)*,x,y` at the end of the parts as `(x,y)+`.
fn gather_back(pool: &mut Pool, parts: &mut Vec<TypeId>) -> Result<(), NoMemory>
    requires { AreSeqParts pool.old.types parts.old.items }
    ensures same { OnOk result (MeansSame (seq_of (trees pool.new.types parts.new.items)) (seq_of (trees pool.old.types parts.old.items))) }
    ensures parts { OnOk result (AreSeqParts pool.new.types parts.new.items) }
    ensures keeps { GrowsTypes pool.old.types pool.new.types }
{
    let Some(place) = repeated_place(pool, parts) else {
        return Ok(());
    };
    let star = parts[place];
    let Some(body) = star_of(pool, star) else {
        return Ok(());
    };
    let plus = node(pool, TypeForm::Plus(body))?;
    parts.truncate(place);
    parts.push(plus)?;
    Ok(())
}

/// Puts one more part after the others.
fn push_part(
    alloc: Global,
    pool: &mut Pool,
    parts: &mut Vec<TypeId>,
    next: TypeId,
) -> Result<(), NoMemory>
    requires parts { AreSeqParts pool.old.types parts.old.items }
    requires next { IsSeqPart pool.old.types next.at }
    ensures same { OnOk result (MeansSame (seq_of (trees pool.new.types parts.new.items)) (Seq (seq_of (trees pool.old.types parts.old.items)) (tree pool.old.types next))) }
    ensures parts { OnOk result (AreSeqParts pool.new.types parts.new.items) }
    ensures keeps { GrowsTypes pool.old.types pool.new.types }
{
    let part = gather(alloc, pool, parts, next)?;
    push_fused(pool, parts, part)?;
    gather_back(pool, parts)
}

/// The type of what fits the first type, followed by what fits the second, written short.
///
/// `x,x*` and `x*,x` become `x+`; `x,y,(x,y)*` and `(x,y)*,x,y` become `(x,y)+`; `x?,x*` and
/// `x*,x*` become `x*`. Fails only where memory is refused; the table may have more types then, and
/// keeps its old ones.
pub fn seq(alloc: Global, pool: &mut Pool, one: TypeId, two: TypeId) -> Result<TypeId, NoMemory>
    requires one { BelongsTo pool.old.types one }
    requires two { BelongsTo pool.old.types two }
    ensures same { IfOk result (λ id. MeansSame (tree pool.new.types id) (Seq (tree pool.old.types one) (tree pool.old.types two))) }
    ensures belongs { IfOk result (BelongsTo pool.new.types) }
    ensures keeps { GrowsTypes pool.old.types pool.new.types }
{
    let mut parts = seq_parts(alloc, pool, one)?;
    let others = seq_parts(alloc, pool, two)?;
    for part in &others {
        push_part(alloc, pool, &mut parts, *part)?;
    }
    seq_of(pool, parts)
}

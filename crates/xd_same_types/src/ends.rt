//! Alternatives that end in the same parts.

ghost use Rattle.std.specs.Prelude.{◌≡◌, ◌<◌, [], IfOk, OnOk, false, length};
ghost use Rattle.std.specs.Option.{IfSome};
ghost use Rattle.xd_syntax.specs.Table.{IsAltPart};
ghost use Rattle.xd_syntax.specs.Tree.{Alt, Seq};
ghost use Rattle.xd_syntax.specs.Types.{BelongsTo, tree};
ghost use Rattle.xd_same_types.specs.Grown.{GrowsTypes};
ghost use Rattle.xd_same_types.specs.Joints.{IsJoint};
ghost use Rattle.xd_same_types.specs.Same.{AddsFit, AddsFits, AreAltParts, MeansSame, trees};

use crate::alts::{Joint, plain_alt};
use crate::pool::Pool;
use crate::seqs::{seq, seq_of, seq_parts};
use std::alloc::Global;
use std::collections::HashMap;
use xd_doc::NoMemory;
use xd_syntax::{TypeForm, TypeId};

/// The number of the part that so many others follow.
fn from_end(parts: &[TypeId], count: usize) -> Option<usize> {
    if count < parts.len() {
        Some(parts[parts.len() - 1 - count].at())
    } else {
        None
    }
}

/// How many parts the lists have in common at their ends.
fn common_end(ones: &[TypeId], twos: &[TypeId]) -> usize {
    for count in 0..ones.len() {
        if from_end(ones, count) != from_end(twos, count) {
            return count;
        }
    }
    ones.len()
}

/// A type as two, one after the other: the second has the last parts, as many as are asked for.
fn split_end(
    alloc: Global,
    pool: &mut Pool,
    id: TypeId,
    count: usize,
) -> Result<(TypeId, TypeId), NoMemory>
    requires { BelongsTo pool.old.types id }
    ensures same { IfOk result (λ two. MeansSame (Seq (tree pool.new.types two.0) (tree pool.new.types two.1)) (tree pool.old.types id)) }
    ensures belong { IfOk result (λ two. BelongsTo pool.new.types two.0 × BelongsTo pool.new.types two.1) }
    ensures keeps { GrowsTypes pool.old.types pool.new.types }
{
    let parts = seq_parts(alloc, pool, id)?;
    let place = parts.len().saturating_sub(count);
    let ahead = seq_of(pool, Vec::from_slice(alloc, &parts[..place])?)?;
    let end = seq_of(pool, Vec::from_slice(alloc, &parts[place..])?)?;
    Ok((ahead, end))
}

/// Whether it is an alternative.
fn is_alternative(pool: &Pool, id: TypeId) -> bool
    requires { BelongsTo pool.now.types id }
    ensures { result ≡ false → IsAltPart pool.now.types id.at }
{
    match pool.types.node(id).form() {
        TypeForm::Alt(_) => true,
        _ => false,
    }
}

/// One of two types in front of a third one, if that is no alternative.
fn one_before(
    alloc: Global,
    pool: &mut Pool,
    ahead: TypeId,
    other: TypeId,
    end: TypeId,
) -> Result<Option<TypeId>, NoMemory>
    requires ahead { BelongsTo pool.old.types ahead }
    requires other { BelongsTo pool.old.types other }
    requires end { BelongsTo pool.old.types end }
    ensures same { IfOk result (λ found. IfSome found (λ id. MeansSame (tree pool.new.types id) (Alt (Seq (tree pool.old.types ahead) (tree pool.old.types end)) (Seq (tree pool.old.types other) (tree pool.old.types end))))) }
    ensures part { IfOk result (λ found. IfSome found (λ id. IsAltPart pool.new.types id.at)) }
    ensures keeps { GrowsTypes pool.old.types pool.new.types }
{
    let front = plain_alt(alloc, pool, ahead, other)?;
    let made = seq(alloc, pool, front, end)?;
    if is_alternative(pool, made) {
        return Ok(None);
    }
    Ok(Some(made))
}

/// One type for two that end in the same parts, if they do: `x,z|y,z` is `(x|y),z`, and `x,z|z` is
/// `x?,z`.
fn joined_end(
    alloc: Global,
    pool: &mut Pool,
    one: TypeId,
    two: TypeId,
) -> Result<Option<TypeId>, NoMemory>
    requires one { BelongsTo pool.old.types one }
    requires two { BelongsTo pool.old.types two }
    ensures same { IfOk result (λ found. IfSome found (λ id. MeansSame (tree pool.new.types id) (Alt (tree pool.old.types one) (tree pool.old.types two)))) }
    ensures part { IfOk result (λ found. IfSome found (λ id. IsAltPart pool.new.types id.at)) }
    ensures keeps { GrowsTypes pool.old.types pool.new.types }
{
    let ones = seq_parts(alloc, pool, one)?;
    let twos = seq_parts(alloc, pool, two)?;
    let count = common_end(&ones, &twos);
    let (ahead, end) = split_end(alloc, pool, one, count)?;
    let (other, also) = split_end(alloc, pool, two, count)?;
    if count == 0 || end.at() != also.at() {
        return Ok(None);
    }
    one_before(alloc, pool, ahead, other, end)
}

/// Alternatives, and where one stands that ends in a part, by the part's number.
#[derive(Drop)]
pub(crate) struct Ended {
    parts: Vec<TypeId>,
    near: HashMap<usize, usize>,
}

/// The number of the last part of a type.
fn last_part(pool: &Pool, id: TypeId) -> usize
    requires { BelongsTo pool.now.types id }
{
    match pool.types.node(id).form() {
        TypeForm::Seq(pieces) => from_end(pieces, 0).unwrap_or(id.at()),
        _ => id.at(),
    }
}

/// Where an alternative stands whose last part is this one's.
fn place_by_end(pool: &Pool, some: &Ended, next: TypeId) -> Option<usize>
    requires { BelongsTo pool.now.types next }
    ensures { IfSome result (λ k. k < length some.now.parts.items) }
{
    match some.near.get(&last_part(pool, next)).copied() {
        Some(place) if place < some.parts.len() => Some(place),
        _ => None,
    }
}

/// One type for an alternative and one more that ends in the same parts, where there is one.
fn joined_by_end(
    alloc: Global,
    pool: &mut Pool,
    some: &Ended,
    next: TypeId,
) -> Result<Option<Joint>, NoMemory>
    requires parts { AreAltParts pool.old.types some.now.parts.items }
    requires next { IsAltPart pool.old.types next.at }
    ensures joint { IfOk result (λ found. IfSome found (IsJoint pool.old.types some.now.parts.items next pool.new.types)) }
    ensures keeps { GrowsTypes pool.old.types pool.new.types }
{
    let Some(place) = place_by_end(pool, some, next) else {
        return Ok(None);
    };
    let old = some.parts[place];
    match joined_end(alloc, pool, old, next)? {
        Some(one) => Ok(Some(Joint { place, one })),
        None => Ok(None),
    }
}

/// Puts one more alternative to the others.
fn add_by_end(
    alloc: Global,
    pool: &mut Pool,
    some: &mut Ended,
    next: TypeId,
) -> Result<(), NoMemory>
    requires parts { AreAltParts pool.old.types some.old.parts.items }
    requires next { IsAltPart pool.old.types next.at }
    ensures fits { OnOk result (AddsFit (trees pool.old.types some.old.parts.items) (tree pool.old.types next) (trees pool.new.types some.new.parts.items)) }
    ensures parts { OnOk result (AreAltParts pool.new.types some.new.parts.items) }
    ensures some { OnOk result (0 < length some.new.parts.items) }
    ensures keeps { GrowsTypes pool.old.types pool.new.types }
{
    let end = last_part(pool, next);
    match joined_by_end(alloc, pool, some, next)? {
        Some(joint) => some.parts[joint.place] = joint.one,
        None => {
            some.near.insert(end, some.parts.len())?;
            some.parts.push(next)?;
        }
    }
    Ok(())
}

/// The same alternatives, those that end in the same parts put together.
pub(crate) fn join_ends(
    alloc: Global,
    pool: &mut Pool,
    parts: &[TypeId],
) -> Result<Vec<TypeId>, NoMemory>
    requires { AreAltParts pool.old.types parts.now }
    ensures fits { IfOk result (λ made. AddsFits [] (trees pool.old.types parts.now) (trees pool.new.types made.items)) }
    ensures parts { IfOk result (λ made. AreAltParts pool.new.types made.items) }
    ensures some { IfOk result (λ made. 0 < length parts.now → 0 < length made.items) }
    ensures keeps { GrowsTypes pool.old.types pool.new.types }
{
    let mut some = Ended {
        parts: Vec::new(alloc),
        near: HashMap::new(alloc),
    };
    for next in parts {
        add_by_end(alloc, pool, &mut some, *next)?;
    }
    Ok(some.parts)
}

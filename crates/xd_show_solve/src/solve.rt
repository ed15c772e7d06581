//! Equations between sums, solved for one unknown after the other.

ghost use Rattle.std.specs.Prelude.{◌≡◌, ◌⊎◌, ◌<◌, ℕ, Some, None, true, false, IfOk, OnOk, length};
ghost use Rattle.std.specs.Option.{IfSome};
ghost use Rattle.xd_same_types.specs.Grown.{GrowsTypes};
ghost use Rattle.xd_syntax.specs.Types.{BelongsTo, tree};
ghost use Rattle.xd_show_solve.specs.Equations.{AddsReplaced, IsAgainBefore, IsParted, IsReplaced, IsSolved, OwnMore, PartsMore, SumStands, own_in, product_in, side_in};
ghost use Rattle.xd_show_solve.specs.Systems.{AllStand, IsSolution, LacksUnknown, ReplacesAt, TakesOut, all_alive, is_alive};

use crate::rounds::take_cheap;
use crate::sums::{Sum, Term, add_multiple, add_term};
use crate::weights::least;
use std::alloc::Global;
use xd_doc::NoMemory;
use xd_same_types::{Pool, alt, star};
use xd_syntax::TypeId;

/// What stands in front of an unknown in a sum, and the rest of the sum.
#[derive(Drop)]
pub(crate) struct Parted {
    own: Option<TypeId>,
    rest: Sum,
}

/// What stands in front of an unknown, and one type more.
fn with_own(
    alloc: Global,
    pool: &mut Pool,
    own: Option<TypeId>,
    by: TypeId,
) -> Result<TypeId, NoMemory>
    requires own { IfSome own (BelongsTo pool.old.types) }
    requires by { BelongsTo pool.old.types by }
    ensures more { IfOk result (λ made. OwnMore (own_in pool.old.types own) (tree pool.old.types by) (tree pool.new.types made)) }
    ensures belongs { IfOk result (BelongsTo pool.new.types) }
    ensures keeps { GrowsTypes pool.old.types pool.new.types }
{
    match own {
        None => Ok(by),
        Some(old) => alt(alloc, pool, old, by),
    }
}

/// Puts a term to one part of a sum or to the other.
fn part_term(
    alloc: Global,
    pool: &mut Pool,
    parts: &mut Parted,
    term: Term,
    of: usize,
) -> Result<(), NoMemory>
    requires rest { SumStands pool.old.types parts.old.rest }
    requires own { IfSome parts.old.own (BelongsTo pool.old.types) }
    requires term { BelongsTo pool.old.types term.by }
    ensures parts { OnOk result (PartsMore of (own_in pool.old.types parts.old.own) (side_in pool.old.types parts.old.rest) (product_in pool.old.types term) (own_in pool.new.types parts.new.own) (side_in pool.new.types parts.new.rest)) }
    ensures rest { OnOk result (SumStands pool.new.types parts.new.rest) }
    ensures own { OnOk result (IfSome parts.new.own (BelongsTo pool.new.types)) }
    ensures keeps { GrowsTypes pool.old.types pool.new.types }
{
    if term.to == of {
        let own = with_own(alloc, pool, parts.own, term.by)?;
        parts.own = Some(own);
        return Ok(());
    }
    parts.rest.terms.push(term)?;
    Ok(())
}

/// A sum in two parts, by an unknown.
fn part_by(alloc: Global, pool: &mut Pool, sum: &Sum, of: usize) -> Result<Parted, NoMemory>
    requires { SumStands pool.old.types sum.now }
    ensures parted { IfOk result (λ made. IsParted (side_in pool.old.types sum.now) of (own_in pool.new.types made.own) (side_in pool.new.types made.rest)) }
    ensures stands { IfOk result (λ made. SumStands pool.new.types made.rest) }
    ensures belongs { IfOk result (λ made. IfSome made.own (BelongsTo pool.new.types)) }
    ensures keeps { GrowsTypes pool.old.types pool.new.types }
{
    let rest = Sum {
        terms: Vec::new(alloc),
        constant: sum.constant,
    };
    let mut parts = Parted { own: None, rest };
    for term in &sum.terms {
        part_term(alloc, pool, &mut parts, *term, of)?;
    }
    Ok(parts)
}

/// The right side of an unknown's equation without the unknown itself: of `X = L,X | R` it is
/// `L*,R`.
pub(crate) fn solved(alloc: Global, pool: &mut Pool, sum: &Sum, of: usize) -> Result<Sum, NoMemory>
    requires { SumStands pool.old.types sum.now }
    ensures solved { IfOk result (λ made. IsSolved of (side_in pool.old.types sum.now) (side_in pool.new.types made)) }
    ensures stands { IfOk result (SumStands pool.new.types) }
    ensures keeps { GrowsTypes pool.old.types pool.new.types }
{
    let Parted { own, rest } = part_by(alloc, pool, sum, of)?;
    match own {
        None => Ok(rest),
        Some(by) => again_before(alloc, pool, by, &rest),
    }
}

/// A repetition of a type in front of a whole sum.
fn again_before(alloc: Global, pool: &mut Pool, by: TypeId, rest: &Sum) -> Result<Sum, NoMemory>
    requires by { BelongsTo pool.old.types by }
    requires rest { SumStands pool.old.types rest.now }
    ensures before { IfOk result (λ made. IsAgainBefore (tree pool.old.types by) (side_in pool.old.types rest.now) (side_in pool.new.types made)) }
    ensures stands { IfOk result (SumStands pool.new.types) }
    ensures keeps { GrowsTypes pool.old.types pool.new.types }
{
    let again = star(alloc, pool, by)?;
    let mut made = Sum {
        terms: Vec::new(alloc),
        constant: None,
    };
    add_multiple(alloc, pool, &mut made, again, rest)?;
    Ok(made)
}

/// Puts a term to a sum, or, in the place of an unknown, the right side of its equation.
fn add_replaced(
    alloc: Global,
    pool: &mut Pool,
    made: &mut Sum,
    term: Term,
    of: usize,
    by: &Sum,
) -> Result<(), NoMemory>
    requires made { SumStands pool.old.types made.old }
    requires term { BelongsTo pool.old.types term.by }
    requires by { SumStands pool.old.types by.now }
    ensures adds { OnOk result (AddsReplaced of (side_in pool.old.types by.now) (side_in pool.old.types made.old) (product_in pool.old.types term) (side_in pool.new.types made.new)) }
    ensures stands { OnOk result (SumStands pool.new.types made.new) }
    ensures keeps { GrowsTypes pool.old.types pool.new.types }
{
    if term.to == of {
        add_multiple(alloc, pool, made, term.by, by)
    } else {
        add_term(alloc, pool, made, term)
    }
}

/// The sum with the right side of an unknown's equation in the place of the unknown.
fn replaced(alloc: Global, pool: &mut Pool, sum: &Sum, of: usize, by: &Sum) -> Result<Sum, NoMemory>
    requires sum { SumStands pool.old.types sum.now }
    requires by { SumStands pool.old.types by.now }
    ensures replaced { IfOk result (λ made. IsReplaced of (side_in pool.old.types by.now) (side_in pool.old.types sum.now) (side_in pool.new.types made)) }
    ensures stands { IfOk result (SumStands pool.new.types) }
    ensures keeps { GrowsTypes pool.old.types pool.new.types }
{
    let mut made = Sum {
        terms: Vec::new(alloc),
        constant: sum.constant,
    };
    for term in &sum.terms {
        add_replaced(alloc, pool, &mut made, *term, of, by)?;
    }
    Ok(made)
}

/// Whether the sum has the unknown.
fn uses(sum: &Sum, of: usize) -> bool
    ensures { result ≡ false → LacksUnknown of sum.now }
{
    for term in &sum.terms {
        if term.to == of {
            return true;
        }
    }
    false
}

/// Puts the right side of an unknown's equation in the place of the unknown, in the sum of this
/// number.
fn replace_at(
    alloc: Global,
    pool: &mut Pool,
    sums: &mut Vec<Sum>,
    number: usize,
    gone: usize,
    own: &Sum,
) -> Result<(), NoMemory>
    requires number { number < length sums.old.items }
    requires sums { AllStand pool.old.types sums.old.items }
    requires own { SumStands pool.old.types own.now }
    ensures replaces { OnOk result (ReplacesAt pool.old.types pool.new.types gone own.now number sums.old.items sums.new.items) }
    ensures stand { OnOk result (AllStand pool.new.types sums.new.items) }
    ensures keeps { GrowsTypes pool.old.types pool.new.types }
{
    if uses(&sums[number], gone) {
        let made = replaced(alloc, pool, &sums[number], gone, own)?;
        sums[number] = made;
    }
    Ok(())
}

/// Takes an unknown out of all other equations.
fn eliminate(
    alloc: Global,
    pool: &mut Pool,
    sums: &mut Vec<Sum>,
    alive: &mut Vec<bool>,
    gone: usize,
) -> Result<(), NoMemory>
    requires gone { gone < length sums.old.items }
    requires count { length alive.old.items ≡ length sums.old.items }
    requires alive { is_alive alive.old.items gone ≡ true }
    requires sums { AllStand pool.old.types sums.old.items }
    ensures out { OnOk result (TakesOut pool.old.types pool.new.types gone alive.old.items alive.new.items sums.old.items sums.new.items) }
    ensures stand { OnOk result (AllStand pool.new.types sums.new.items) }
    ensures keeps { GrowsTypes pool.old.types pool.new.types }
{
    let own = solved(alloc, pool, &sums[gone], gone)?;
    alive[gone] = false;
    for number in 0..sums.len() {
        replace_at(alloc, pool, sums, number, gone, &own)?;
    }
    Ok(())
}

/// As many times yes as there are sums.
fn all_true(alloc: Global, sums: &[Sum]) -> Result<Vec<bool>, NoMemory>
    ensures { IfOk result (λ made. made.items ≡ all_alive sums.now) }
{
    let mut made = Vec::new(alloc);
    for _sum in sums {
        made.push(true)?;
    }
    Ok(made)
}

/// The first unknown as a type; `None` where it stands for no document.
pub(crate) fn solution(
    alloc: Global,
    pool: &mut Pool,
    mut sums: Vec<Sum>,
) -> Result<Option<TypeId>, NoMemory>
    requires stand { AllStand pool.old.types sums.items }
    requires some { 0 < length sums.items }
    ensures exact { IfOk result (IsSolution pool.old.types pool.new.types sums.items) }
    ensures belongs { IfOk result (λ found. IfSome found (BelongsTo pool.new.types)) }
    ensures keeps { GrowsTypes pool.old.types pool.new.types }
{
    let mut alive = all_true(alloc, &sums)?;
    loop {
        take_cheap(alloc, pool, &mut sums, &mut alive)?;
        match least(alloc, pool, &sums, &alive)? {
            None => break,
            Some(left) => eliminate(alloc, pool, &mut sums, &mut alive, left.number)?,
        }
    }
    let own = solved(alloc, pool, &sums[0], 0)?;
    Ok(own.constant)
}

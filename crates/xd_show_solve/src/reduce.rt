//! Sums that have all terms of another one, written with the other's unknown.

ghost use Rattle.std.specs.Prelude.{◌≡◌, ◌⊎◌, ◌<◌, List, None, true, IfOk, OnOk, length};
ghost use Rattle.std.specs.List.{AllByRecursion};
ghost use Rattle.std.specs.Option.{IfSome};
ghost use Rattle.xd_doc.specs.Members.{IsOneOf};
ghost use Rattle.xd_syntax.specs.Table.{Row};
ghost use Rattle.xd_same_types.specs.Grown.{GrowsTypes};
ghost use Rattle.xd_syntax.specs.Types.{BelongsTo};
ghost use Rattle.xd_show_solve.specs.Equations.{AddsProduct, AddsUnless, Covers, IsShort, SameSide, Shortens, SumStands, kept_constant, product_in, side_in};
ghost use Rattle.xd_show_solve.specs.Systems.{AllStand, IsBefore, IsCovered, Reduces, Rewrites, summand_count};

use crate::bundles::{bundled, terms_of};
use crate::sums::{Sum, Term};
use std::alloc::Global;
use xd_doc::NoMemory;
use xd_same_types::{Pool, node};
use xd_syntax::{TypeForm, TypeId};

/// Whether the term is among these.
fn has_term(terms: &[Term], term: Term) -> bool
    ensures { result ≡ true → IsOneOf term terms.now }
{
    for other in terms {
        if other.to == term.to && other.by.at() == term.by.at() {
            return true;
        }
    }
    false
}

/// Whether all of these terms are among the others.
fn has_terms(terms: &[Term], few: &[Term]) -> bool
    ensures { result ≡ true → AllByRecursion (λ u. IsOneOf u terms.now) few.now }
{
    for term in few {
        if !has_term(terms, *term) {
            return false;
        }
    }
    true
}

/// Whether there is no second constant, or it is the first one.
fn has_constant(one: Option<TypeId>, two: Option<TypeId>) -> bool
    ensures { result ≡ true → (two ≡ None) ⊎ (one ≡ two) }
{
    let Some(second) = two else {
        return true;
    };
    match one {
        None => false,
        Some(first) => first.at() == second.at(),
    }
}

/// Whether the first sum has all that the second one has.
fn covers(one: &Sum, two: &Sum) -> bool
    ensures { result ≡ true → Covers one.now two.now }
{
    if !has_constant(one.constant, two.constant) {
        return false;
    }
    has_terms(&one.terms, &two.terms)
}

/// Whether the terms lead to several unknowns, or to one that leads on. Others are put together by
/// alternatives alone.
fn lead_on(sums: &[Sum], terms: &[Term]) -> bool {
    let Some(first) = terms.first() else {
        return false;
    };
    for term in terms {
        if term.to != first.to {
            return true;
        }
    }
    match sums.get(first.to) {
        Some(target) => !target.terms.is_empty(),
        None => false,
    }
}

/// How many summands a sum has.
fn summand_count(sum: &Sum) -> usize
    ensures { result ≡ summand_count sum.now }
{
    match sum.constant {
        None => sum.terms.len(),
        Some(_) => sum.terms.len() + 1,
    }
}

/// Whether the sum at one place has fewer summands than that at the other place, or as many and
/// stands before it.
fn comes_before(sums: &[Sum], other: usize, number: usize) -> bool
    requires other { other < length sums.now }
    requires number { number < length sums.now }
    ensures { result ≡ true → IsBefore sums.now other number }
{
    let count = summand_count(&sums[other]);
    let most = summand_count(&sums[number]);
    count < most || (count == most && other < number)
}

/// Of the sums that come before, all of whose summands this one has too, the one with most; none
/// where this one leads to the end alone.
fn covered(sums: &[Sum], number: usize) -> Option<usize>
    requires { number < length sums.now }
    ensures { IfSome result (IsCovered sums.now number) }
{
    let sum = &sums[number];
    if !lead_on(sums, &sum.terms) {
        return None;
    }
    let mut best = None;
    let mut most = 0;
    for other in 0..sums.len() {
        let count = sums[other].terms.len();
        if count > most && comes_before(sums, other, number) && covers(sum, &sums[other]) {
            best = Some(other);
            most = count;
        }
    }
    best
}

/// Puts a term after the others.
fn push_term(made: &mut Sum, term: Term) -> Result<(), NoMemory>
    ensures adds { OnOk result ((types : List Row) → SumStands types made.old → BelongsTo types term.by → AddsProduct (side_in types made.old) (product_in types term) (side_in types made.new)) }
    ensures stands { OnOk result ((types : List Row) → SumStands types made.old → BelongsTo types term.by → SumStands types made.new) }
{
    made.terms.push(term)?;
    Ok(())
}

/// Puts a term after the others, unless another sum has it.
fn push_unless(made: &mut Sum, term: Term, other: &Sum) -> Result<(), NoMemory>
    ensures adds { OnOk result ((types : List Row) → SumStands types made.old → BelongsTo types term.by → AddsUnless (side_in types other.now) (side_in types made.old) (product_in types term) (side_in types made.new)) }
    ensures stands { OnOk result ((types : List Row) → SumStands types made.old → BelongsTo types term.by → SumStands types made.new) }
{
    if has_term(&other.terms, term) {
        return Ok(());
    }
    push_term(made, term)
}

/// The constant of a sum, unless another one has it.
fn kept_constant(one: Option<TypeId>, two: Option<TypeId>) -> Option<TypeId>
    ensures { result ≡ kept_constant one two }
{
    match two {
        None => one,
        Some(_) => None,
    }
}

/// The sum without what another one has.
fn without(alloc: Global, sum: &Sum, other: &Sum) -> Result<Sum, NoMemory>
    requires { Covers sum.now other.now }
    ensures short { IfOk result (λ made. (types : List Row) → SumStands types sum.now → IsShort (side_in types other.now) (side_in types sum.now) (side_in types made)) }
    ensures stands { IfOk result (λ made. (types : List Row) → SumStands types sum.now → SumStands types made) }
{
    let mut made = Sum {
        terms: Vec::new(alloc),
        constant: kept_constant(sum.constant, other.constant),
    };
    for term in &sum.terms {
        push_unless(&mut made, *term, other)?;
    }
    Ok(made)
}

/// The sum with an unknown in the place of what the unknown's sum has.
fn with_unknown(
    alloc: Global,
    pool: &mut Pool,
    sum: &Sum,
    other: &Sum,
    of: usize,
) -> Result<Sum, NoMemory>
    requires sum { SumStands pool.old.types sum.now }
    requires other { SumStands pool.old.types other.now }
    requires covers { Covers sum.now other.now }
    ensures shortens { IfOk result (λ made. Shortens of (side_in pool.old.types other.now) (side_in pool.old.types sum.now) (side_in pool.new.types made)) }
    ensures stands { IfOk result (SumStands pool.new.types) }
    ensures keeps { GrowsTypes pool.old.types pool.new.types }
{
    let mut rest = without(alloc, sum, other)?;
    let by = node(pool, TypeForm::Empty)?;
    push_term(&mut rest, Term { by, to: of })?;
    merged(alloc, pool, &rest)
}

/// The sum with one term for each unknown.
fn merged(alloc: Global, pool: &mut Pool, sum: &Sum) -> Result<Sum, NoMemory>
    requires { SumStands pool.old.types sum.now }
    ensures same { IfOk result (λ made. SameSide (side_in pool.old.types sum.now) (side_in pool.new.types made)) }
    ensures stands { IfOk result (SumStands pool.new.types) }
    ensures keeps { GrowsTypes pool.old.types pool.new.types }
{
    let bundles = bundled(alloc, &sum.terms)?;
    let terms = terms_of(alloc, pool, &bundles)?;
    Ok(Sum {
        terms,
        constant: sum.constant,
    })
}

/// A sum, written with another one's unknown where it can be.
fn rewritten(alloc: Global, pool: &mut Pool, sums: &[Sum], number: usize) -> Result<Sum, NoMemory>
    requires sums { AllStand pool.old.types sums.now }
    requires number { number < length sums.now }
    ensures rewrites { IfOk result (λ made. Rewrites pool.old.types sums.now number (side_in pool.new.types made)) }
    ensures stands { IfOk result (SumStands pool.new.types) }
    ensures keeps { GrowsTypes pool.old.types pool.new.types }
{
    match covered(sums, number) {
        None => merged(alloc, pool, &sums[number]),
        Some(other) => with_unknown(alloc, pool, &sums[number], &sums[other], other),
    }
}

/// The same equations, with fewer summands.
pub(crate) fn reduced(alloc: Global, pool: &mut Pool, sums: &[Sum]) -> Result<Vec<Sum>, NoMemory>
    requires { AllStand pool.old.types sums.now }
    ensures reduces { IfOk result (λ made. Reduces pool.old.types pool.new.types sums.now made.items) }
    ensures stand { IfOk result (λ made. AllStand pool.new.types made.items) }
    ensures keeps { GrowsTypes pool.old.types pool.new.types }
{
    let mut made = Vec::new(alloc);
    for number in 0..sums.len() {
        let sum = rewritten(alloc, pool, sums, number)?;
        made.push(sum)?;
    }
    Ok(made)
}

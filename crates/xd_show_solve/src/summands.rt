//! Summands that are put together at once, however many there are.

ghost use Rattle.std.specs.Prelude.{◌≡◌, List, [], None, IfOk, OnOk};
ghost use Rattle.std.specs.List.{AllByRecursion};
ghost use Rattle.std.specs.Option.{IfSome};
ghost use Rattle.xd_syntax.specs.Table.{Row};
ghost use Rattle.xd_same_types.specs.Grown.{GrowsTypes};
ghost use Rattle.xd_syntax.specs.Types.{BelongsTo, tree};
ghost use Rattle.xd_show_solve.specs.Equations.{AddsConstant, AddsMultiple, AddsProduct, SameSide, SumStands, TermsStand, own_in, product_in, products, side_in};
ghost use Rattle.xd_show_solve.specs.Summands.{MeansOne, SummandsStand, one_in, summands_in};

use crate::bundles::{bundled, terms_of};
use crate::sums::{Sum, Term};
use std::alloc::Global;
use xd_doc::NoMemory;
use xd_same_types::{Pool, alt_of_all, seq};
use xd_syntax::TypeId;

/// Types in front of unknowns, and types alone, the first and more, none of them put together with
/// another yet.
#[derive(Drop)]
pub(crate) struct Summands {
    pub(crate) terms: Vec<Term>,
    pub(crate) first: Option<TypeId>,
    pub(crate) more: Vec<TypeId>,
}

/// No term, and a type alone, if there is one.
pub(crate) fn first_summands(alloc: Global, constant: Option<TypeId>) -> Summands
    ensures terms { result.terms.items ≡ [] }
    ensures first { result.first ≡ constant }
    ensures more { result.more.items ≡ [] }
{
    Summands {
        terms: Vec::new(alloc),
        first: constant,
        more: Vec::new(alloc),
    }
}

/// One more term.
pub(crate) fn push_term(some: &mut Summands, term: Term) -> Result<(), NoMemory>
    ensures adds { OnOk result ((types : List Row) → AddsProduct (summands_in types some.old) (product_in types term) (summands_in types some.new)) }
    ensures stand { OnOk result ((types : List Row) → SummandsStand types some.old → BelongsTo types term.by → SummandsStand types some.new) }
{
    some.terms.push(term)?;
    Ok(())
}

/// One more type alone.
pub(crate) fn push_constant(alloc: Global, some: &mut Summands, id: TypeId) -> Result<(), NoMemory>
    ensures adds { OnOk result ((types : List Row) → AddsConstant (summands_in types some.old) (tree types id) (summands_in types some.new)) }
    ensures stand { OnOk result ((types : List Row) → SummandsStand types some.old → BelongsTo types id → SummandsStand types some.new) }
{
    match some.first {
        None => {
            some.first = Some(id);
            some.more = Vec::new(alloc);
            Ok(())
        }
        Some(_) => {
            some.more.push(id)?;
            Ok(())
        }
    }
}

/// A type in front of each term, put to others.
fn push_products(
    alloc: Global,
    pool: &mut Pool,
    some: &mut Summands,
    by: TypeId,
    terms: &[Term],
) -> Result<(), NoMemory>
    requires some { SummandsStand pool.old.types some.old }
    requires by { BelongsTo pool.old.types by }
    requires terms { TermsStand pool.old.types terms.now }
    ensures adds { OnOk result (AddsMultiple (summands_in pool.old.types some.old) (tree pool.old.types by) (record { products = products pool.old.types terms.now; constant = None }) (summands_in pool.new.types some.new)) }
    ensures stand { OnOk result (SummandsStand pool.new.types some.new) }
    ensures keeps { GrowsTypes pool.old.types pool.new.types }
{
    for term in terms {
        let product = seq(alloc, pool, by, term.by)?;
        push_term(
            some,
            Term {
                by: product,
                to: term.to,
            },
        )?;
    }
    Ok(())
}

/// A type in front of a whole sum, put to others.
pub(crate) fn push_multiple(
    alloc: Global,
    pool: &mut Pool,
    some: &mut Summands,
    by: TypeId,
    sum: &Sum,
) -> Result<(), NoMemory>
    requires some { SummandsStand pool.old.types some.old }
    requires by { BelongsTo pool.old.types by }
    requires sum { SumStands pool.old.types sum.now }
    ensures adds { OnOk result (AddsMultiple (summands_in pool.old.types some.old) (tree pool.old.types by) (side_in pool.old.types sum.now) (summands_in pool.new.types some.new)) }
    ensures stand { OnOk result (SummandsStand pool.new.types some.new) }
    ensures keeps { GrowsTypes pool.old.types pool.new.types }
{
    push_products(alloc, pool, some, by, &sum.terms)?;
    match sum.constant {
        None => Ok(()),
        Some(constant) => {
            let product = seq(alloc, pool, by, constant)?;
            push_constant(alloc, some, product)
        }
    }
}

/// One type for several alternatives, if there are any.
fn one_type(
    alloc: Global,
    pool: &mut Pool,
    first: Option<TypeId>,
    more: &[TypeId],
) -> Result<Option<TypeId>, NoMemory>
    requires first { IfSome first (BelongsTo pool.old.types) }
    requires more { AllByRecursion (BelongsTo pool.old.types) more.now }
    ensures one { IfOk result (λ o. MeansOne (one_in pool.old.types first more.now) (own_in pool.new.types o)) }
    ensures belongs { IfOk result (λ o. IfSome o (BelongsTo pool.new.types)) }
    ensures keeps { GrowsTypes pool.old.types pool.new.types }
{
    match first {
        None => Ok(None),
        Some(id) => {
            let made = alt_of_all(alloc, pool, id, more)?;
            Ok(Some(made))
        }
    }
}

/// Summands as a sum with one term for each unknown.
pub(crate) fn put_together(alloc: Global, pool: &mut Pool, some: &Summands) -> Result<Sum, NoMemory>
    requires { SummandsStand pool.old.types some.now }
    ensures same { IfOk result (λ made. SameSide (summands_in pool.old.types some.now) (side_in pool.new.types made)) }
    ensures stands { IfOk result (SumStands pool.new.types) }
    ensures keeps { GrowsTypes pool.old.types pool.new.types }
{
    let bundles = bundled(alloc, &some.terms)?;
    let terms = terms_of(alloc, pool, &bundles)?;
    let constant = one_type(alloc, pool, some.first, &some.more)?;
    Ok(Sum { terms, constant })
}

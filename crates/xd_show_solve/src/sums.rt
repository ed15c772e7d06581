//! Sums of types in front of unknowns.

ghost use Rattle.std.specs.Prelude.{◌≡◌, OnOk};
ghost use Rattle.xd_same_types.specs.Grown.{GrowsTypes};
ghost use Rattle.xd_syntax.specs.Types.{BelongsTo, tree};
ghost use Rattle.xd_show_solve.specs.Equations.{AddsConstant, AddsMultiple, AddsProduct, SumStands, product_in, side_in};

use std::alloc::Global;
use xd_doc::NoMemory;
use xd_same_types::{Pool, alt, seq};
use xd_syntax::TypeId;

/// A type in front of an unknown.
#[derive(Clone, Copy)]
pub(crate) struct Term {
    pub(crate) by: TypeId,
    pub(crate) to: usize,
}

/// Types in front of unknowns, and a type alone.
#[derive(Drop)]
pub(crate) struct Sum {
    pub(crate) terms: Vec<Term>,
    pub(crate) constant: Option<TypeId>,
}

/// One more term. What stands in front of one unknown is one type.
pub(crate) fn add_term(
    alloc: Global,
    pool: &mut Pool,
    sum: &mut Sum,
    term: Term,
) -> Result<(), NoMemory>
    requires sum { SumStands pool.old.types sum.old }
    requires term { BelongsTo pool.old.types term.by }
    ensures adds { OnOk result (AddsProduct (side_in pool.old.types sum.old) (product_in pool.old.types term) (side_in pool.new.types sum.new)) }
    ensures stands { OnOk result (SumStands pool.new.types sum.new) }
    ensures keeps { GrowsTypes pool.old.types pool.new.types }
{
    for number in 0..sum.terms.len() {
        let old = sum.terms[number];
        if old.to == term.to {
            let by = alt(alloc, pool, old.by, term.by)?;
            sum.terms[number] = Term { by, to: term.to };
            return Ok(());
        }
    }
    sum.terms.push(term)?;
    Ok(())
}

/// One more type alone.
fn add_constant(alloc: Global, pool: &mut Pool, sum: &mut Sum, id: TypeId) -> Result<(), NoMemory>
    requires sum { SumStands pool.old.types sum.old }
    requires id { BelongsTo pool.old.types id }
    ensures adds { OnOk result (AddsConstant (side_in pool.old.types sum.old) (tree pool.old.types id) (side_in pool.new.types sum.new)) }
    ensures stands { OnOk result (SumStands pool.new.types sum.new) }
    ensures keeps { GrowsTypes pool.old.types pool.new.types }
{
    match sum.constant {
        None => sum.constant = Some(id),
        Some(old) => {
            let made = alt(alloc, pool, old, id)?;
            sum.constant = Some(made);
        }
    }
    Ok(())
}

/// A type in front of a whole sum, put to another sum.
pub(crate) fn add_multiple(
    alloc: Global,
    pool: &mut Pool,
    made: &mut Sum,
    by: TypeId,
    sum: &Sum,
) -> Result<(), NoMemory>
    requires made { SumStands pool.old.types made.old }
    requires by { BelongsTo pool.old.types by }
    requires sum { SumStands pool.old.types sum.now }
    ensures adds { OnOk result (AddsMultiple (side_in pool.old.types made.old) (tree pool.old.types by) (side_in pool.old.types sum.now) (side_in pool.new.types made.new)) }
    ensures stands { OnOk result (SumStands pool.new.types made.new) }
    ensures keeps { GrowsTypes pool.old.types pool.new.types }
{
    for term in &sum.terms {
        let product = seq(alloc, pool, by, term.by)?;
        add_term(
            alloc,
            pool,
            made,
            Term {
                by: product,
                to: term.to,
            },
        )?;
    }
    match sum.constant {
        None => Ok(()),
        Some(constant) => {
            let product = seq(alloc, pool, by, constant)?;
            add_constant(alloc, pool, made, product)
        }
    }
}

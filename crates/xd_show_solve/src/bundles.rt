//! Terms gathered by their unknowns.

ghost use Rattle.std.specs.Prelude.{List, Option, IfOk, OnOk};
ghost use Rattle.std.specs.Option.{IfSome};
ghost use Rattle.xd_syntax.specs.Table.{Row};
ghost use Rattle.xd_same_types.specs.Grown.{GrowsTypes};
ghost use Rattle.xd_syntax.specs.Tree.{Tree};
ghost use Rattle.xd_syntax.specs.Types.{BelongsTo};
ghost use Rattle.xd_show_solve.specs.Equations.{AddsProduct, SameSide, TermsStand, product_in, products};
ghost use Rattle.xd_show_solve.specs.Bundles.{BundlesStand, IsBundleOf, bundles_in};

use crate::sums::Term;
use std::alloc::Global;
use std::collections::HashMap;
use xd_doc::NoMemory;
use xd_same_types::{Pool, alt_of_all};
use xd_syntax::TypeId;

/// What stands in front of one unknown: one of several types.
#[derive(Drop)]
pub(crate) struct Bundle {
    pub(crate) first: TypeId,
    pub(crate) more: Vec<TypeId>,
    pub(crate) to: usize,
}

/// Where the bundle of an unknown stands, if the table knows.
fn place_of(bundles: &[Bundle], places: &HashMap<usize, usize>, to: usize) -> Option<usize>
    ensures { IfSome result (IsBundleOf to bundles.now) }
{
    let Some(place) = places.get(&to).copied() else {
        return None;
    };
    if place < bundles.len() && bundles[place].to == to {
        Some(place)
    } else {
        None
    }
}

/// Puts a term to the bundle of its unknown, or makes one.
fn add_bundled(
    alloc: Global,
    bundles: &mut Vec<Bundle>,
    places: &mut HashMap<usize, usize>,
    term: Term,
) -> Result<(), NoMemory>
    ensures adds { OnOk result ((types : List Row) (o : Option Tree) → AddsProduct (record { products = bundles_in types bundles.old.items; constant = o }) (product_in types term) (record { products = bundles_in types bundles.new.items; constant = o })) }
    ensures stand { OnOk result ((types : List Row) → BundlesStand types bundles.old.items → BelongsTo types term.by → BundlesStand types bundles.new.items) }
{
    match place_of(bundles, places, term.to) {
        Some(place) => bundles[place].more.push(term.by)?,
        None => {
            places.insert(term.to, bundles.len())?;
            bundles.push(Bundle {
                first: term.by,
                more: Vec::new(alloc),
                to: term.to,
            })?;
        }
    }
    Ok(())
}

/// Terms, those of one unknown together.
pub(crate) fn bundled(alloc: Global, terms: &[Term]) -> Result<Vec<Bundle>, NoMemory>
    ensures same { IfOk result (λ made. (types : List Row) (o : Option Tree) → SameSide (record { products = products types terms.now; constant = o }) (record { products = bundles_in types made.items; constant = o })) }
    ensures stand { IfOk result (λ made. (types : List Row) → TermsStand types terms.now → BundlesStand types made.items) }
{
    let mut bundles = Vec::new(alloc);
    let mut places = HashMap::new(alloc);
    for term in terms {
        add_bundled(alloc, &mut bundles, &mut places, *term)?;
    }
    Ok(bundles)
}

/// Bundles as terms.
pub(crate) fn terms_of(
    alloc: Global,
    pool: &mut Pool,
    bundles: &[Bundle],
) -> Result<Vec<Term>, NoMemory>
    requires { BundlesStand pool.old.types bundles.now }
    ensures same { IfOk result (λ made. (o : Option Tree) → SameSide (record { products = bundles_in pool.old.types bundles.now; constant = o }) (record { products = products pool.new.types made.items; constant = o })) }
    ensures stand { IfOk result (λ made. TermsStand pool.new.types made.items) }
    ensures keeps { GrowsTypes pool.old.types pool.new.types }
{
    let mut terms = Vec::new(alloc);
    for bundle in bundles {
        let by = alt_of_all(alloc, pool, bundle.first, &bundle.more)?;
        terms.push(Term { by, to: bundle.to })?;
    }
    Ok(terms)
}

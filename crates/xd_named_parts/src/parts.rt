//! Definitions with names for parts that come again.

ghost use Rattle.std.specs.Prelude.{◌≡◌, IfOk, Some, slice_get};
ghost use Rattle.std.specs.Option.{IfSome};
ghost use Rattle.xd_named_parts.specs.Copies.{AreNoCopies};
ghost use Rattle.xd_named_parts.specs.Plans.{IsPlan};
ghost use Rattle.xd_named_parts.specs.Shorter.{AreDefinitions, AreShorter, ShowsDefinitions};
ghost use Rattle.xd_shown.specs.Bodies.{ShowsMeanings};
ghost use Rattle.xd_shown.specs.Shown.{AreNamedFrom};
ghost use Rattle.xd_syntax.specs.Kept.{program_tree};

use crate::copies::{copy_inner, copy_plain, name_nodes};
use crate::forms::copies_of;
use crate::plan::{Plan, plan_of};
use std::alloc::Global;
use xd_doc::{Label, NoMemory};
use xd_same_types::Pool;
use xd_shown::{Shown, free_names};
use xd_syntax::TypeId;

/// Definitions of types that are being made: a table of types, names, and a type for each.
#[derive(Drop)]
pub struct Definitions {
    pub pool: Pool,
    pub names: Vec<Label>,
    pub bodies: Vec<TypeId>,
}

/// No copy of any of so many nodes.
fn no_copies(alloc: Global, count: usize) -> Result<Vec<Option<TypeId>>, NoMemory>
    ensures { IfOk result (λ made. AreNoCopies count made.items) }
{
    let mut made = Vec::new(alloc);
    for _number in 0..count {
        made.push(None)?;
    }
    Ok(made)
}

/// The definitions with names for those nodes that the plan names, if the plan has an order in
/// which all can be copied.
fn named_by(
    alloc: Global,
    given: &Definitions,
    plan: &Plan,
    taken: &[Label],
) -> Result<Option<Definitions>, NoMemory>
    requires given { AreDefinitions given.now }
    requires plan { IsPlan given.now.pool.types given.now.bodies.items plan.now.named.items }
    ensures { IfOk result (λ found. IfSome found (AreShorter taken.now given.now)) }
{
    let count = given.pool.types.len();
    let names = free_names(alloc, taken, plan.named.len())?;
    let mut pool = Pool::new(alloc);
    let mut inner = no_copies(alloc, count)?;
    name_nodes(&mut pool, &mut inner, &plan.named, &names)?;
    copy_inner(
        alloc,
        &mut pool,
        given,
        &mut inner,
        &plan.inner,
        &plan.places,
    )?;
    let mut plain = no_copies(alloc, count)?;
    copy_plain(alloc, &mut pool, given, &inner, &mut plain, &plan.plain)?;
    match copies_of(alloc, &plain, &plan.named)? {
        Some(bodies) => Ok(Some(Definitions {
            pool,
            names,
            bodies,
        })),
        None => Ok(None),
    }
}

/// The same definitions with `Any` for what every document fits, and with names for parts that come
/// again where the text gets shorter by them, if contents don't stand too deep in one another.
pub(crate) fn with_named_parts(
    alloc: Global,
    given: &Definitions,
    taken: &[Label],
) -> Result<Option<Definitions>, NoMemory>
    requires { AreDefinitions given.now }
    ensures { IfOk result (λ found. IfSome found (AreShorter taken.now given.now)) }
{
    match plan_of(alloc, given)? {
        Some(plan) => named_by(alloc, given, &plan, taken),
        None => Ok(None),
    }
}

/// Definitions as a program.
fn program_of(alloc: Global, given: Definitions) -> Result<Shown, NoMemory>
    requires { AreDefinitions given }
    ensures start { IfOk result (λ shown. slice_get given.names.items 0 ≡ Some shown.start) }
    ensures shown { IfOk result (λ shown. ShowsMeanings given.pool.types given.names.items given.bodies.items (program_tree shown.sound) shown.start) }
{
    let Definitions {
        pool,
        names,
        bodies,
    } = given;
    Shown::new(alloc, pool.into_types(), &names, &bodies)
}

/// A program that shows what the first of the names means, as these definitions do. It has `Any`
/// for what every document plainly fits, and is written shorter where names for parts that come
/// again make it so.
///
/// Under labels a long choice then has a name of its own, and contents that are short by that are
/// written in place. Names are those that are not taken, in the order in which a reader meets them.
/// Fails only where memory is refused.
pub fn shown(alloc: Global, given: Definitions, taken: &[Label]) -> Result<Shown, NoMemory>
    requires given { AreDefinitions given }
    requires in_order { AreNamedFrom taken.now 1 given.names.items }
    ensures { IfOk result (λ shown. ShowsDefinitions taken.now given (program_tree shown.sound) shown.start) }
{
    match with_named_parts(alloc, &given, taken)? {
        Some(short) => program_of(alloc, short),
        None => program_of(alloc, given),
    }
}

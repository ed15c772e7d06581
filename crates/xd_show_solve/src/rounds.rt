//! Several unknowns taken out of all equations at once.

ghost use Rattle.std.specs.Prelude.{◌≡◌, ◌<◌, true, false, IfOk, OnOk, length};
ghost use Rattle.std.specs.Option.{IfSome};
ghost use Rattle.xd_same_types.specs.Grown.{GrowsTypes};
ghost use Rattle.xd_syntax.specs.Types.{BelongsTo};
ghost use Rattle.xd_show_solve.specs.Equations.{IsSolved, SumStands, product_in, side_in};
ghost use Rattle.xd_show_solve.specs.Rounds.{AddsTaken, AreApart, AreOwns, IsTaken, LackOut, LeavesAlive, OwnsStand, TakesAt, TakesEach, TakesSome, is_out};
ghost use Rattle.xd_show_solve.specs.Summands.{SummandsStand, summands_in};
ghost use Rattle.xd_show_solve.specs.Systems.{AllStand, is_alive};

use crate::solve::solved;
use crate::summands::{Summands, first_summands, push_multiple, push_term, put_together};
use crate::sums::{Sum, Term};
use crate::weights::cheap;
use std::alloc::Global;
use xd_doc::NoMemory;
use xd_same_types::Pool;

/// The right side of an unknown's equation without the unknown itself, if it is asked for.
fn own_of(
    alloc: Global,
    pool: &mut Pool,
    sum: &Sum,
    number: usize,
    asked: bool,
) -> Result<Option<Sum>, NoMemory>
    requires { SumStands pool.old.types sum.now }
    ensures solved { IfOk result (λ o. IfSome o (λ own. (asked ≡ true) × IsSolved number (side_in pool.old.types sum.now) (side_in pool.new.types own))) }
    ensures stands { IfOk result (λ o. IfSome o (SumStands pool.new.types)) }
    ensures keeps { GrowsTypes pool.old.types pool.new.types }
{
    if !asked {
        return Ok(None);
    }
    let own = solved(alloc, pool, sum, number)?;
    Ok(Some(own))
}

/// Whether an unknown is to be taken out: it is chosen, is left, and isn't the first.
fn is_asked(alive: &[bool], chosen: &[bool], number: usize) -> bool
    requires { number < length alive.now }
    ensures later { result ≡ true → 0 < number }
    ensures alive { result ≡ true → is_alive alive.now number ≡ true }
{
    number > 0 && alive[number] && chosen.get(number).copied().unwrap_or(false)
}

/// The right sides of the chosen unknowns' equations, each without the unknown itself, by the
/// number of the unknown.
fn owns_of(
    alloc: Global,
    pool: &mut Pool,
    sums: &[Sum],
    alive: &[bool],
    chosen: &[bool],
) -> Result<Vec<Option<Sum>>, NoMemory>
    requires sums { AllStand pool.old.types sums.now }
    requires count { length alive.now ≡ length sums.now }
    ensures owns { IfOk result (λ made. AreOwns pool.old.types pool.new.types sums.now alive.now made.items) }
    ensures keeps { GrowsTypes pool.old.types pool.new.types }
{
    let mut made = Vec::new(alloc);
    for number in 0..sums.len() {
        let asked = is_asked(alive, chosen, number);
        let own = own_of(alloc, pool, &sums[number], number, asked)?;
        made.push(own)?;
    }
    Ok(made)
}

/// Whether an unknown is taken out.
fn is_out(owns: &[Option<Sum>], of: usize) -> bool
    ensures { result ≡ is_out owns.now of }
{
    if of < owns.len() {
        owns[of].is_some()
    } else {
        false
    }
}

/// Whether no term has an unknown that is taken out.
fn lack_out(owns: &[Option<Sum>], terms: &[Term]) -> bool
    ensures { result ≡ true → LackOut owns.now terms.now }
{
    for term in terms {
        if is_out(owns, term.to) {
            return false;
        }
    }
    true
}

/// Whether the new right sides use unknowns that stay.
fn are_apart(owns: &[Option<Sum>]) -> bool
    ensures { result ≡ true → AreApart owns.now }
{
    for number in 0..owns.len() {
        if let Some(own) = &owns[number] {
            if !lack_out(owns, &own.terms) {
                return false;
            }
        }
    }
    true
}

/// Puts a term to others, or, in the place of an unknown that is taken out, the right side of its
/// equation.
fn push_taken(
    alloc: Global,
    pool: &mut Pool,
    some: &mut Summands,
    term: Term,
    owns: &[Option<Sum>],
) -> Result<(), NoMemory>
    requires some { SummandsStand pool.old.types some.old }
    requires term { BelongsTo pool.old.types term.by }
    requires owns { OwnsStand pool.old.types owns.now }
    ensures adds { OnOk result (AddsTaken pool.old.types owns.now (summands_in pool.old.types some.old) (product_in pool.old.types term) (summands_in pool.new.types some.new)) }
    ensures stand { OnOk result (SummandsStand pool.new.types some.new) }
    ensures keeps { GrowsTypes pool.old.types pool.new.types }
{
    if term.to >= owns.len() {
        return push_term(some, term);
    }
    match &owns[term.to] {
        None => push_term(some, term),
        Some(own) => push_multiple(alloc, pool, some, term.by, own),
    }
}

/// The summands of a sum, with right sides in the places of the unknowns that are taken out.
fn taken_summands(
    alloc: Global,
    pool: &mut Pool,
    sum: &Sum,
    owns: &[Option<Sum>],
) -> Result<Summands, NoMemory>
    requires sum { SumStands pool.old.types sum.now }
    requires owns { OwnsStand pool.old.types owns.now }
    ensures taken { IfOk result (λ some. IsTaken pool.old.types owns.now (side_in pool.old.types sum.now) (summands_in pool.new.types some)) }
    ensures stand { IfOk result (SummandsStand pool.new.types) }
    ensures keeps { GrowsTypes pool.old.types pool.new.types }
{
    let mut some = first_summands(alloc, sum.constant);
    for term in &sum.terms {
        push_taken(alloc, pool, &mut some, *term, owns)?;
    }
    Ok(some)
}

/// The sum with right sides in the places of the unknowns that are taken out.
fn taken(alloc: Global, pool: &mut Pool, sum: &Sum, owns: &[Option<Sum>]) -> Result<Sum, NoMemory>
    requires sum { SumStands pool.old.types sum.now }
    requires owns { OwnsStand pool.old.types owns.now }
    ensures taken { IfOk result (λ made. IsTaken pool.old.types owns.now (side_in pool.old.types sum.now) (side_in pool.new.types made)) }
    ensures stands { IfOk result (SumStands pool.new.types) }
    ensures keeps { GrowsTypes pool.old.types pool.new.types }
{
    let some = taken_summands(alloc, pool, sum, owns)?;
    put_together(alloc, pool, &some)
}

/// Writes the right side of an unknown that stays anew, if it uses any that is taken out.
fn take_at(
    alloc: Global,
    pool: &mut Pool,
    sums: &mut Vec<Sum>,
    number: usize,
    owns: &[Option<Sum>],
) -> Result<(), NoMemory>
    requires number { number < length sums.old.items }
    requires sums { AllStand pool.old.types sums.old.items }
    requires owns { OwnsStand pool.old.types owns.now }
    ensures takes { OnOk result (TakesAt pool.old.types pool.new.types owns.now number sums.old.items sums.new.items) }
    ensures stand { OnOk result (AllStand pool.new.types sums.new.items) }
    ensures keeps { GrowsTypes pool.old.types pool.new.types }
{
    if is_out(owns, number) {
        return Ok(());
    }
    if lack_out(owns, &sums[number].terms) {
        return Ok(());
    }
    let made = taken(alloc, pool, &sums[number], owns)?;
    sums[number] = made;
    Ok(())
}

/// Writes all right sides of unknowns that stay anew.
fn take_each(
    alloc: Global,
    pool: &mut Pool,
    sums: &mut Vec<Sum>,
    owns: &[Option<Sum>],
) -> Result<(), NoMemory>
    requires sums { AllStand pool.old.types sums.old.items }
    requires owns { OwnsStand pool.old.types owns.now }
    ensures takes { OnOk result (TakesEach pool.old.types pool.new.types owns.now sums.old.items sums.new.items) }
    ensures stand { OnOk result (AllStand pool.new.types sums.new.items) }
    ensures keeps { GrowsTypes pool.old.types pool.new.types }
{
    for number in 0..sums.len() {
        take_at(alloc, pool, sums, number, owns)?;
    }
    Ok(())
}

/// Notes that unknowns are taken out.
fn leave(alive: &mut Vec<bool>, owns: &[Option<Sum>])
    ensures { LeavesAlive owns.now alive.old.items alive.new.items }
{
    for number in 0..alive.len() {
        if is_out(owns, number) {
            alive[number] = false;
        }
    }
}

/// Takes these unknowns out, whose right sides use unknowns that stay.
fn take_out(
    alloc: Global,
    pool: &mut Pool,
    sums: &mut Vec<Sum>,
    alive: &mut Vec<bool>,
    owns: &[Option<Sum>],
) -> Result<(), NoMemory>
    requires sums { AllStand pool.old.types sums.old.items }
    requires owns { OwnsStand pool.old.types owns.now }
    ensures takes { OnOk result (TakesEach pool.old.types pool.new.types owns.now sums.old.items sums.new.items) }
    ensures leaves { OnOk result (LeavesAlive owns.now alive.old.items alive.new.items) }
    ensures stand { OnOk result (AllStand pool.new.types sums.new.items) }
    ensures keeps { GrowsTypes pool.old.types pool.new.types }
{
    take_each(alloc, pool, sums, owns)?;
    leave(alive, owns);
    Ok(())
}

/// Takes out unknowns that make no type longer and don't lead to each other, if there are several.
pub(crate) fn take_cheap(
    alloc: Global,
    pool: &mut Pool,
    sums: &mut Vec<Sum>,
    alive: &mut Vec<bool>,
) -> Result<(), NoMemory>
    requires count { length alive.old.items ≡ length sums.old.items }
    requires sums { AllStand pool.old.types sums.old.items }
    ensures out { OnOk result (TakesSome pool.old.types pool.new.types alive.old.items alive.new.items sums.old.items sums.new.items) }
    ensures stand { OnOk result (AllStand pool.new.types sums.new.items) }
    ensures keeps { GrowsTypes pool.old.types pool.new.types }
{
    let Some(chosen) = cheap(alloc, pool, sums, alive)? else {
        return Ok(());
    };
    let owns = owns_of(alloc, pool, sums, alive, &chosen)?;
    if are_apart(&owns) {
        take_out(alloc, pool, sums, alive, &owns)?;
        return Ok(());
    }
    Ok(())
}

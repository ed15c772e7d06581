//! Which unknown is taken out next.

ghost use Rattle.std.specs.Prelude.{◌≡◌, ◌⊎◌, ◌<◌, ℕ, Some, None, false, IfOk, length};
ghost use Rattle.std.specs.Option.{IfSome};
ghost use Rattle.xd_show_solve.specs.Systems.{IsLeft, is_alive};

use crate::sums::Sum;
use std::alloc::Global;
use xd_doc::NoMemory;
use xd_same_types::{Pool, size_of};

/// How many terms the sum has for other unknowns and alone, how long these are, and what stands in
/// front of this one.
fn weight_of(pool: &Pool, sum: &Sum, of: usize) -> (u64, u64, u64) {
    let mut count = 0u64;
    let mut size = 0u64;
    let mut own = 0u64;
    for term in &sum.terms {
        if term.to == of {
            own = own.saturating_add(size_of(pool, term.by));
        } else {
            count = count.saturating_add(1);
            size = size.saturating_add(size_of(pool, term.by));
        }
    }
    if let Some(constant) = sum.constant {
        count = count.saturating_add(1);
        size = size.saturating_add(size_of(pool, constant));
    }
    (count, size, own)
}

/// For each unknown how many other sums have it, and how long the types in front of it are.
fn weights_in_others(
    alloc: Global,
    pool: &Pool,
    sums: &[Sum],
    alive: &[bool],
) -> Result<Vec<(u64, u64)>, NoMemory> {
    let mut weights = vec![in alloc; (0u64, 0u64); sums.len()]?;
    for number in 0..sums.len() {
        if alive.get(number).copied().unwrap_or(false) {
            add_weights(pool, &sums[number], number, &mut weights);
        }
    }
    Ok(weights)
}

fn add_weights(pool: &Pool, sum: &Sum, number: usize, weights: &mut [(u64, u64)]) {
    for term in &sum.terms {
        if term.to != number {
            if let Some(weight) = weights.get_mut(term.to) {
                weight.0 = weight.0.saturating_add(1);
                weight.1 = weight.1.saturating_add(size_of(pool, term.by));
            }
        }
    }
}

/// What is written more often than before, where an unknown is taken out (M. Delgado and J. Morais,
/// Approximation to the smallest regular expression for a given regular language, 2004).
fn growth(count: u64, size: u64, own: u64, sources: u64, ahead: u64) -> u64 {
    let out = size.saturating_mul(sources.saturating_sub(1));
    let inner = ahead.saturating_mul(count.saturating_sub(1));
    let again = own.saturating_mul(sources.saturating_mul(count).saturating_sub(1));
    out.saturating_add(inner).saturating_add(again)
}

/// An unknown, and how much the types grow where it is taken out.
#[derive(Clone, Copy)]
pub(crate) struct Candidate {
    pub(crate) number: usize,
    grown: u64,
}

/// The one that makes the types grow less.
fn better(best: Option<Candidate>, other: Candidate) -> Candidate
    ensures { (result ≡ other) ⊎ (best ≡ Some result) }
{
    match best {
        None => other,
        Some(old) => { if other.grown < old.grown { other } else { old } }
    }
}

/// How much the types grow where an unknown is taken out.
fn weighed(pool: &Pool, sums: &[Sum], others: &[(u64, u64)], number: usize) -> Candidate
    requires { number < length sums.now }
    ensures { result.number ≡ number }
{
    let (count, size, own) = weight_of(pool, &sums[number], number);
    let (sources, ahead) = others.get(number).copied().unwrap_or((0, 0));
    Candidate {
        number,
        grown: growth(count, size, own, sources, ahead),
    }
}

/// Of the unknowns that are left, but for the first, the one that makes the types grow least.
pub(crate) fn least(
    alloc: Global,
    pool: &Pool,
    sums: &[Sum],
    alive: &[bool],
) -> Result<Option<Candidate>, NoMemory>
    requires { length alive.now ≡ length sums.now }
    ensures found { IfOk result (λ found. IfSome found (IsLeft sums.now alive.now)) }
    ensures none { IfOk result (λ found. found ≡ None → (i : ℕ) → 0 < i → i < length sums.now → is_alive alive.now i ≡ false) }
{
    let others = weights_in_others(alloc, pool, sums, alive)?;
    let mut best = None;
    for number in 1..sums.len() {
        if alive[number] {
            best = Some(better(best, weighed(pool, sums, &others, number)));
        }
    }
    Ok(best)
}

/// Unknowns that are chosen, and those that these lead to.
#[derive(Drop)]
struct Choice {
    chosen: Vec<bool>,
    near: Vec<bool>,
    count: usize,
}

/// Whether the flag of this number is set.
fn is_set(flags: &[bool], number: usize) -> bool {
    flags.get(number).copied().unwrap_or(false)
}

/// Sets the flag of this number, if there is one.
fn set(flags: &mut [bool], number: usize) {
    if number < flags.len() {
        flags[number] = true;
    }
}

/// Whether one of the other unknowns of a sum is chosen.
fn leads_to_chosen(choice: &Choice, sum: &Sum, number: usize) -> bool {
    for term in &sum.terms {
        if term.to != number && is_set(&choice.chosen, term.to) {
            return true;
        }
    }
    false
}

/// Chooses an unknown, unless it leads to a chosen one, or one leads to it.
fn choose(choice: &mut Choice, sum: &Sum, number: usize) {
    if is_set(&choice.near, number) || leads_to_chosen(choice, sum, number) {
        return;
    }
    set(&mut choice.chosen, number);
    choice.count = choice.count.saturating_add(1);
    for term in &sum.terms {
        set(&mut choice.near, term.to);
    }
}

/// Unknowns that are left, but for the first, that make no type longer and don't lead to each
/// other: a flag for each; `None` where there are fewer than two. Nothing is proved of them.
pub(crate) fn cheap(
    alloc: Global,
    pool: &Pool,
    sums: &[Sum],
    alive: &[bool],
) -> Result<Option<Vec<bool>>, NoMemory> {
    let others = weights_in_others(alloc, pool, sums, alive)?;
    let mut choice = Choice {
        chosen: vec![in alloc; false; sums.len()]?,
        near: vec![in alloc; false; sums.len()]?,
        count: 0,
    };
    for number in 1..sums.len() {
        if is_set(alive, number) && weighed(pool, sums, &others, number).grown == 0 {
            choose(&mut choice, &sums[number], number);
        }
    }
    if choice.count < 2 {
        return Ok(None);
    }
    Ok(Some(choice.chosen))
}

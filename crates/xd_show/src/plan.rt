//! Which contents have names, and which are written in place.

ghost use Rattle.std.specs.Prelude.{◌≡◌, ◌<◌, IfOk, length, get_or};
ghost use Rattle.std.specs.List.{AllByRecursion};
ghost use Rattle.xd_auto.specs.Automaton.{IsState};
ghost use Rattle.xd_show.specs.Plans.{AllAreNamed, IsPlan};

use crate::flags::{at, is_set, put, set_new};
use crate::uses::{Uses, uses_of};
use crate::walk::{Order, go_in, go_on, next_within, order_of};
use std::alloc::Global;
use xd_auto::{Auto, State};
use xd_doc::NoMemory;

/// The states that are to have names, in order, and those that are to be written in place, those
/// within others first.
///
/// Nothing is known of a plan but that it speaks of states: what is shown by it is right or isn't
/// shown.
#[derive(Drop)]
pub(crate) struct Plan {
    pub(crate) named: Vec<State>,
    pub(crate) placed: Vec<State>,
}

/// What is written in place wherever it stands has so many moves at most.
const SHORT: usize = 3;

/// What stands in one place has so many.
const LONG: usize = 24;

/// What was chosen so far: which contents are written in place, and how many moves are written for
/// each of these.
#[derive(Drop)]
struct Choice {
    placed: Vec<bool>,
    sizes: Vec<usize>,
}

/// How many moves are written for a content, with what is written in place within it.
fn size_of(uses: &Uses, choice: &Choice, content: usize) -> usize {
    let mut size = at(&uses.weights, content);
    if let Some(within) = uses.within.get(content) {
        for inner in within {
            size = size.saturating_add(at(&choice.sizes, *inner));
        }
    }
    size
}

/// Chooses to write a content in place, where it is short or stands in one place.
fn choose_one(uses: &Uses, choice: &mut Choice, content: usize) {
    let size = size_of(uses, choice, content);
    let most = if at(&uses.counts, content) <= 1 {
        LONG
    } else {
        SHORT
    };
    if size <= most {
        set_new(&mut choice.placed, content);
        put(&mut choice.sizes, content, size);
    }
}

/// Which contents are written in place: those that don't stand within themselves and are short or
/// stand in one place.
fn choose(alloc: Global, uses: &Uses, order: &Order, start: usize) -> Result<Vec<bool>, NoMemory> {
    let count = uses.within.len();
    let mut choice = Choice {
        placed: vec![in alloc; false; count]?,
        sizes: vec![in alloc; 0; count]?,
    };
    for content in &order.left {
        if *content != start && !is_set(&order.recursive, *content) {
            choose_one(uses, &mut choice, *content);
        }
    }
    Ok(choice.placed)
}

/// Puts the contents that a definition uses after those that have names, in the order in which a
/// reader meets them.
fn add_used(
    alloc: Global,
    uses: &Uses,
    placed: &[bool],
    first: usize,
    seen: &mut [bool],
    named: &mut Vec<usize>,
) -> Result<(), NoMemory> {
    let mut way = Vec::new(alloc);
    go_in(&mut way, first)?;
    for _turn in 0..u64::MAX {
        let Some(next) = next_within(uses, &mut way) else {
            break;
        };
        let Some(content) = next.found else {
            continue;
        };
        go_on(&mut way, next.step)?;
        if set_new(seen, content) {
            if is_set(placed, content) {
                go_in(&mut way, content)?;
            } else {
                named.push(content)?;
            }
        }
    }
    Ok(())
}

/// The contents that have names, in order of first use.
fn in_order_of_use(
    alloc: Global,
    uses: &Uses,
    placed: &[bool],
    start: usize,
) -> Result<Vec<usize>, NoMemory> {
    let mut named = Vec::new(alloc);
    let mut seen = vec![in alloc; false; placed.len()]?;
    set_new(&mut seen, start);
    named.push(start)?;
    for turn in 0..placed.len() {
        let Some(first) = named.get(turn).copied() else {
            break;
        };
        add_used(alloc, uses, placed, first, &mut seen, &mut named)?;
    }
    Ok(named)
}

/// A state, and those of these numbers after it.
fn states_behind(
    alloc: Global,
    auto: &Auto,
    start: State,
    numbers: &[usize],
) -> Result<Vec<State>, NoMemory>
    requires { IsState auto.now start }
    ensures states { IfOk result (λ made. AllByRecursion (IsState auto.now) made.items) }
    ensures some { IfOk result (λ made. 0 < length made.items) }
    ensures first { IfOk result (λ made. get_or made.items 0 start ≡ start) }
{
    let mut made = Vec::new(alloc);
    made.push(start)?;
    for number in numbers {
        if *number < auto.len() && *number != start.number() {
            made.push(auto.state(*number))?;
        }
    }
    Ok(made)
}

/// Those of the contents that are written in place.
fn placed_states(
    alloc: Global,
    auto: &Auto,
    order: &Order,
    placed: &[bool],
) -> Result<Vec<State>, NoMemory>
    ensures { IfOk result (λ made. AllByRecursion (IsState auto.now) made.items) }
{
    let mut made = Vec::new(alloc);
    for number in &order.left {
        if *number < auto.len() && is_set(placed, *number) {
            made.push(auto.state(*number))?;
        }
    }
    Ok(made)
}

/// Which contents that a state leads to have names, itself the first, and which are written in
/// place.
///
/// A content is written in place where it doesn't stand within itself, and is short or stands in
/// one place. Those that are marked to accept every document are none: they are written as `Any`.
pub(crate) fn plan_of(
    alloc: Global,
    auto: &Auto,
    universal: &[bool],
    start: State,
) -> Result<Plan, NoMemory>
    requires { IsState auto.now start }
    ensures { IfOk result (IsPlan auto.now start) }
{
    let uses = uses_of(alloc, auto, universal, start)?;
    let order = order_of(alloc, &uses, start.number())?;
    let choice = choose(alloc, &uses, &order, start.number())?;
    let named = in_order_of_use(alloc, &uses, &choice, start.number())?;
    Ok(Plan {
        named: states_behind(alloc, auto, start, &named)?,
        placed: placed_states(alloc, auto, &order, &choice)?,
    })
}

/// A plan in which each state has a name, the start the first one.
pub(crate) fn plain_plan(alloc: Global, auto: &Auto, start: State) -> Result<Plan, NoMemory>
    requires { IsState auto.now start }
    ensures plan { IfOk result (IsPlan auto.now start) }
    ensures all { IfOk result (λ plan. AllAreNamed auto.now plan.named.items) }
{
    let mut named = Vec::new(alloc);
    named.push(start)?;
    for number in 0..auto.len() {
        if number != start.number() {
            named.push(auto.state(number))?;
        }
    }
    Ok(Plan {
        named,
        placed: Vec::new(alloc),
    })
}

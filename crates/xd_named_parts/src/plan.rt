//! Which nodes are to have names.

ghost use Rattle.std.specs.Prelude.{◌≡◌, ◌<◌, IfOk, length, get_or};
ghost use Rattle.std.specs.List.{AllByRecursion};
ghost use Rattle.std.specs.Option.{IfSome};
ghost use Rattle.xd_syntax.specs.Types.{BelongsTo};
ghost use Rattle.xd_named_parts.specs.Plans.{IsPlan};

use crate::flags::{is_set, set_new};
use crate::lengths::{Lengths, evaluate, no_lengths};
use crate::nodes::{Nodes, long_choices, nodes_of, parted_bodies};
use crate::order::in_order_of_use;
use crate::parts::Definitions;
use std::alloc::Global;
use xd_doc::NoMemory;
use xd_syntax::TypeId;

/// The nodes that are to have names, in order, and orders in which all nodes can be copied.
///
/// Nothing is known of a plan but that its nodes are there and that the first definition's is the
/// first: what is copied by it says the same or isn't there.
#[derive(Drop)]
pub(crate) struct Plan {
    pub(crate) named: Vec<TypeId>,
    /// The nodes as they stand under labels, those that are needed first.
    pub(crate) inner: Vec<usize>,
    /// The nodes as they stand outside of labels, those that are needed first.
    pub(crate) plain: Vec<usize>,
    /// For each node that is a name, its place among the names.
    pub(crate) places: Vec<usize>,
}

/// How many nodes are looked at for all lengths together.
const PATIENCE: u64 = 40_000_000;

/// Of so many definitions at most it is tried to write one in place that has another one's node.
const FEW: usize = 64;

/// What has a name so far, by the numbers of nodes, and how long the text is then.
#[derive(Drop)]
struct Choice {
    named: Vec<bool>,
    length: u64,
    lengths: Lengths,
    /// The nodes that the last step changed.
    changed: Vec<usize>,
    left: u64,
}

/// Gives a node a name, or takes it.
fn change(choice: &mut Choice, number: usize, to: bool) -> Result<(), NoMemory> {
    if number < choice.named.len() && choice.named[number] != to {
        choice.named[number] = to;
        choice.changed.push(number)?;
    }
    Ok(())
}

/// Keeps what the last step changed if the text gets shorter by it, and else takes it back.
fn keep_if_shorter(
    given: &Definitions,
    nodes: &Nodes,
    choice: &mut Choice,
) -> Result<(), NoMemory> {
    if choice.changed.is_empty() {
        return Ok(());
    }
    let found = evaluate(given, nodes, &choice.named, &mut choice.lengths)?;
    choice.left = choice.left.saturating_sub(choice.lengths.work);
    let is_shorter = match found {
        Some(length) => {
            if length < choice.length {
                choice.length = length;
                true
            } else {
                false
            }
        }
        None => false,
    };
    if !is_shorter {
        for number in &choice.changed {
            if *number < choice.named.len() {
                choice.named[*number] = !choice.named[*number];
            }
        }
    }
    choice.changed.clear();
    Ok(())
}

/// Writes a content in place, with names for its long choices.
fn open(nodes: &Nodes, choice: &mut Choice, content: usize) -> Result<(), NoMemory> {
    if let Some(long) = nodes.long.get(content) {
        for number in long {
            change(choice, *number, true)?;
        }
    }
    if let Some(body) = nodes.bodies.get(content) {
        change(choice, *body, false)?;
    }
    Ok(())
}

/// Tries to write all contents in place that have a choice, which gets a name.
fn try_choice(
    given: &Definitions,
    nodes: &Nodes,
    choice: &mut Choice,
    number: usize,
    holders: &[usize],
) -> Result<(), NoMemory> {
    for content in holders {
        open(nodes, choice, *content)?;
    }
    change(choice, number, true)?;
    keep_if_shorter(given, nodes, choice)
}

/// Tries to write a content in place if it has a name, and to give it a name if it has none.
fn try_content(
    given: &Definitions,
    nodes: &Nodes,
    choice: &mut Choice,
    content: usize,
) -> Result<(), NoMemory> {
    let Some(body) = nodes.bodies.get(content).copied() else {
        return Ok(());
    };
    if is_set(&choice.named, body) {
        open(nodes, choice, content)?;
    } else {
        change(choice, body, true)?;
    }
    keep_if_shorter(given, nodes, choice)
}

/// Which nodes have names first: what the given names stand for.
fn first_choice(
    alloc: Global,
    given: &Definitions,
    nodes: &Nodes,
) -> Result<Option<Choice>, NoMemory> {
    let mut named = vec![in alloc; false; nodes.places.len()]?;
    for body in &nodes.bodies {
        set_new(&mut named, *body);
    }
    let mut lengths = no_lengths(alloc, nodes.places.len())?;
    match evaluate(given, nodes, &named, &mut lengths)? {
        Some(length) => Ok(Some(Choice {
            named,
            length,
            lengths,
            changed: Vec::new(alloc),
            left: PATIENCE,
        })),
        None => Ok(None),
    }
}

/// Makes a choice shorter by steps, each of which is kept if the text gets shorter.
fn shorten(given: &Definitions, nodes: &Nodes, choice: &mut Choice) -> Result<(), NoMemory> {
    for held in &nodes.choices {
        if choice.left > 0 && held.holders.len() > 1 {
            try_choice(given, nodes, choice, held.number, &held.holders)?;
        }
    }
    for content in 1..nodes.bodies.len() {
        if choice.left > 0 && (has_long(nodes, content) || is_set(&nodes.parted, content)) {
            try_content(given, nodes, choice, content)?;
        }
    }
    for held in &nodes.choices {
        if choice.left > 0 {
            change(choice, held.number, false)?;
            keep_if_shorter(given, nodes, choice)?;
        }
    }
    Ok(())
}

/// Whether the content has a long choice outside of labels.
fn has_long(nodes: &Nodes, content: usize) -> bool {
    match nodes.long.get(content) {
        Some(long) => !long.is_empty(),
        None => false,
    }
}

/// Those of the nodes that are there, as types.
fn named_types(
    alloc: Global,
    given: &Definitions,
    first: TypeId,
    numbers: &[usize],
) -> Result<Vec<TypeId>, NoMemory>
    requires { BelongsTo given.now.pool.types first }
    ensures belong { IfOk result (λ made. AllByRecursion (BelongsTo given.now.pool.types) made.items) }
    ensures some { IfOk result (λ made. 0 < length made.items) }
    ensures first { IfOk result (λ made. get_or made.items 0 first ≡ first) }
{
    let mut made = Vec::new(alloc);
    made.push(first)?;
    for number in numbers {
        if *number < given.pool.types.len() && *number != first.at() {
            made.push(TypeId::of(*number))?;
        }
    }
    Ok(made)
}

/// A plan of names, if contents don't stand too deep in one another.
///
/// At first what the given names stand for has a name. Then steps are tried, and each that makes
/// the text shorter is kept: all contents that have one long choice outside of labels are written
/// in place, if they are several, and their long choices get names; one content is that has long
/// choices, or has the type of another one among its parts; a long choice loses its name.
/// What is looked at is bounded, and so is how deep contents stand in one another.
pub(crate) fn plan_of(alloc: Global, given: &Definitions) -> Result<Option<Plan>, NoMemory>
    requires some { 0 < length given.now.bodies.items }
    requires belong { AllByRecursion (BelongsTo given.now.pool.types) given.now.bodies.items }
    ensures { IfOk result (λ found. IfSome found (λ plan. IsPlan given.now.pool.types given.now.bodies.items plan.named.items)) }
{
    let first = given.bodies[0];
    let mut nodes = nodes_of(alloc, given)?;
    let Some(mut choice) = first_choice(alloc, given, &nodes)? else {
        return Ok(None);
    };
    long_choices(alloc, given, &choice.lengths.plain, &mut nodes)?;
    if given.bodies.len() <= FEW {
        parted_bodies(alloc, given, &mut nodes)?;
    }
    shorten(given, &nodes, &mut choice)?;
    let _length = evaluate(given, &nodes, &choice.named, &mut choice.lengths)?;
    let numbers = in_order_of_use(alloc, given, &nodes, &choice.named, first.at())?;
    let named = named_types(alloc, given, first, &numbers)?;
    let Choice { lengths, .. } = choice;
    let Lengths { order, .. } = lengths;
    let Nodes { live, places, .. } = nodes;
    Ok(Some(Plan {
        named,
        inner: order,
        plain: live,
        places,
    }))
}

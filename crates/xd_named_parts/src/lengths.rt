//! How long definitions are as texts, if some nodes have names.

use crate::flags::{at, is_set, put};
use crate::nodes::Nodes;
use crate::parts::Definitions;
use std::alloc::Global;
use xd_doc::NoMemory;
use xd_syntax::{TypeForm, TypeId};

/// Lengths of nodes as texts, about, by the numbers of nodes; 0 where a length isn't known.
#[derive(Drop)]
pub(crate) struct Lengths {
    /// With names under labels alone.
    pub(crate) plain: Vec<u64>,
    /// As the node stands under a label.
    pub(crate) inner: Vec<u64>,
    /// The nodes in the order in which their lengths under labels got known.
    pub(crate) order: Vec<usize>,
    /// How many nodes were looked at.
    pub(crate) work: u64,
}

/// How long a name is, about.
const NAME: u64 = 4;

/// How long a definition is without its type, about.
const AROUND: u64 = 13;

/// How many contents stand in one another in place at most.
const DEEP: usize = 8;

/// No length is known.
pub(crate) fn no_lengths(alloc: Global, count: usize) -> Result<Lengths, NoMemory> {
    Ok(Lengths {
        plain: vec![in alloc; 0; count]?,
        inner: vec![in alloc; 0; count]?,
        order: Vec::new(alloc),
        work: 0,
    })
}

/// The length of several types with something between them, if all are known.
fn length_of_parts(parts: &[TypeId], table: &[u64]) -> u64 {
    let mut sum = 0u64;
    for part in parts {
        let length = at(table, part.at());
        if length == 0 {
            return 0;
        }
        sum = sum.saturating_add(length).saturating_add(1);
    }
    sum
}

/// One more than a length that is known.
fn one_more(length: u64) -> u64 {
    if length == 0 {
        0
    } else {
        length.saturating_add(1)
    }
}

/// The length of a form: `own` is that of its labels, `tops` has those of its types outside of
/// labels, and `inner` those of contents.
fn length_of(form: &TypeForm, own: u64, tops: &[u64], inner: &[u64]) -> u64 {
    match form {
        TypeForm::Empty => 2,
        TypeForm::Text => 6,
        TypeForm::Words(_) => own,
        TypeForm::Name(_) => own,
        TypeForm::Elem(_, content) => {
            let length = at(inner, content.at());
            if length == 0 {
                0
            } else {
                length.saturating_add(own)
            }
        }
        TypeForm::Seq(parts) => length_of_parts(parts, tops),
        TypeForm::Alt(parts) => one_more(length_of_parts(parts, tops)),
        TypeForm::Star(part) => one_more(at(tops, part.at())),
        TypeForm::Plus(part) => one_more(at(tops, part.at())),
        TypeForm::Opt(part) => one_more(at(tops, part.at())),
    }
}

/// The length of a node under a label: that of a name if it has one, and of a name's meaning if
/// that has none.
fn inner_length(
    given: &Definitions,
    nodes: &Nodes,
    named: &[bool],
    lengths: &Lengths,
    number: usize,
) -> u64 {
    if is_set(named, number) {
        return NAME;
    }
    let place = nodes.places.get(number).copied().unwrap_or(0);
    if let Some(body) = nodes.bodies.get(place) {
        return at(&lengths.inner, *body);
    }
    if number >= given.pool.types.len() {
        return 0;
    }
    let form = given.pool.types.node(TypeId::of(number)).form();
    length_of(form, at(&nodes.own, number), &lengths.inner, &lengths.inner)
}

/// The length of a node outside of labels.
fn plain_length(given: &Definitions, nodes: &Nodes, lengths: &Lengths, number: usize) -> u64 {
    if number >= given.pool.types.len() {
        return 0;
    }
    let form = given.pool.types.node(TypeId::of(number)).form();
    length_of(form, at(&nodes.own, number), &lengths.plain, &lengths.inner)
}

/// Looks at each node whose length under labels isn't known; whether one got known.
fn sweep(
    given: &Definitions,
    nodes: &Nodes,
    named: &[bool],
    lengths: &mut Lengths,
) -> Result<bool, NoMemory> {
    let mut found = false;
    for number in &nodes.live {
        lengths.work = lengths.work.saturating_add(1);
        if at(&lengths.inner, *number) == 0 {
            let length = inner_length(given, nodes, named, lengths, *number);
            if length > 0 {
                put(&mut lengths.inner, *number, length);
                lengths.order.push(*number)?;
                found = true;
            }
        }
    }
    Ok(found)
}

/// The length of all definitions, where these nodes have names: `None` where a content would stand
/// within itself, or too deep in others.
pub(crate) fn evaluate(
    given: &Definitions,
    nodes: &Nodes,
    named: &[bool],
    lengths: &mut Lengths,
) -> Result<Option<u64>, NoMemory> {
    lengths.work = 0;
    lengths.order.clear();
    for number in &nodes.live {
        put(&mut lengths.inner, *number, 0);
        put(&mut lengths.plain, *number, 0);
    }
    for _turn in 0..DEEP {
        if !sweep(given, nodes, named, lengths)? {
            break;
        }
    }
    let mut sum = 0u64;
    for number in &nodes.live {
        let length = plain_length(given, nodes, lengths, *number);
        put(&mut lengths.plain, *number, length);
        if is_set(named, *number) {
            if length == 0 {
                return Ok(None);
            }
            sum = sum.saturating_add(length).saturating_add(AROUND);
        }
    }
    Ok(Some(sum))
}

//! The order in which a reader meets nodes that have names.

use crate::flags::{is_set, set_new};
use crate::nodes::Nodes;
use crate::parts::Definitions;
use std::alloc::Global;
use xd_doc::NoMemory;
use xd_syntax::{TypeForm, TypeId};

/// A node that is to be looked at, and whether it stands under a label.
#[derive(Clone, Copy)]
struct Waiting {
    number: usize,
    is_inner: bool,
}

/// What was met so far.
#[derive(Drop)]
struct Met {
    waiting: Vec<Waiting>,
    plain: Vec<bool>,
    inner: Vec<bool>,
    /// The nodes with names, in the order in which they were met.
    named: Vec<usize>,
}

/// Puts the parts of a form after others, the first one last.
fn push_parts(form: &TypeForm, is_inner: bool, waiting: &mut Vec<Waiting>) -> Result<(), NoMemory> {
    match form {
        TypeForm::Elem(_, part) => waiting.push(Waiting {
            number: part.at(),
            is_inner: true,
        })?,
        TypeForm::Star(part) | TypeForm::Plus(part) | TypeForm::Opt(part) => {
            waiting.push(Waiting {
                number: part.at(),
                is_inner,
            })?
        }
        TypeForm::Seq(parts) | TypeForm::Alt(parts) => {
            for turn in 0..parts.len() {
                waiting.push(Waiting {
                    number: parts[parts.len() - 1 - turn].at(),
                    is_inner,
                })?;
            }
        }
        _ => {}
    }
    Ok(())
}

/// Looks at a node for the first time as it stands there.
fn look_at(
    given: &Definitions,
    nodes: &Nodes,
    named: &[bool],
    met: &mut Met,
    next: Waiting,
) -> Result<(), NoMemory> {
    if next.is_inner && is_set(named, next.number) {
        met.named.push(next.number)?;
        return Ok(());
    }
    let place = nodes.places.get(next.number).copied().unwrap_or(0);
    if let Some(body) = nodes.bodies.get(place).copied() {
        met.waiting.push(Waiting {
            number: body,
            is_inner: next.is_inner,
        })?;
        return Ok(());
    }
    if next.number < given.pool.types.len() {
        let form = given.pool.types.node(TypeId::of(next.number)).form();
        push_parts(form, next.is_inner, &mut met.waiting)?;
    }
    Ok(())
}

/// Looks at all that a definition uses.
fn look_through(
    given: &Definitions,
    nodes: &Nodes,
    named: &[bool],
    met: &mut Met,
    first: usize,
) -> Result<(), NoMemory> {
    met.waiting.push(Waiting {
        number: first,
        is_inner: false,
    })?;
    for _turn in 0..u64::MAX {
        let Some(next) = met.waiting.pop() else {
            break;
        };
        let is_new = if next.is_inner {
            set_new(&mut met.inner, next.number)
        } else {
            set_new(&mut met.plain, next.number)
        };
        if is_new {
            look_at(given, nodes, named, met, next)?;
        }
    }
    Ok(())
}

/// The nodes with names that the first one leads to, itself the first, in the order in which a
/// reader of the definitions meets them.
pub(crate) fn in_order_of_use(
    alloc: Global,
    given: &Definitions,
    nodes: &Nodes,
    named: &[bool],
    first: usize,
) -> Result<Vec<usize>, NoMemory> {
    let count = given.pool.types.len();
    let mut met = Met {
        waiting: Vec::new(alloc),
        plain: vec![in alloc; false; count]?,
        inner: vec![in alloc; false; count]?,
        named: Vec::new(alloc),
    };
    set_new(&mut met.inner, first);
    met.named.push(first)?;
    for turn in 0..count {
        let Some(number) = met.named.get(turn).copied() else {
            break;
        };
        look_through(given, nodes, named, &mut met, number)?;
    }
    Ok(met.named)
}

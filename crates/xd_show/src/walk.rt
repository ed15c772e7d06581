//! A walk over contents, those within a content before it.

use crate::flags::{is_set, set_new};
use crate::uses::Uses;
use std::alloc::Global;
use xd_doc::NoMemory;

/// A content on the way from the start, and how many of those within it were looked at.
#[derive(Clone, Copy)]
pub(crate) struct Step {
    pub(crate) content: usize,
    pub(crate) done: usize,
}

/// The contents in the order in which a walk leaves them, and which of them stand within
/// themselves.
///
/// Of contents that lead to each other one at least is among the second: where a walk meets a
/// content that it hasn't left.
#[derive(Drop)]
pub(crate) struct Order {
    pub(crate) left: Vec<usize>,
    pub(crate) recursive: Vec<bool>,
}

/// What comes next within the content on top of the way, if anything is left.
pub(crate) fn next_within(uses: &Uses, way: &mut Vec<Step>) -> Option<Next> {
    let step = way.pop()?;
    let found = match uses.within.get(step.content) {
        Some(within) => within.get(step.done).copied(),
        None => None,
    };
    Some(Next { step, found })
}

/// The top of a way, taken off, and the content that comes next within it.
#[derive(Clone, Copy)]
pub(crate) struct Next {
    pub(crate) step: Step,
    pub(crate) found: Option<usize>,
}

/// Goes on after a content that was looked at.
pub(crate) fn go_on(way: &mut Vec<Step>, step: Step) -> Result<(), NoMemory> {
    way.push(Step {
        content: step.content,
        done: step.done.saturating_add(1),
    })?;
    Ok(())
}

/// Goes into a content.
pub(crate) fn go_in(way: &mut Vec<Step>, content: usize) -> Result<(), NoMemory> {
    way.push(Step { content, done: 0 })?;
    Ok(())
}

/// Walks over all contents that a content leads to, depth first.
pub(crate) fn order_of(alloc: Global, uses: &Uses, start: usize) -> Result<Order, NoMemory> {
    let count = uses.within.len();
    let mut order = Order {
        left: Vec::new(alloc),
        recursive: vec![in alloc; false; count]?,
    };
    let mut seen = vec![in alloc; false; count]?;
    let mut closed = vec![in alloc; false; count]?;
    let mut way = Vec::new(alloc);
    set_new(&mut seen, start);
    go_in(&mut way, start)?;
    for _turn in 0..u64::MAX {
        let Some(next) = next_within(uses, &mut way) else {
            break;
        };
        let Some(content) = next.found else {
            set_new(&mut closed, next.step.content);
            order.left.push(next.step.content)?;
            continue;
        };
        go_on(&mut way, next.step)?;
        if set_new(&mut seen, content) {
            go_in(&mut way, content)?;
        } else if !is_set(&closed, content) {
            set_new(&mut order.recursive, content);
        }
    }
    Ok(order)
}

//! The contents that a content uses, how often each is used, and how much is written for it.

use crate::flags::{at, is_set, put, set_new};
use std::alloc::Global;
use xd_auto::{Auto, LabelMove, State, TextMove};
use xd_doc::{Class, NoMemory};

/// What is known of contents, by the numbers of their states. Of it nothing is proved: it serves
/// the choice of names alone.
#[derive(Drop)]
pub(crate) struct Uses {
    /// The contents that stand right within a content, in the order in which its moves are met, one
    /// for each move.
    pub(crate) within: Vec<Vec<usize>>,
    /// In how many places a content stands within others. Under the same label within the same
    /// content it counts once, since what comes again is mostly written once.
    pub(crate) counts: Vec<usize>,
    /// How many moves are written for a content.
    pub(crate) weights: Vec<usize>,
}

/// A walk over the states that a content leads to after items.
#[derive(Drop)]
struct LevelWalk {
    /// For each state the last walk that met it.
    met_by: Vec<usize>,
    states: Vec<usize>,
    within: Vec<Used>,
    weight: usize,
    /// For each content the last walk that found it, and the labels under which it was found.
    used_by: Vec<usize>,
    used_under: Vec<Option<Class>>,
}

/// A content that a move uses, and whether it counts.
#[derive(Clone, Copy)]
struct Used {
    content: usize,
    counts: bool,
}

/// Whether this walk found the content before, under the same labels.
fn is_again(walk: &LevelWalk, walker: usize, content: usize, class: &Class) -> bool {
    if at(&walk.used_by, content) != walker {
        return false;
    }
    match walk.used_under.get(content) {
        Some(Some(last)) => {
            last.takes_others() == class.takes_others() && last.names() == class.names()
        }
        _ => false,
    }
}

/// Notes that a move uses a content.
fn use_content(
    walk: &mut LevelWalk,
    walker: usize,
    content: usize,
    class: &Class,
) -> Result<(), NoMemory> {
    let counts = !is_again(walk, walker, content, class);
    walk.within.push(Used { content, counts })?;
    put(&mut walk.used_by, content, walker);
    if content < walk.used_under.len() {
        walk.used_under[content] = Some(class.share()?);
    }
    Ok(())
}

/// A state that this walk meets, if it is the first time.
fn meet(walk: &mut LevelWalk, walker: usize, state: State) -> Result<(), NoMemory> {
    let number = state.number();
    if at(&walk.met_by, number) != walker {
        put(&mut walk.met_by, number, walker);
        walk.states.push(number)?;
    }
    Ok(())
}

fn meet_labels(
    walk: &mut LevelWalk,
    universal: &[bool],
    walker: usize,
    moves: &[LabelMove],
) -> Result<(), NoMemory> {
    for step in moves {
        walk.weight = walk.weight.saturating_add(1);
        if !is_set(universal, step.content.number()) {
            use_content(walk, walker, step.content.number(), &step.class)?;
        }
        meet(walk, walker, step.rest)?;
    }
    Ok(())
}

fn meet_texts(walk: &mut LevelWalk, walker: usize, moves: &[TextMove]) -> Result<(), NoMemory> {
    for step in moves {
        walk.weight = walk.weight.saturating_add(1);
        meet(walk, walker, step.rest)?;
    }
    Ok(())
}

/// Walks over the states that a content leads to after items. Each walk has a number of its own,
/// above 0.
fn walk_level(
    auto: &Auto,
    universal: &[bool],
    walk: &mut LevelWalk,
    walker: usize,
    start: usize,
) -> Result<(), NoMemory> {
    walk.states.clear();
    walk.within.clear();
    walk.weight = 0;
    put(&mut walk.met_by, start, walker);
    walk.states.push(start)?;
    for turn in 0..auto.len() {
        let Some(number) = walk.states.get(turn).copied() else {
            break;
        };
        if number < auto.len() {
            let state = auto.state(number);
            meet_labels(walk, universal, walker, auto.label_moves(state))?;
            meet_texts(walk, walker, auto.text_moves(state))?;
        }
    }
    Ok(())
}

/// Notes what a walk found within a content, and which contents come up for the first time.
fn note(
    alloc: Global,
    uses: &mut Uses,
    walk: &LevelWalk,
    number: usize,
    seen: &mut [bool],
    waiting: &mut Vec<usize>,
) -> Result<(), NoMemory> {
    put(&mut uses.weights, number, walk.weight);
    let mut within = Vec::new(alloc);
    for used in &walk.within {
        let more = if used.counts { 1 } else { 0 };
        let count = at(&uses.counts, used.content).saturating_add(more);
        put(&mut uses.counts, used.content, count);
        if set_new(seen, used.content) {
            waiting.push(used.content)?;
        }
        within.push(used.content)?;
    }
    if number < uses.within.len() {
        uses.within[number] = within;
    }
    Ok(())
}

/// Nothing within any content.
fn no_uses(alloc: Global, count: usize) -> Result<Uses, NoMemory> {
    let mut within = Vec::new(alloc);
    for _number in 0..count {
        within.push(Vec::new(alloc))?;
    }
    Ok(Uses {
        within,
        counts: vec![in alloc; 0; count]?,
        weights: vec![in alloc; 0; count]?,
    })
}

/// No labels for any content.
fn nothing_under(alloc: Global, count: usize) -> Result<Vec<Option<Class>>, NoMemory> {
    let mut made = Vec::new(alloc);
    for _number in 0..count {
        made.push(None)?;
    }
    Ok(made)
}

/// The uses of all contents that a state leads to, but for those that are marked to accept every
/// document.
///
/// The time is linear in the moves of the levels of these contents.
pub(crate) fn uses_of(
    alloc: Global,
    auto: &Auto,
    universal: &[bool],
    start: State,
) -> Result<Uses, NoMemory> {
    let mut uses = no_uses(alloc, auto.len())?;
    let mut walk = LevelWalk {
        met_by: vec![in alloc; 0; auto.len()]?,
        states: Vec::new(alloc),
        within: Vec::new(alloc),
        weight: 0,
        used_by: vec![in alloc; 0; auto.len()]?,
        used_under: nothing_under(alloc, auto.len())?,
    };
    let mut seen = vec![in alloc; false; auto.len()]?;
    let mut waiting = Vec::new(alloc);
    set_new(&mut seen, start.number());
    waiting.push(start.number())?;
    for turn in 0..auto.len() {
        let Some(number) = waiting.get(turn).copied() else {
            break;
        };
        walk_level(auto, universal, &mut walk, turn + 1, number)?;
        note(alloc, &mut uses, &walk, number, &mut seen, &mut waiting)?;
    }
    Ok(uses)
}

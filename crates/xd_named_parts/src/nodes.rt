//! The nodes that definitions use, and the choices that are long.

use crate::flags::{at, is_set, set_new};
use crate::parts::Definitions;
use std::alloc::Global;
use xd_doc::{Class, Label, NoMemory};
use xd_syntax::{TypeForm, TypeId};

/// What is known of the nodes of definitions, by their numbers. Of it nothing is proved: it serves
/// the choice of names alone.
#[derive(Drop)]
pub(crate) struct Nodes {
    /// The nodes that are used, parts before what they are part of.
    pub(crate) live: Vec<usize>,
    /// For a node that is a name its place among the given names, and else their number.
    pub(crate) places: Vec<usize>,
    /// How long the text of a node is without its parts, about.
    pub(crate) own: Vec<u64>,
    /// The nodes of the definitions, in order.
    pub(crate) bodies: Vec<usize>,
    /// For each definition the long choices that it has outside of labels.
    pub(crate) long: Vec<Vec<usize>>,
    /// For each definition whether it has the node of another one outside of labels.
    pub(crate) parted: Vec<bool>,
    /// The long choices, and the definitions that have them.
    pub(crate) choices: Vec<Held>,
}

/// A choice, and the places of the definitions that have it outside of labels.
#[derive(Drop)]
pub(crate) struct Held {
    pub(crate) number: usize,
    pub(crate) holders: Vec<usize>,
}

/// How long a choice is at least that is called long here, about.
const LONG: u64 = 60;

/// Marks the parts of a form.
fn mark_parts(form: &TypeForm, marks: &mut [bool]) {
    match form {
        TypeForm::Elem(_, part)
        | TypeForm::Star(part)
        | TypeForm::Plus(part)
        | TypeForm::Opt(part) => {
            set_new(marks, part.at());
        }
        TypeForm::Seq(parts) | TypeForm::Alt(parts) => {
            for part in parts {
                set_new(marks, part.at());
            }
        }
        _ => {}
    }
}

/// The nodes that the definitions use.
fn live_nodes(alloc: Global, given: &Definitions) -> Result<Vec<usize>, NoMemory> {
    let count = given.pool.types.len();
    let mut marks = vec![in alloc; false; count]?;
    for body in &given.bodies {
        set_new(&mut marks, body.at());
    }
    for turn in 0..count {
        let number = count - 1 - turn;
        if is_set(&marks, number) {
            mark_parts(given.pool.types.node(TypeId::of(number)).form(), &mut marks);
        }
    }
    let mut live = Vec::new(alloc);
    for number in 0..count {
        if is_set(&marks, number) {
            live.push(number)?;
        }
    }
    Ok(live)
}

/// The place of a name among others, if it is one of them, looked for from a place on.
fn place_of(names: &[Label], word: &Label, from: usize) -> usize {
    for place in from..names.len() {
        if names[place] == *word {
            return place;
        }
    }
    for place in 0..names.len() {
        if names[place] == *word {
            return place;
        }
    }
    names.len()
}

/// How long the labels of a class are with the brackets after them.
fn length_of_class(class: &Class) -> u64 {
    let mut sum = 4u64;
    for label in class.names() {
        sum = sum
            .saturating_add(label.as_str().len() as u64)
            .saturating_add(1);
    }
    sum
}

/// How long a node is without its parts.
fn own_length(form: &TypeForm) -> u64 {
    match form {
        TypeForm::Elem(class, _) => length_of_class(class),
        TypeForm::Words(words) => {
            let mut sum = 2u64;
            for text in words.texts() {
                sum = sum.saturating_add(text.as_str().len() as u64);
            }
            sum
        }
        TypeForm::Name(word) => word.as_str().len() as u64,
        _ => 1,
    }
}

/// What is known of the nodes before any length is.
pub(crate) fn nodes_of(alloc: Global, given: &Definitions) -> Result<Nodes, NoMemory> {
    let count = given.pool.types.len();
    let mut places = vec![in alloc; given.names.len(); count]?;
    let mut own = Vec::new(alloc);
    let mut from = 0;
    for number in 0..count {
        let form = given.pool.types.node(TypeId::of(number)).form();
        own.push(own_length(form))?;
        if let TypeForm::Name(word) = form {
            let place = place_of(&given.names, word, from);
            if number < places.len() {
                places[number] = place;
            }
            if place < given.names.len() {
                from = place;
            }
        }
    }
    let mut bodies = Vec::new(alloc);
    for body in &given.bodies {
        bodies.push(body.at())?;
    }
    Ok(Nodes {
        live: live_nodes(alloc, given)?,
        places,
        own,
        bodies,
        long: Vec::new(alloc),
        parted: Vec::new(alloc),
        choices: Vec::new(alloc),
    })
}

/// Puts the parts of a form that stand outside of labels after others.
fn push_tops(form: &TypeForm, waiting: &mut Vec<usize>) -> Result<(), NoMemory> {
    match form {
        TypeForm::Star(part) | TypeForm::Plus(part) | TypeForm::Opt(part) => {
            waiting.push(part.at())?;
        }
        TypeForm::Seq(parts) | TypeForm::Alt(parts) => {
            for part in parts {
                waiting.push(part.at())?;
            }
        }
        _ => {}
    }
    Ok(())
}

/// Whether the form is a choice.
fn is_choice(form: &TypeForm) -> bool {
    match form {
        TypeForm::Alt(_) => true,
        _ => false,
    }
}

/// The long choices that a node has outside of labels, each once. `seen` has for each node the last
/// search that met it; each search has a number of its own.
fn long_in(
    alloc: Global,
    given: &Definitions,
    lengths: &[u64],
    body: usize,
    seen: &mut [usize],
    search: usize,
) -> Result<Vec<usize>, NoMemory> {
    let mut found = Vec::new(alloc);
    let mut waiting = Vec::new(alloc);
    waiting.push(body)?;
    for _turn in 0..u64::MAX {
        let Some(number) = waiting.pop() else {
            break;
        };
        if number < seen.len() && seen[number] != search && number < given.pool.types.len() {
            seen[number] = search;
            let form = given.pool.types.node(TypeId::of(number)).form();
            if number != body && is_choice(form) && at(lengths, number) >= LONG {
                found.push(number)?;
            } else {
                push_tops(form, &mut waiting)?;
            }
        }
    }
    Ok(found)
}

/// Whether a node has one of those that are marked as a part outside of labels. `seen` and `search`
/// are as those of `long_in`.
fn has_marked(
    alloc: Global,
    given: &Definitions,
    marks: &[bool],
    body: usize,
    seen: &mut [usize],
    search: usize,
) -> Result<bool, NoMemory> {
    let mut waiting = Vec::new(alloc);
    waiting.push(body)?;
    for _turn in 0..u64::MAX {
        let Some(number) = waiting.pop() else {
            break;
        };
        if number < seen.len() && seen[number] != search && number < given.pool.types.len() {
            seen[number] = search;
            if number != body && is_set(marks, number) {
                return Ok(true);
            }
            push_tops(
                given.pool.types.node(TypeId::of(number)).form(),
                &mut waiting,
            )?;
        }
    }
    Ok(false)
}

/// Notes which definitions have the node of another one outside of labels. The first definition
/// counts as none of these, since it has to keep its name.
pub(crate) fn parted_bodies(
    alloc: Global,
    given: &Definitions,
    nodes: &mut Nodes,
) -> Result<(), NoMemory> {
    let count = given.pool.types.len();
    let mut seen = vec![in alloc; 0; count]?;
    let mut marks = vec![in alloc; false; count]?;
    for body in &given.bodies {
        set_new(&mut marks, body.at());
    }
    nodes.parted.push(false)?;
    for place in 1..given.bodies.len() {
        let body = given.bodies[place].at();
        let has = has_marked(alloc, given, &marks, body, &mut seen, place)?;
        nodes.parted.push(has)?;
    }
    Ok(())
}

/// No definitions for any node.
fn no_holders(alloc: Global, count: usize) -> Result<Vec<Vec<usize>>, NoMemory> {
    let mut made = Vec::new(alloc);
    for _number in 0..count {
        made.push(Vec::new(alloc))?;
    }
    Ok(made)
}

/// Notes the long choices of the definitions, by lengths of nodes outside of labels. The first
/// definition counts as none that has one, since it has to keep its name.
pub(crate) fn long_choices(
    alloc: Global,
    given: &Definitions,
    lengths: &[u64],
    nodes: &mut Nodes,
) -> Result<(), NoMemory> {
    let count = given.pool.types.len();
    let mut seen = vec![in alloc; 0; count]?;
    let mut holders = no_holders(alloc, count)?;
    nodes.long.push(Vec::new(alloc))?;
    for place in 1..given.bodies.len() {
        let body = given.bodies[place].at();
        let long = long_in(alloc, given, lengths, body, &mut seen, place)?;
        for number in &long {
            if *number < holders.len() {
                holders[*number].push(place)?;
            }
        }
        nodes.long.push(long)?;
    }
    for number in &nodes.live {
        if *number < holders.len() && !holders[*number].is_empty() {
            let held = std::mem::replace(&mut holders[*number], Vec::new(alloc));
            nodes.choices.push(Held {
                number: *number,
                holders: held,
            })?;
        }
    }
    Ok(())
}

//! Choices of a side for each matching move, by which an element is refused.

ghost use Rattle.std.specs.Prelude.{◌≡◌, ◌||◌, ◌&&◌, Bool, List, IfOk, OnOk};
ghost use Rattle.std.specs.List.{list_any};
ghost use Rattle.xd_boole.specs.Meaning.{has_state, is_within};
ghost use Rattle.xd_boole.specs.Choices.{AddsChoice, AddsContent, AddsRest, AddsSide, CopiesChoices, ExtendsAll, IsNoChoice, is_refused_alone};

use crate::groups::MoveSide;
use crate::states::{has_state, is_within, put_state};
use crate::universal::is_marked;
use std::alloc::Global;
use xd_auto::State;
use xd_doc::NoMemory;

/// States that are to refuse the content, and states that are to refuse what follows.
#[derive(Drop)]
pub struct SideChoice {
    pub contents: Vec<State>,
    pub rests: Vec<State>,
}

/// Whether the choice refuses what a matching move accepts.
fn refuses(choice: &SideChoice, side: MoveSide) -> bool
    ensures { result ≡ (has_state side.content choice.now.contents.items || has_state side.rest choice.now.rests.items) }
{
    has_state(&choice.contents, side.content) || has_state(&choice.rests, side.rest)
}

/// Whether the sets of a choice contain those of another.
fn contains(choice: &SideChoice, other: &SideChoice) -> bool
    ensures { result ≡ (is_within choice.now.contents.items other.now.contents.items && is_within choice.now.rests.items other.now.rests.items) }
{
    is_within(&other.contents, &choice.contents) && is_within(&other.rests, &choice.rests)
}

/// Puts a choice among the others, unless its sets contain those of one of them. Those whose sets
/// contain its own are dropped: what they refuse it refuses too.
fn add_choice(choices: Vec<SideChoice>, choice: SideChoice) -> Result<Vec<SideChoice>, NoMemory>
    ensures { IfOk result (λ made. AddsChoice choice choices.items made.items) }
{
    for other in &choices {
        if contains(&choice, other) {
            return Ok(choices);
        }
    }
    let mut choices = choices;
    choices.retain(|other| !contains(other, &choice));
    choices.push(choice)?;
    Ok(choices)
}

/// Adds a choice, extended by the content of one more matching move.
fn add_with_content(
    choices: Vec<SideChoice>,
    choice: SideChoice,
    side: MoveSide,
) -> Result<Vec<SideChoice>, NoMemory>
    ensures { IfOk result (λ made. (universal : List Bool) → AddsContent universal side choice choices.items made.items) }
{
    let SideChoice { contents, rests } = choice;
    let mut contents = contents;
    put_state(&mut contents, side.content)?;
    let choices = add_choice(choices, SideChoice { contents, rests })?;
    Ok(choices)
}

/// The same by what follows, unless that is known to accept everything.
fn add_with_rest(
    choices: Vec<SideChoice>,
    choice: SideChoice,
    side: MoveSide,
    universal: &[bool],
) -> Result<Vec<SideChoice>, NoMemory>
    ensures { IfOk result (λ made. AddsRest universal.now side choice choices.items made.items) }
{
    if is_marked(universal, side.rest) {
        return Ok(choices);
    }
    let SideChoice { contents, rests } = choice;
    let mut rests = rests;
    put_state(&mut rests, side.rest)?;
    let choices = add_choice(choices, SideChoice { contents, rests })?;
    Ok(choices)
}

/// Whether one of the choices asks for no more than that this state refuses the content. What a
/// choice refuses that the state was added to, it refuses too.
fn has_content_alone(choices: &[SideChoice], content: State) -> bool
    ensures { result ≡ list_any (is_refused_alone content) choices.now }
{
    for choice in choices {
        if is_within(&choice.contents, &[content]) && is_within(&choice.rests, &[]) {
            return true;
        }
    }
    false
}

/// An equal choice.
fn copy_choice(alloc: Global, choice: &SideChoice) -> Result<SideChoice, NoMemory>
    ensures contents { IfOk result (λ copy. copy.contents.items ≡ choice.now.contents.items) }
    ensures rests { IfOk result (λ copy. copy.rests.items ≡ choice.now.rests.items) }
{
    let contents = choice.contents.to_vec(alloc)?;
    let rests = choice.rests.to_vec(alloc)?;
    Ok(SideChoice { contents, rests })
}

/// Adds a choice, extended by a side for one more matching move; where it refuses what that accepts
/// already, as it is. It is copied only where both its content and what follows can refuse.
fn add_extended(
    alloc: Global,
    choices: Vec<SideChoice>,
    choice: SideChoice,
    side: MoveSide,
    universal: &[bool],
) -> Result<Vec<SideChoice>, NoMemory>
    ensures { IfOk result (λ made. AddsSide universal.now side choice choices.items made.items) }
{
    if refuses(&choice, side) {
        let choices = add_choice(choices, choice)?;
        return Ok(choices);
    }
    if is_marked(universal, side.content) {
        let choices = add_with_rest(choices, choice, side, universal)?;
        return Ok(choices);
    }
    if is_marked(universal, side.rest) {
        let choices = add_with_content(choices, choice, side)?;
        return Ok(choices);
    }
    if has_content_alone(&choices, side.content) {
        let choices = add_with_rest(choices, choice, side, universal)?;
        return Ok(choices);
    }
    let copy = copy_choice(alloc, &choice)?;
    let choices = add_with_content(choices, copy, side)?;
    let choices = add_with_rest(choices, choice, side, universal)?;
    Ok(choices)
}

/// Extends each choice by a side for one more matching move.
pub(crate) fn extend_all(
    alloc: Global,
    choices: Vec<SideChoice>,
    side: MoveSide,
    universal: &[bool],
) -> Result<Vec<SideChoice>, NoMemory>
    ensures { IfOk result (λ made. ExtendsAll universal.now side choices.items made.items) }
{
    let mut choices = choices;
    let mut extended = Vec::new(alloc);
    while let Some(choice) = choices.pop() {
        extended = add_extended(alloc, extended, choice, side, universal)?;
    }
    Ok(extended)
}

/// The one choice by which an element is refused where no move matches it: no state need refuse.
pub(crate) fn no_choice(alloc: Global) -> Result<Vec<SideChoice>, NoMemory>
    ensures { IfOk result (λ made. IsNoChoice made.items) }
{
    let mut choices = Vec::new(alloc);
    choices.push(SideChoice {
        contents: Vec::new(alloc),
        rests: Vec::new(alloc),
    })?;
    Ok(choices)
}

/// Equal choices.
pub(crate) fn copy_choices(
    alloc: Global,
    choices: &[SideChoice],
) -> Result<Vec<SideChoice>, NoMemory>
    ensures { IfOk result (λ copies. CopiesChoices choices.now copies.items) }
{
    let mut copies = Vec::new(alloc);
    for choice in choices {
        let copy = copy_choice(alloc, choice)?;
        copies.push(copy)?;
    }
    Ok(copies)
}

//! The texts of a class, in groups that the same moves match.

ghost use Rattle.std.specs.Prelude.{◌≡◌, IfOk, OnOk};
ghost use Rattle.std.specs.List.{AllByRecursion};
ghost use Rattle.xd_doc.specs.Classes.{class_has};
ghost use Rattle.xd_auto.specs.Automaton.{IsState};
ghost use Rattle.xd_boole.specs.Groups.{AddsInside, AreTextGroupsBefore, Divides, DividesAll, label_side};

use crate::matching::matching_before;
use crate::states::has_state;
use std::alloc::Global;
use xd_auto::{Auto, LabelMove, State, TextMove};
use xd_doc::{NoMemory, Words};

/// What a move on an element says of the content and of what follows the element.
#[derive(Clone, Copy)]
pub struct MoveSide {
    pub content: State,
    pub rest: State,
}

/// What a move says of the content and of what follows the element.
pub fn side_of(step: &LabelMove) -> MoveSide
    ensures { result ≡ label_side step.now }
{
    MoveSide {
        content: step.content,
        rest: step.rest,
    }
}

/// Names that the same moves match, and what these moves say.
#[derive(Drop)]
pub struct Group<C, S> {
    pub class: C,
    pub sides: Vec<S>,
}

/// Puts the texts of a group that a move matches after the groups, with the group's sides and the
/// move's.
fn add_inside(
    groups: &mut Vec<Group<Words, State>>,
    inside: Words,
    sides: Vec<State>,
    side: State,
) -> Result<(), NoMemory>
    ensures { OnOk result (AddsInside inside sides.items side groups.old.items groups.new.items) }
{
    let mut sides = sides;
    sides.push(side)?;
    groups.push(Group {
        class: inside,
        sides,
    })?;
    Ok(())
}

/// Divides a group into the texts that a move matches and those that it doesn't. Where another move
/// said the same of all its texts it stays one.
fn divide(
    alloc: Global,
    groups: &mut Vec<Group<Words, State>>,
    group: Group<Words, State>,
    step: &TextMove,
) -> Result<(), NoMemory>
    ensures { OnOk result (Divides class_has step.now.words step.now.rest group groups.old.items groups.new.items) }
{
    if has_state(&group.sides, step.rest) {
        groups.push(group)?;
        return Ok(());
    }
    let Some(inside) = group.class.meet(&step.words)? else {
        groups.push(group)?;
        return Ok(());
    };
    let Some(outside) = group.class.without(&step.words)? else {
        return add_inside(groups, inside, group.sides, step.rest);
    };
    let sides = group.sides.to_vec(alloc)?;
    add_inside(groups, inside, sides, step.rest)?;
    groups.push(Group {
        class: outside,
        sides: group.sides,
    })?;
    Ok(())
}

/// Divides each group by a move.
fn divide_all(
    alloc: Global,
    groups: Vec<Group<Words, State>>,
    step: &TextMove,
) -> Result<Vec<Group<Words, State>>, NoMemory>
    ensures { IfOk result (λ made. DividesAll class_has step.now.words step.now.rest groups.items made.items) }
{
    let mut groups = groups;
    let mut divided = Vec::new(alloc);
    while let Some(group) = groups.pop() {
        divide(alloc, &mut divided, group, step)?;
    }
    Ok(divided)
}

/// The texts of a move's class in groups, by the moves of these states that match them, and by
/// those of one more state that stand before a place. Fails only where memory is refused.
pub fn text_groups_before(
    alloc: Global,
    auto: &Auto,
    step: &TextMove,
    states: &[State],
    own: State,
    place: usize,
) -> Result<Vec<Group<Words, State>>, NoMemory>
    requires states { AllByRecursion (IsState auto.now) states.now }
    requires own { IsState auto.now own }
    ensures { IfOk result (λ made. AreTextGroupsBefore auto.now step.now.words states.now own place made.items) }
{
    let moves = matching_before(alloc, auto, step, states, own, place)?;
    let mut groups = Vec::new(alloc);
    groups.push(Group {
        class: step.words.share()?,
        sides: Vec::new(alloc),
    })?;
    for other in &moves {
        groups = divide_all(alloc, groups, other)?;
    }
    Ok(groups)
}

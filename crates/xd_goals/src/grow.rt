//! How choice trees grow.

ghost use Rattle.std.specs.Prelude.{◌≡◌, ◌<◌, [], length, Some, slice_get, IfOk};
ghost use Rattle.xd_auto.specs.Automaton.{state_number};
ghost use Rattle.xd_state_heads.specs.Moves.{AreBelow, IsInOrder, claim_with, with_state};
ghost use Rattle.xd_goals.specs.Rows.{IsRefuted, claim_at};
ghost use Rattle.xd_goals.specs.Kept.{Grows, IsConsistent, view_of};
ghost use Rattle.xd_goals.specs.Progress.{CanGrow, HasGrown, IsGrownFrom};
ghost use Rattle.xd_goals.specs.Trees.{GoesOnAs, GrownAs, HasOpenTree, HasTree, IsFailure, IsFree, IsGrown, IsLeafFor, IsNumbered, IsPathBelow, IsSplitAt, IsTextFailure, IsTextTree, gathered};
ghost use Rattle.xd_state_heads.specs.declared.heads.Side.{Side};

use crate::goals::{Goals, add_node, depend, find_or_add};
use crate::table::{ChoiceNode, GoalCase, GoalId, Standing};
use crate::takers::taker;
use std::alloc::Global;
use xd_auto::{Answers, Auto, State};
use xd_doc::{NoMemory, Seq, Store};
use xd_state_heads::Side;

/// What a choice tree is for: its case, what the left head says of the content and the rest, and
/// the number of the automaton's states, of which only contracts speak.
#[derive(Clone, Copy)]
pub(crate) struct Task {
    pub(crate) owner: GoalCase,
    pub(crate) content: State,
    pub(crate) rest: State,
    pub(crate) states: usize,
}

/// What the choice tree of an element grows in: the automaton, the documents that refute goals, its
/// task, and the right heads that match.
#[derive(Clone, Copy)]
pub(crate) struct Setting<'a> {
    pub(crate) alloc: Global,
    pub(crate) auto: &'a Auto,
    pub(crate) store: &'a Store,
    pub(crate) task: Task,
    pub(crate) sides: &'a [Side],
}

/// A tree by its root, none of whose leaves names a refuted goal; or a content and a rest of an
/// element that no right head takes.
#[derive(Clone, Copy)]
pub(crate) enum Grown {
    Stands(usize),
    Fails(Seq, Seq),
}

/// The states with one more, each once, in the order of their numbers.
fn with_state(alloc: Global, states: &[State], state: State) -> Result<Vec<State>, NoMemory>
    ensures { IfOk result (λ made. made.items ≡ with_state state states.now) }
{
    let mut place = 0;
    while place < states.len() && states[place].number() < state.number() {
        place += 1;
    }
    let mut made = states.to_vec(alloc)?;
    if place == states.len() || states[place] != state {
        made.insert(place, state)?;
    }
    Ok(made)
}

/// The right head at this place.
pub(crate) fn side_of(sides: &[Side], place: usize) -> Side
    requires { place < length sides.now }
    ensures { slice_get sides.now place ≡ Some result }
{
    sides[place]
}

/// The right head of this number.
fn side_numbered(sides: &[Side], number: usize) -> Side
    requires { (side : Side) × IsNumbered sides.now number side }
    ensures { IsNumbered sides.now number result }
{
    for place in 0..sides.len() {
        let side = side_of(sides, place);
        if side.number == number {
            return side;
        }
    }
    unreachable!()
}

/// The goal for a leaf, among whose dependents the tree's case is.
fn leaf(
    alloc: Global,
    goals: &mut Goals,
    task: Task,
    left: State,
    rights: &[State],
) -> Result<GoalId, NoMemory>
    requires consistent { IsConsistent task.states goals.old }
    requires owner { task.owner.goal.number < length goals.old.rows.items }
    requires left { state_number left < task.states }
    requires rights { AreBelow task.states rights.now }
    requires order { IsInOrder rights.now }
    ensures consistent { IsConsistent task.states goals.new }
    ensures grows { Grows (view_of goals.old) (view_of goals.new) }
    ensures ok { IfOk result (λ goal. IsLeafFor (view_of goals.new) task.owner (claim_with left rights.now) goal.number) }
    ensures there { IfOk result (λ goal. goal.number < length goals.new.rows.items) }
{
    let goal = find_or_add(alloc, goals, task.states, left, rights)?;
    depend(goals, task.states, goal, task.owner)?;
    Ok(goal)
}

/// A node that splits on a right head.
fn add_split(
    goals: &mut Goals,
    task: Task,
    right: usize,
    content: usize,
    rest: usize,
) -> Result<usize, NoMemory>
    requires consistent { IsConsistent task.states goals.old }
    requires content { content < length goals.old.nodes.items }
    requires rest { rest < length goals.old.nodes.items }
    ensures consistent { IsConsistent task.states goals.new }
    ensures rows { goals.new.rows.items ≡ goals.old.rows.items }
    ensures grows { Grows (view_of goals.old) (view_of goals.new) }
    ensures split { IfOk result (IsSplitAt goals.new.nodes.items right content rest) }
{
    add_node(
        goals,
        task.states,
        ChoiceNode::Split {
            right,
            content,
            rest,
        },
    )
}

/// How a tree goes on from a path: it ends here, or splits on a right head.
#[derive(Clone, Copy)]
enum Growth {
    Ends(Grown),
    Splits(Side),
}

/// How a tree goes on from a path on which some of the matching right heads are on the two sides.
///
/// Where the path's goals are refuted, by a content and a rest, only a head that takes the element
/// made of these can help: the tree splits on such a one. No head on the path is such a one, and
/// where there is none, the element separates.
fn next_growth(
    setting: &Setting,
    answers: &mut Answers,
    goals: &mut Goals,
    contents: &[State],
    rests: &[State],
) -> Result<Growth, NoMemory>
    requires { CanGrow setting.now.auto.now setting.now.store.now setting.now.task setting.now.sides.now contents.now rests.now goals.old answers.old }
    ensures grows { HasGrown setting.now.task.states setting.now.auto.now setting.now.store.now goals.old goals.new answers.new }
    ensures growth { IfOk result (GoesOnAs
        (HasOpenTree (view_of goals.new) (λ tree. IsGrown goals.new.rows.items setting.now.task setting.now.sides.now tree contents.now rests.now) setting.now.task.owner)
        (IsFailure setting.now.auto.now setting.now.store.now setting.now.task setting.now.sides.now)
        (IsFree setting.now.sides.now contents.now rests.now)) }
{
    let content = leaf(
        setting.alloc,
        goals,
        setting.task,
        setting.task.content,
        contents,
    )?;
    let Standing::Refuted(inside) = goals.standing(content) else {
        let leaf = add_node(goals, setting.task.states, ChoiceNode::Content(content))?;
        return Ok(Growth::Ends(Grown::Stands(leaf)));
    };
    let rest = leaf(setting.alloc, goals, setting.task, setting.task.rest, rests)?;
    let Standing::Refuted(behind) = goals.standing(rest) else {
        let leaf = add_node(goals, setting.task.states, ChoiceNode::Rest(rest))?;
        return Ok(Growth::Ends(Grown::Stands(leaf)));
    };
    match taker(setting, answers, contents, rests, inside, behind)? {
        Some(side) => Ok(Growth::Splits(side)),
        None => Ok(Growth::Ends(Grown::Fails(inside, behind))),
    }
}

/// A tree for an element, from a path on which some of the matching right heads are on the two
/// sides.
pub(crate) fn grow(
    setting: &Setting,
    answers: &mut Answers,
    goals: &mut Goals,
    contents: &[State],
    rests: &[State],
) -> Result<Grown, NoMemory>
    requires { CanGrow setting.now.auto.now setting.now.store.now setting.now.task setting.now.sides.now contents.now rests.now goals.old answers.old }
    ensures grows { HasGrown setting.now.task.states setting.now.auto.now setting.now.store.now goals.old goals.new answers.new }
    ensures grown { IfOk result (IsGrownFrom setting.now.auto.now setting.now.store.now setting.now.task setting.now.sides.now contents.now rests.now goals.new) }
{
    let side = match next_growth(setting, answers, goals, contents, rests)? {
        Growth::Ends(grown) => return Ok(grown),
        Growth::Splits(side) => side,
    };
    let more = with_state(setting.alloc, contents, side.content)?;
    match grow(setting, answers, goals, &more, rests)? {
        Grown::Fails(inside, behind) => Ok(Grown::Fails(inside, behind)),
        Grown::Stands(one) => {
            let more = with_state(setting.alloc, rests, side.rest)?;
            match grow(setting, answers, goals, contents, &more)? {
                Grown::Fails(inside, behind) => Ok(Grown::Fails(inside, behind)),
                Grown::Stands(two) => {
                    let root = add_split(goals, setting.task, side.number, one, two)?;
                    Ok(Grown::Stands(root))
                }
            }
        }
    }
}

/// The node of this number.
pub(crate) fn node_at(nodes: &[ChoiceNode], number: usize) -> ChoiceNode
    requires { number < length nodes.now }
    ensures { slice_get nodes.now number ≡ Some result }
{
    nodes[number]
}

/// The node that splits between mended trees: the one that is there, where they are its own.
fn split_again(
    goals: &mut Goals,
    task: Task,
    root: usize,
    right: usize,
    parts: (usize, usize),
    mended: (usize, usize),
) -> Result<usize, NoMemory>
    requires consistent { IsConsistent task.states goals.old }
    requires there { IsSplitAt goals.old.nodes.items right parts.0 parts.1 root }
    requires one { mended.0 < length goals.old.nodes.items }
    requires two { mended.1 < length goals.old.nodes.items }
    ensures consistent { IsConsistent task.states goals.new }
    ensures grows { Grows (view_of goals.old) (view_of goals.new) }
    ensures split { IfOk result (IsSplitAt goals.new.nodes.items right mended.0 mended.1) }
{
    let (content, rest) = parts;
    let (one, two) = mended;
    if one == content && two == rest {
        return Ok(root);
    }
    add_split(goals, task, right, one, two)
}

/// A leaf that names this goal: as it is, or grown anew where the goal is refuted.
fn repair_leaf(
    setting: &Setting,
    answers: &mut Answers,
    goals: &mut Goals,
    root: usize,
    goal: GoalId,
    contents: &[State],
    rests: &[State],
) -> Result<Grown, NoMemory>
    requires can { CanGrow setting.now.auto.now setting.now.store.now setting.now.task setting.now.sides.now contents.now rests.now goals.old answers.old }
    requires there { goal.number < length goals.old.rows.items }
    requires opens { ¬ (IsRefuted goals.old.rows.items goal.number) → HasOpenTree (view_of goals.old) (λ tree. IsGrown goals.old.rows.items setting.now.task setting.now.sides.now tree contents.now rests.now) setting.now.task.owner root }
    ensures grows { HasGrown setting.now.task.states setting.now.auto.now setting.now.store.now goals.old goals.new answers.new }
    ensures grown { IfOk result (IsGrownFrom setting.now.auto.now setting.now.store.now setting.now.task setting.now.sides.now contents.now rests.now goals.new) }
{
    if goals.is_refuted(goal) {
        grow(setting, answers, goals, contents, rests)
    } else {
        Ok(Grown::Stands(root))
    }
}

/// The tree of this root with each leaf that names a refuted goal grown anew.
pub(crate) fn repair(
    setting: &Setting,
    answers: &mut Answers,
    goals: &mut Goals,
    root: usize,
    contents: &[State],
    rests: &[State],
) -> Result<Grown, NoMemory>
    requires can { CanGrow setting.now.auto.now setting.now.store.now setting.now.task setting.now.sides.now contents.now rests.now goals.old answers.old }
    requires tree { HasTree (view_of goals.old) (λ tree. IsGrown goals.old.rows.items setting.now.task setting.now.sides.now tree contents.now rests.now) setting.now.task.owner root }
    ensures grows { HasGrown setting.now.task.states setting.now.auto.now setting.now.store.now goals.old goals.new answers.new }
    ensures grown { IfOk result (IsGrownFrom setting.now.auto.now setting.now.store.now setting.now.task setting.now.sides.now contents.now rests.now goals.new) }
{
    match node_at(&goals.nodes, root) {
        ChoiceNode::Content(goal) => repair_leaf(
            setting, answers, goals, root, goal, contents, rests,
        ),
        ChoiceNode::Rest(goal) => repair_leaf(setting, answers, goals, root, goal, contents, rests),
        ChoiceNode::Split {
            right,
            content,
            rest,
        } => {
            let side = side_numbered(setting.sides, right);
            let more = with_state(setting.alloc, contents, side.content)?;
            match repair(setting, answers, goals, content, &more, rests)? {
                Grown::Fails(inside, behind) => Ok(Grown::Fails(inside, behind)),
                Grown::Stands(one) => {
                    let more = with_state(setting.alloc, rests, side.rest)?;
                    match repair(setting, answers, goals, rest, contents, &more)? {
                        Grown::Fails(inside, behind) => Ok(Grown::Fails(inside, behind)),
                        Grown::Stands(two) => {
                            let root = split_again(
                                goals,
                                setting.task,
                                root,
                                right,
                                (content, rest),
                                (one, two),
                            )?;
                            Ok(Grown::Stands(root))
                        }
                    }
                }
            }
        }
    }
}

/// The rests of right heads.
fn rests_of(alloc: Global, sides: &[Side]) -> Result<Vec<State>, NoMemory>
    ensures { IfOk result (λ rests. rests.items ≡ gathered [] sides.now) }
{
    let mut rests = Vec::new(alloc);
    for side in sides {
        rests = with_state(alloc, &rests, side.rest)?;
    }
    Ok(rests)
}

/// A tree for a text: one leaf for the rest.
pub(crate) fn grow_text(
    alloc: Global,
    goals: &mut Goals,
    task: Task,
    sides: &[Side],
) -> Result<Grown, NoMemory>
    requires consistent { IsConsistent task.states goals.old }
    requires owner { task.owner.goal.number < length goals.old.rows.items }
    requires path { IsPathBelow task.states task sides.now [] [] }
    ensures consistent { IsConsistent task.states goals.new }
    ensures grows { Grows (view_of goals.old) (view_of goals.new) }
    ensures grown { IfOk result (GrownAs
        (HasOpenTree (view_of goals.new) (IsTextTree goals.new.rows.items task sides.now) task.owner)
        (λ inside behind. IsTextFailure goals.new.rows.items task sides.now behind)) }
{
    let rests = rests_of(alloc, sides)?;
    let rest = leaf(alloc, goals, task, task.rest, &rests)?;
    match goals.standing(rest) {
        Standing::Refuted(behind) => Ok(Grown::Fails(Seq::empty(), behind)),
        _ => Ok(Grown::Stands(add_node(goals, task.states, ChoiceNode::Rest(rest))?)),
    }
}

//! On which right head a choice tree splits.

ghost use Rattle.std.specs.Prelude.{◌≡◌, false, IfOk, MatchOption};
ghost use Rattle.std.specs.List.{AllByRecursion};
ghost use Rattle.xd_doc.specs.StoredSeq.{BelongsTo};
ghost use Rattle.xd_auto.specs.Automaton.{IsState};
ghost use Rattle.xd_auto.specs.Kept.{AreRight};
ghost use Rattle.xd_goals.specs.Trees.{IsTaker, takes};
ghost use Rattle.xd_state_heads.specs.declared.heads.Side.{Side};

use crate::grow::{Setting, side_of};
use xd_auto::{Answers, Auto, State, accepts_kept};
use xd_doc::{Label, NoMemory, Seq, Store};
use xd_state_heads::Side;

/// Whether a right head takes an element with this content and this rest.
fn is_taker(
    auto: &Auto,
    store: &Store,
    answers: &mut Answers,
    side: Side,
    inside: Seq,
    behind: Seq,
) -> Result<bool, NoMemory>
    requires content { IsState auto.now side.content }
    requires rest { IsState auto.now side.rest }
    requires inside { BelongsTo store.now inside }
    requires behind { BelongsTo store.now behind }
    requires right { AreRight auto.now store.now answers.old }
    ensures answer { IfOk result (λ answer. answer ≡ takes auto.now store.now inside behind side) }
    ensures right { AreRight auto.now store.now answers.new }
{
    if accepts_kept(answers, auto, side.content, store, inside)? {
        accepts_kept(answers, auto, side.rest, store, behind)
    } else {
        Ok(false)
    }
}

/// Whether one of some states, or one more, has a move on the label.
fn any_takes(auto: &Auto, states: &[State], more: State, label: &Label) -> bool
    requires states { AllByRecursion (IsState auto.now) states.now }
    requires more { IsState auto.now more }
{
    if auto.next_label_move(more, label, 0).is_some() {
        return true;
    }
    for state in states {
        if auto.next_label_move(*state, label, 0).is_some() {
            return true;
        }
    }
    false
}

/// Whether they have a move on each of the labels.
fn all_taken(auto: &Auto, labels: &[Label], states: &[State], more: State) -> bool
    requires states { AllByRecursion (IsState auto.now) states.now }
    requires more { IsState auto.now more }
{
    for label in labels {
        if !any_takes(auto, states, more, label) {
            return false;
        }
    }
    true
}

/// Whether some states, with one more, have a move on each label that a move of the left names, as
/// they must where they accept all that the left does.
fn looks_covered(auto: &Auto, left: State, states: &[State], more: State) -> bool
    requires left { IsState auto.now left }
    requires states { AllByRecursion (IsState auto.now) states.now }
    requires more { IsState auto.now more }
{
    for step in auto.label_moves(left) {
        if !step.class.takes_others() && !all_taken(auto, step.class.names(), states, more) {
            return false;
        }
    }
    true
}

/// A right head that takes the element: the first one with which the two sides look as if they
/// could do without another head, and where there is none such, the first of all. Where only the
/// last one takes it, there is no choice, and nothing is looked at.
///
/// A head that takes the element may be too small for what the left head has. The goals that it
/// leads to are refuted in the end, and until then they lead to others, which stay. So a head that
/// lacks a label right at the beginning is put off.
pub(crate) fn taker(
    setting: &Setting,
    answers: &mut Answers,
    contents: &[State],
    rests: &[State],
    inside: Seq,
    behind: Seq,
) -> Result<Option<Side>, NoMemory>
    requires content { IsState setting.now.auto.now setting.now.task.content }
    requires rest { IsState setting.now.auto.now setting.now.task.rest }
    requires sides { AllByRecursion (λ (side : Side). (IsState setting.now.auto.now side.content) × (IsState setting.now.auto.now side.rest)) setting.now.sides.now }
    requires contents { AllByRecursion (IsState setting.now.auto.now) contents.now }
    requires rests { AllByRecursion (IsState setting.now.auto.now) rests.now }
    requires inside { BelongsTo setting.now.store.now inside }
    requires behind { BelongsTo setting.now.store.now behind }
    requires right { AreRight setting.now.auto.now setting.now.store.now answers.old }
    ensures found { IfOk result (λ found. MatchOption found
        (AllByRecursion (λ (side : Side). takes setting.now.auto.now setting.now.store.now inside behind side ≡ false) setting.now.sides.now)
        (IsTaker setting.now.auto.now setting.now.store.now setting.now.sides.now inside behind)) }
    ensures right { AreRight setting.now.auto.now setting.now.store.now answers.new }
{
    let mut first = None;
    for place in 0..setting.sides.len() {
        let side = side_of(setting.sides, place);
        if !is_taker(setting.auto, setting.store, answers, side, inside, behind)? {
            continue;
        }
        if first.is_none() && place + 1 == setting.sides.len() {
            return Ok(Some(side));
        }
        if looks_covered(setting.auto, setting.task.content, contents, side.content)
            && looks_covered(setting.auto, setting.task.rest, rests, side.rest)
        {
            return Ok(Some(side));
        }
        first = first.or(Some(side));
    }
    Ok(first)
}

//! States that accept the same, also where they lead back to themselves.

ghost use Rattle.std.specs.Prelude.{◌≡◌, ◌<◌, true, length, IfOk};
ghost use Rattle.std.specs.List.{AllByRecursion};
ghost use Rattle.xd_doc.specs.Document.{Document};
ghost use Rattle.xd_auto.specs.Automaton.{IsState, accepts};
ghost use Rattle.xd_boole.specs.Merging.{AreStandIns, AreBisimilar};
ghost use Rattle.xd_boole.specs.Universal.{MarkUniversal};

use crate::merging::{
    Compared, are_like, bare_states, mixed, mixed_name, redirect_state, stand_in, stand_ins,
};
use crate::universal::{is_marked, universal_states, with_universal};
use std::alloc::Global;
use std::collections::HashMap;
use xd_auto::{Auto, State};
use xd_doc::NoMemory;

/// The group of a state, by its number.
fn group_of(groups: &[usize], state: State) -> usize {
    groups.get(state.number()).copied().unwrap_or(0)
}

/// A number that states share which are in one group, and whose moves lead to the same groups; and
/// one that all share which are known to accept everything.
fn grouping(auto: &Auto, universal: &[bool], groups: &[usize], state: State) -> u64
    requires { IsState auto.now state }
{
    if is_marked(universal, state) {
        return 0;
    }
    let mut key = mixed(0, group_of(groups, state));
    for step in auto.label_moves(state) {
        key = mixed(key, usize::from(step.class.takes_others()));
        key = mixed(key, step.class.names().len());
        for label in step.class.names() {
            key = mixed_name(key, label.as_str());
        }
        key = mixed(key, group_of(groups, step.content));
        key = mixed(key, group_of(groups, step.rest));
    }
    for step in auto.text_moves(state) {
        key = mixed(key, usize::from(step.words.takes_others()));
        key = mixed(key, step.words.texts().len());
        for text in step.words.texts() {
            key = mixed_name(key, text.as_str());
        }
        key = mixed(key, group_of(groups, step.rest));
    }
    key
}

/// States in groups, and how many groups there are.
#[derive(Drop)]
struct Groups {
    of: Vec<usize>,
    count: usize,
}

/// Groups by whether a state accepts the empty document.
fn first_groups(alloc: Global, auto: &Auto) -> Result<Groups, NoMemory> {
    let mut of = Vec::new(alloc);
    for number in 0..auto.len() {
        of.push(if auto.is_last(auto.state(number)) {
            1
        } else {
            0
        })?;
    }
    Ok(Groups { of, count: 1 })
}

/// Groups parted by where moves lead.
fn parted(
    alloc: Global,
    auto: &Auto,
    universal: &[bool],
    old: &[usize],
) -> Result<Groups, NoMemory> {
    let mut found = HashMap::new(alloc);
    let mut of = Vec::new(alloc);
    let mut count = 0usize;
    for number in 0..auto.len() {
        let key = grouping(auto, universal, old, auto.state(number));
        match found.get(&key).copied() {
            Some(group) => of.push(group)?,
            None => {
                found.insert(key, count)?;
                of.push(count)?;
                count = count.saturating_add(1);
            }
        }
    }
    Ok(Groups { of, count })
}

/// Groups that are parted no more.
fn last_groups(alloc: Global, auto: &Auto, universal: &[bool]) -> Result<Groups, NoMemory> {
    let mut groups = first_groups(alloc, auto)?;
    for _round in 0..auto.len() {
        let next = parted(alloc, auto, universal, &groups.of)?;
        let is_same = next.count == groups.count;
        groups = next;
        if is_same {
            break;
        }
    }
    Ok(groups)
}

/// One state of the group of each state: a guess at which states accept the same. Of the newest
/// state's group it is that one, of others the first.
fn guessed(alloc: Global, auto: &Auto, universal: &[bool]) -> Result<Vec<State>, NoMemory>
    ensures count { IfOk result (λ same. length same.items ≡ length auto.now) }
    ensures states { IfOk result (λ same. AllByRecursion (IsState auto.now) same.items) }
{
    let groups = last_groups(alloc, auto, universal)?;
    let mut firsts = HashMap::new(alloc);
    let newest = auto.len().saturating_sub(1);
    if let Some(group) = groups.of.get(newest).copied() {
        firsts.insert(group, newest)?;
    }
    let mut same = Vec::new(alloc);
    for number in 0..auto.len() {
        let group = group_of(&groups.of, auto.state(number));
        let first = match firsts.get(&group).copied() {
            Some(first) => first,
            None => {
                firsts.insert(group, number)?;
                number
            }
        };
        same.push(known_state(auto, first, number))?;
    }
    Ok(same)
}

/// The state of the first number, if there is one.
fn known_state(auto: &Auto, first: usize, number: usize) -> State
    requires { number < length auto.now }
    ensures { IsState auto.now result }
{
    if first < auto.len() {
        auto.state(first)
    } else {
        auto.state(number)
    }
}

/// Whether two states have like moves, or are known to accept everything.
fn are_bisimilar(auto: &Auto, same: &[State], universal: &[bool], both: Compared) -> bool
    requires one { IsState auto.now both.one }
    requires other { IsState auto.now both.other }
    requires universal { MarkUniversal auto.now universal.now }
    ensures { result ≡ true → AreBisimilar auto.now same.now both }
{
    if is_marked(universal, both.one) && is_marked(universal, both.other) {
        return true;
    }
    are_like(auto, same, both)
}

/// Whether each state has moves like those of the state that is to stand in for it, or both are
/// known to accept everything.
fn are_all_bisimilar(auto: &Auto, same: &[State], universal: &[bool]) -> bool
    requires count { length same.now ≡ length auto.now }
    requires states { AllByRecursion (IsState auto.now) same.now }
    requires universal { MarkUniversal auto.now universal.now }
    ensures { result ≡ true → AreStandIns auto.now same.now }
{
    for number in 0..auto.len() {
        let one = auto.state(number);
        let other = stand_in(same, one);
        if !are_bisimilar(auto, same, universal, Compared { one, other }) {
            return false;
        }
    }
    true
}

/// For each state one that accepts the same.
///
/// At first all states are taken to be the same that agree on the empty document; groups are parted
/// by where moves lead until none is (E. F. Moore, Gedanken-experiments on sequential machines,
/// 1956). Moves are compared in their order. States that plainly accept everything are one. What
/// comes of it is tested at its end; where the test fails, `stand_ins` answers.
fn bisimilar_states(alloc: Global, auto: &Auto) -> Result<Vec<State>, NoMemory>
    ensures { IfOk result (λ same. AreStandIns auto.now same.items) }
{
    let universal = universal_states(alloc, auto)?;
    let same = guessed(alloc, auto, &universal)?;
    if are_all_bisimilar(auto, &same, &universal) {
        return Ok(same);
    }
    stand_ins(alloc, auto)
}

/// The same states, with their moves to one state where many accept the same, and the state that
/// stands in for a state.
fn merged_from(alloc: Global, auto: &Auto, state: State) -> Result<(Auto, State), NoMemory>
    requires { IsState auto.now state }
    ensures same { IfOk result (λ made. (d : Document) → accepts made.0 d made.1 ≡ accepts auto.now d state) }
    ensures belongs { IfOk result (λ made. IsState made.0 made.1) }
{
    let same = bisimilar_states(alloc, auto)?;
    let mut made = bare_states(alloc, auto, &same)?;
    for number in 0..auto.len() {
        redirect_state(&mut made, auto, &same, number)?;
    }
    Ok((made, stand_in(&same, state)))
}

/// A state that accepts the same, in an automaton in which moves lead to one state where many
/// accept the same.
///
/// States are found like each other also where they lead back to themselves, or to one another.
/// Those that plainly accept every document become one that leads to itself alone. `NoMemory` where
/// there is no room for the automaton.
pub fn merged_at(alloc: Global, auto: &Auto, state: State) -> Result<(Auto, State), NoMemory>
    requires { IsState auto.now state }
    ensures same { IfOk result (λ made. (d : Document) → accepts made.0 d made.1 ≡ accepts auto.now d state) }
    ensures belongs { IfOk result (λ made. IsState made.0 made.1) }
{
    let (part, start, _all) = with_universal(alloc, auto, state)?;
    merged_from(alloc, &part, start)
}

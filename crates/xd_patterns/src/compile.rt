//! Lists of pieces as states of an automaton.

ghost use Rattle.std.specs.Prelude.{◌≡◌, ◌+◌, ◌<◌, ◌≤◌, ◌⊎◌, [], false, true, length, IfOk, OnOk};
ghost use Rattle.xd_auto.specs.Automaton.{moves_at, no_moves, state_number};
ghost use Rattle.xd_auto.specs.declared.auto.State.{State};
ghost use Rattle.xd_meaning.specs.Heads.{all_texts};
ghost use Rattle.xd_patterns.specs.Sources.{IsDefined, names_in, tables};
ghost use Rattle.xd_patterns.specs.Tasks.{IsFound, choice_at};
ghost use Rattle.xd_patterns.specs.Compiling.{AddsElement, AddsMove, AddsText, FindsState, HaveStates, IsCompiling, IsTarget, Makes, Spares, rows_in};

use crate::chains::{Cells, Marks};
use crate::expand::{Found, expand, view};
use crate::pieces::View;
use crate::sources::Sources;
use indexmap::IndexSet;
use std::alloc::Global;
use xd_auto::{Auto, State};
use xd_doc::{Class, NoMemory, Words};

/// For each move of a state, the number of the list of the variables that its item belongs to.
#[derive(Drop)]
pub(crate) struct StateMarks {
    pub texts: Vec<usize>,
    pub labels: Vec<usize>,
}

/// Lists of pieces, and the numbers of those that have states, in the order of their states.
#[derive(Drop)]
pub(crate) struct Lists {
    pub alloc: Global,
    pub cells: Cells,
    pub states: IndexSet<usize>,
}

/// The state that moves are added to, and the number of the first state that is a list's.
#[derive(Clone, Copy)]
pub(crate) struct Target {
    pub from: State,
    pub base: usize,
}

/// The class of all texts.
fn every_text(alloc: Global) -> Result<Words, NoMemory>
    ensures { IfOk result (λ words. words ≡ all_texts) }
{
    let words = Words::new(alloc, Vec::new(alloc), true)?;
    Ok(words)
}

/// The state of the list with this number, which is made if there is none.
#[tactic(auto, using(crate::proofs::SparesLemmas::spares_none, crate::proofs::SparesLemmas::spares_grown))]
pub(crate) fn state_of(
    number: usize,
    base: usize,
    states: &mut IndexSet<usize>,
    auto: &mut Auto,
) -> Result<State, NoMemory>
    requires { length auto.old ≡ base + length states.old.keys }
    ensures spares { Spares base auto.old auto.new }
    ensures finds { IfOk result (FindsState number base states.old.keys states.new.keys auto.old auto.new) }
{
    let count = states.len();
    let (at, _) = states.insert_full(number)?;
    if states.len() == count {
        let _states = auto.len();
        return Ok(auto.state(base + at));
    }
    auto.add_state(false)?;
    let _states = auto.len();
    Ok(auto.state(base + at))
}

/// A move on a text that was found.
#[tactic(auto, using(crate::proofs::SparesLemmas::spares_none, crate::proofs::SparesLemmas::spares_then, crate::proofs::SparesLemmas::spares_changed))]
fn add_text(
    one: Found,
    words: Words,
    target: Target,
    states: &mut IndexSet<usize>,
    auto: &mut Auto,
    made: &mut StateMarks,
) -> Result<(), NoMemory>
    requires count { length auto.old ≡ target.base + length states.old.keys }
    requires target { IsTarget target auto.old }
    ensures spares { Spares target.base auto.old auto.new }
    ensures made { OnOk result (AddsText one.piece.marks one.rest words target.from target.base states.old.keys states.new.keys auto.old auto.new made.old.texts.items made.new.texts.items made.old.labels.items made.new.labels.items) }
{
    let rest = state_of(one.rest, target.base, states, auto)?;
    auto.add_text_move(target.from, words, rest)?;
    made.texts.push(one.piece.marks)?;
    Ok(())
}

/// A move on an element that was found, whose content begins with the list of this number.
#[tactic(auto, using(crate::proofs::SparesLemmas::spares_none, crate::proofs::SparesLemmas::spares_then, crate::proofs::SparesLemmas::spares_changed))]
fn add_element(
    one: Found,
    class: Class,
    inside: usize,
    target: Target,
    states: &mut IndexSet<usize>,
    auto: &mut Auto,
    made: &mut StateMarks,
) -> Result<(), NoMemory>
    requires count { length auto.old ≡ target.base + length states.old.keys }
    requires target { IsTarget target auto.old }
    ensures spares { Spares target.base auto.old auto.new }
    ensures made { OnOk result (AddsElement one.piece.marks one.rest class inside target.from target.base states.old.keys states.new.keys auto.old auto.new made.old.texts.items made.new.texts.items made.old.labels.items made.new.labels.items) }
{
    let content = state_of(inside, target.base, states, auto)?;
    let rest = state_of(one.rest, target.base, states, auto)?;
    auto.add_label_move(target.from, class, content, rest)?;
    made.labels.push(one.piece.marks)?;
    Ok(())
}

/// What was found is added to a state.
#[tactic(auto, using(crate::proofs::SparesLemmas::spares_none, crate::proofs::SparesLemmas::spares_then, crate::proofs::SparesLemmas::spares_changed))]
fn add_move(
    sources: &Sources<'_>,
    one: Found,
    target: Target,
    lists: &mut Lists,
    marks: &Marks,
    auto: &mut Auto,
    made: &mut StateMarks,
) -> Result<(), NoMemory>
    requires target { IsTarget target auto.old }
    requires lists { HaveStates (tables sources.now) marks.now lists.old target.base auto.old }
    requires found { (one.is_stop ≡ true) ⊎ IsFound (tables sources.now) marks.now lists.old.cells one }
    ensures spares { Spares target.base auto.old auto.new }
    ensures made { OnOk result (AddsMove (tables sources.now) marks.now lists.old.cells lists.new.cells target.base lists.old.states.keys lists.new.states.keys auto.old auto.new target.from
        made.old.texts.items made.new.texts.items made.old.labels.items made.new.labels.items (choice_at (tables sources.now) marks.now lists.old.cells one)) }
{
    let _count = lists.cells.len();
    let _lists = marks.len();
    if one.is_stop {
        auto.set_last(target.from, true);
        return Ok(());
    }
    match view(sources, one.piece) {
        View::Text => {
            let all = every_text(lists.alloc)?;
            add_text(one, all, target, &mut lists.states, auto, made)?;
        }
        View::Words(words) => {
            let copy = words.share()?;
            add_text(one, copy, target, &mut lists.states, auto, made)?;
        }
        View::Elem(class, part) => {
            let inside = lists.cells.put(part, 0)?;
            let copy = class.share()?;
            add_element(one, copy, inside, target, &mut lists.states, auto, made)?;
        }
        _ => {}
    }
    Ok(())
}

/// The moves of a list of pieces are added to a state without moves.
fn add_moves(
    sources: &Sources<'_>,
    number: usize,
    target: Target,
    lists: &mut Lists,
    marks: &mut Marks,
    auto: &mut Auto,
) -> Result<StateMarks, NoMemory>
    requires sound { IsDefined sources.now }
    requires target { IsTarget target auto.old }
    requires fresh { moves_at auto.old target.from ≡ no_moves false }
    requires lists { HaveStates (tables sources.now) marks.old lists.old target.base auto.old }
    requires number { number ≤ length lists.old.cells }
    ensures spares { Spares target.base auto.old auto.new }
    ensures made { IfOk result (λ made. Makes (names_in sources.now) (tables sources.now) marks.old marks.new lists.old.cells lists.new.cells target.base number lists.old.states.keys lists.new.states.keys auto.old auto.new target.from
        made.texts.items made.labels.items) }
{
    let alloc = lists.alloc;
    let found = expand(alloc, sources, &mut lists.cells, marks, number)?;
    let mut made = StateMarks {
        texts: Vec::new(alloc),
        labels: Vec::new(alloc),
    };
    for one in found.as_slice() {
        add_move(sources, *one, target, lists, marks, auto, &mut made)?;
    }
    Ok(made)
}

/// Adds the moves of all these states, and of those that are made on the way, and puts their marks
/// into a table, state by state.
///
/// In a sound program the lists that come are finitely many.
fn compile_into(
    sources: &Sources<'_>,
    base: usize,
    lists: &mut Lists,
    marks: &mut Marks,
    auto: &mut Auto,
    table: &mut Vec<StateMarks>,
) -> Result<(), NoMemory>
    requires sound { IsDefined sources.now }
    requires fresh { (s : State) → base ≤ state_number s → moves_at auto.old s ≡ no_moves false }
    requires lists { HaveStates (tables sources.now) marks.old lists.old base auto.old }
    requires none { table.old.items ≡ [] }
    ensures spares { Spares base auto.old auto.new }
    ensures made { OnOk result (IsCompiling (names_in sources.now) (tables sources.now) marks.old marks.new lists.old.cells lists.new.cells base lists.old.states.keys lists.new.states.keys auto.old auto.new
        (length lists.new.states.keys) (rows_in table.new.items)) }
{
    for done in 0..usize::MAX {
        let _states = auto.len();
        if done >= lists.states.len() {
            return Ok(());
        }
        let number = lists.states.as_slice()[done];
        let from = auto.state(base + done);
        let target = Target { from, base };
        let made = add_moves(sources, number, target, lists, marks, auto)?;
        table.push(made)?;
    }
    let _states = lists.states.len();
    Ok(())
}

/// The moves of all these states, and of those that are made on the way, state by state with their
/// marks.
pub(crate) fn compile(
    sources: &Sources<'_>,
    base: usize,
    lists: &mut Lists,
    marks: &mut Marks,
    auto: &mut Auto,
) -> Result<Vec<StateMarks>, NoMemory>
    requires sound { IsDefined sources.now }
    requires fresh { (s : State) → base ≤ state_number s → moves_at auto.old s ≡ no_moves false }
    requires lists { HaveStates (tables sources.now) marks.old lists.old base auto.old }
    ensures spares { Spares base auto.old auto.new }
    ensures made { IfOk result (λ table. IsCompiling (names_in sources.now) (tables sources.now) marks.old marks.new lists.old.cells lists.new.cells base lists.old.states.keys lists.new.states.keys auto.old auto.new
        (length lists.new.states.keys) (rows_in table.items)) }
{
    let mut table = Vec::new(lists.alloc);
    compile_into(sources, base, lists, marks, auto, &mut table)?;
    Ok(table)
}

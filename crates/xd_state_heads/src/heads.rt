//! Heads of states, as a case of a goal sees them.

ghost use Rattle.std.specs.Prelude.{◌≡◌, ◌+◌, ◌<◌, ◌≤◌, ◌^◌, ◌++◌, ◌∷◌, length, map, refl, slice_index_or, IfOk, OnOk, true};
ghost use Rattle.std.specs.List.{AllByRecursion, flat_map};
ghost use Rattle.std.specs.Option.{IfSome, unwrap_or};
ghost use Rattle.xd_auto.specs.Automaton.{IsNext, IsState, moves_at};
ghost use Rattle.xd_auto.specs.declared.auto.State.{State};
ghost use Rattle.xd_rules.specs.Listed.{AreNames};
ghost use Rattle.xd_rules.specs.Heads.{Head, atoms_of, matches};
ghost use Rattle.xd_state_heads.specs.Moves.{claim_with, heads_of, label_head, text_head};
ghost use Rattle.xd_state_heads.specs.Wants.{matching_sides, side_at, AreCases, HasHead, IsHeadNamed, names_in, want_at, wants_of};

use std::alloc::Global;
use xd_auto::{Auto, LabelMove, Move, State, TextMove};
use xd_doc::{Class, Label, NoMemory, Text, Words};
use xd_rules::{Atom, Names, label_atoms, share, text_atoms};

/// A right head that matches an atom: its number, from 1 on, and what it says of the content and of
/// the rest.
#[derive(Clone, Copy)]
pub struct Side {
    pub number: usize,
    pub content: State,
    pub rest: State,
}

/// A case of a goal: a left head, its number and an atom of it.
#[derive(Drop)]
pub struct Want {
    pub head: usize,
    pub atom: Atom,
    pub content: State,
    pub rest: State,
}

/// All labels, and all texts, but those that the heads of some states name.
#[derive(Drop)]
pub struct Unnamed {
    pub labels: Class,
    pub texts: Words,
}

/// A move as a head.
trait Headed<C: Names>: Move {
    /// Its head.
    ghost head: { Self → Head State };

    /// Its class.
    ghost class_of: { Self → C };

    fn class(&self) -> &C
        ensures { result.now ≡ class_of self.now };

    /// The number of the first of the state's moves, from this number on, that takes the name.
    fn next(auto: &Auto, state: State, name: &C::Name, from: usize) -> Option<usize>
        requires state { IsState auto.now state }
        requires from { from ≤ length (Self.moves_in (moves_at auto.now state)) }
        ensures next { IsNext (λ step. C.has_name (class_of step)) (Self.moves_in (moves_at auto.now state)) name.now from (unwrap_or result (length (Self.moves_in (moves_at auto.now state)))) }
        ensures some { IfSome result (λ number. number < length (Self.moves_in (moves_at auto.now state))) };

    /// Its head as a right one of this number.
    fn side(&self, number: usize) -> Side
        ensures { result ≡ side_at number (head self.now) };

    /// The atoms of its head.
    fn atoms(&self, alloc: Global, unnamed: &Unnamed) -> Result<Vec<Atom>, NoMemory>
        requires { IsHeadNamed (names_in unnamed.now.labels unnamed.now.texts) (head self.now) }
        ensures { IfOk result (λ atoms. atoms.items ≡ atoms_of (names_in unnamed.now.labels unnamed.now.texts) (head self.now).kind) };

    /// It takes a name where its head matches the atom.
    ghost matches_named: { (step : Self) (name : C.Name) → C.has_name (class_of step) name ≡ matches (head step).kind (C.named name) };

    /// It takes what nothing names where its head matches that atom.
    ghost matches_others: { (step : Self) → C.excepts (class_of step) ≡ matches (head step).kind C.others };
}

impl Headed<Class> for LabelMove {
    ghost head = { label_head };

    ghost class_of = { λ step. step.class };

    ghost matches_named = { λ step label. refl };

    ghost matches_others = { λ step. refl };

    fn class(&self) -> &Class {
        &self.class
    }

    fn next(auto: &Auto, state: State, label: &Label, from: usize) -> Option<usize> {
        auto.next_label_move(state, label, from)
    }

    fn side(&self, number: usize) -> Side {
        Side {
            number,
            content: self.content,
            rest: self.rest,
        }
    }

    fn atoms(&self, alloc: Global, unnamed: &Unnamed) -> Result<Vec<Atom>, NoMemory> {
        label_atoms(alloc, &self.class, &unnamed.labels)
    }
}

impl Headed<Words> for TextMove {
    ghost head = { text_head };

    ghost class_of = { λ step. step.words };

    ghost matches_named = { λ step text. refl };

    ghost matches_others = { λ step. refl };

    fn class(&self) -> &Words {
        &self.words
    }

    fn next(auto: &Auto, state: State, text: &Text, from: usize) -> Option<usize> {
        auto.next_text_move(state, text, from)
    }

    fn side(&self, number: usize) -> Side {
        Side {
            number,
            content: self.rest,
            rest: self.rest,
        }
    }

    fn atoms(&self, alloc: Global, unnamed: &Unnamed) -> Result<Vec<Atom>, NoMemory> {
        text_atoms(alloc, &self.words, &unnamed.texts)
    }
}

/// Puts the heads of a state that take a name after the others, where so many heads stand before
/// them.
fn add_with_name<C: Names, M: Headed<C>>(
    sides: &mut Vec<Side>,
    auto: &Auto,
    state: State,
    name: &C::Name,
    before: usize,
) -> Result<(), NoMemory>
    requires state { IsState auto.now state }
    requires room { before + length (M.moves_in (moves_at auto.now state)) < 2 ^ 64 }
    ensures { OnOk result (sides.new.items ≡ sides.old.items ++ matching_sides (C.named name.now) (before + 1) (map M.head (M.moves_in (moves_at auto.now state)))) }
{
    let moves = M::moves(auto, state);
    let mut from = 0;
    while let Some(number) = M::next(auto, state, name, from) {
        sides.push(moves[number].side(before + number + 1))?;
        from = number + 1;
    }
    Ok(())
}

/// The same for the heads that take what nothing names.
fn add_with_others<C: Names, M: Headed<C>>(
    sides: &mut Vec<Side>,
    auto: &Auto,
    state: State,
    before: usize,
) -> Result<(), NoMemory>
    requires state { IsState auto.now state }
    requires room { before + length (M.moves_in (moves_at auto.now state)) < 2 ^ 64 }
    ensures { OnOk result (sides.new.items ≡ sides.old.items ++ matching_sides C.others (before + 1) (map M.head (M.moves_in (moves_at auto.now state)))) }
{
    let moves = M::moves(auto, state);
    for number in 0..moves.len() {
        let step = &moves[number];
        if !step.class().takes_others() {
            continue;
        }
        sides.push(step.side(before + number + 1))?;
    }
    Ok(())
}

/// Puts the heads of a state that match an atom after the others, where so many heads stand before
/// them.
fn add_sides(
    sides: &mut Vec<Side>,
    auto: &Auto,
    state: State,
    atom: &Atom,
    before: usize,
) -> Result<(), NoMemory>
    requires state { IsState auto.now state }
    requires room { before + length (heads_of auto.now state) < 2 ^ 64 }
    ensures { OnOk result (sides.new.items ≡ sides.old.items ++ matching_sides atom.now (before + 1) (heads_of auto.now state)) }
{
    let labels = auto.label_moves(state);
    let _texts = auto.text_moves(state);
    let behind = before + labels.len();
    match atom {
        Atom::Label(label) => add_with_name::<Class, LabelMove>(sides, auto, state, label, before),
        Atom::OtherLabel => add_with_others::<Class, LabelMove>(sides, auto, state, before),
        Atom::Text(text) => add_with_name::<Words, TextMove>(sides, auto, state, text, behind),
        Atom::OtherText => add_with_others::<Words, TextMove>(sides, auto, state, behind),
    }
}

/// So many heads, and those of a state.
fn count_heads(auto: &Auto, state: State, before: usize) -> Result<usize, NoMemory>
    requires { IsState auto.now state }
    ensures { IfOk result (λ count. count ≡ before + length (heads_of auto.now state)) }
{
    let labels = auto.label_moves(state);
    let texts = auto.text_moves(state);
    let heads = labels.len() + texts.len();
    before.checked_add(heads).ok_or(NoMemory)
}

/// The state at this place.
fn state_at(states: &[State], place: usize) -> State
    requires { place < length states.now }
    ensures { result ≡ slice_index_or states.now place result }
{
    states[place]
}

/// The right heads that match an atom, in order. Their numbers count over the rights in order. A
/// number that fits no `usize` is answered as `NoMemory`.
pub fn sides_of(
    alloc: Global,
    auto: &Auto,
    rights: &[State],
    atom: &Atom,
) -> Result<Vec<Side>, NoMemory>
    requires { AllByRecursion (IsState auto.now) rights.now }
    ensures { IfOk result (λ sides. sides.items ≡ matching_sides atom.now 1 (flat_map (heads_of auto.now) rights.now)) }
{
    let mut sides = Vec::new(alloc);
    let mut before = 0;
    for place in 0..rights.len() {
        let state = state_at(rights, place);
        let count = count_heads(auto, state, before)?;
        add_sides(&mut sides, auto, state, atom, before)?;
        before = count;
    }
    Ok(sides)
}

/// Puts names after the others.
fn add_names<C: Names>(names: &mut Vec<C::Name>, more: &[C::Name]) -> Result<(), NoMemory>
    ensures { OnOk result (names.new.items ≡ names.old.items ++ more.now) }
{
    for name in more {
        names.push(C::share_name(name)?)?;
    }
    Ok(())
}

/// Puts the names of a state's moves after the others.
fn add_state_names<C: Names, M: Headed<C>>(
    names: &mut Vec<C::Name>,
    auto: &Auto,
    state: State,
) -> Result<(), NoMemory>
    requires { IsState auto.now state }
    ensures { OnOk result (names.new.items ≡ names.old.items ++ flat_map (λ step. C.names_of (M.class_of step)) (M.moves_in (moves_at auto.now state))) }
{
    let moves = M::moves(auto, state);
    for step in moves {
        add_names::<C>(names, step.class().names())?;
    }
    Ok(())
}

/// The names of the moves of these states.
fn names_of<C: Names, M: Headed<C>>(
    alloc: Global,
    auto: &Auto,
    left: State,
    rights: &[State],
) -> Result<Vec<C::Name>, NoMemory>
    requires left { IsState auto.now left }
    requires rights { AllByRecursion (IsState auto.now) rights.now }
    ensures { IfOk result (λ names. names.items ≡ flat_map (λ state. flat_map (λ step. C.names_of (M.class_of step)) (M.moves_in (moves_at auto.now state))) (left ∷ rights.now)) }
{
    let mut names = Vec::new(alloc);
    add_state_names::<C, M>(&mut names, auto, left)?;
    for state in rights {
        add_state_names::<C, M>(&mut names, auto, *state)?;
    }
    Ok(names)
}

/// All labels and all texts but those that the heads of these states name. Fails only where memory
/// is refused.
pub fn unnamed_of(
    alloc: Global,
    auto: &Auto,
    left: State,
    rights: &[State],
) -> Result<Unnamed, NoMemory>
    requires left { IsState auto.now left }
    requires rights { AllByRecursion (IsState auto.now) rights.now }
    ensures names { IfOk result (λ made. AreNames (heads_of auto.now left ++ flat_map (heads_of auto.now) rights.now) (names_in made.labels made.texts)) }
    ensures labels { IfOk result (λ made. made.labels.except ≡ true) }
    ensures texts { IfOk result (λ made. made.texts.except ≡ true) }
{
    let names = names_of::<Class, LabelMove>(alloc, auto, left, rights)?;
    let labels = Class::new(alloc, names, true)?;
    let names = names_of::<Words, TextMove>(alloc, auto, left, rights)?;
    let texts = Words::new(alloc, names, true)?;
    Ok(Unnamed { labels, texts })
}

/// Puts the cases of a head at these atoms after the others.
fn add_at_atoms(cases: &mut Vec<Want>, atoms: &[Atom], head: Side) -> Result<(), NoMemory>
    ensures { OnOk result (cases.new.items ≡ cases.old.items ++ map (want_at head.number head.content head.rest) atoms.now) }
{
    for atom in atoms {
        cases.push(Want {
            head: head.number,
            atom: share(atom)?,
            content: head.content,
            rest: head.rest,
        })?;
    }
    Ok(())
}

/// Puts the cases of a state's moves after the others, where so many heads stand before them.
fn add_cases<C: Names, M: Headed<C>>(
    alloc: Global,
    cases: &mut Vec<Want>,
    auto: &Auto,
    left: State,
    unnamed: &Unnamed,
    before: usize,
) -> Result<(), NoMemory>
    requires left { IsState auto.now left }
    requires named { AllByRecursion (IsHeadNamed (names_in unnamed.now.labels unnamed.now.texts)) (map M.head (M.moves_in (moves_at auto.now left))) }
    requires room { before + length (M.moves_in (moves_at auto.now left)) < 2 ^ 64 }
    ensures { OnOk result (cases.new.items ≡ cases.old.items ++ wants_of (names_in unnamed.now.labels unnamed.now.texts) (1 + before) (map M.head (M.moves_in (moves_at auto.now left)))) }
{
    let moves = M::moves(auto, left);
    for number in 0..moves.len() {
        let step = &moves[number];
        let atoms = step.atoms(alloc, unnamed)?;
        add_at_atoms(cases, &atoms, step.side(before + number + 1))?;
    }
    Ok(())
}

/// The cases of a state's heads at their atoms, by the names that are known.
fn cases_of(
    alloc: Global,
    auto: &Auto,
    left: State,
    unnamed: &Unnamed,
) -> Result<Vec<Want>, NoMemory>
    requires left { IsState auto.now left }
    requires named { AllByRecursion (IsHeadNamed (names_in unnamed.now.labels unnamed.now.texts)) (heads_of auto.now left) }
    ensures { IfOk result (λ cases. cases.items ≡ wants_of (names_in unnamed.now.labels unnamed.now.texts) 1 (heads_of auto.now left)) }
{
    let mut cases = Vec::new(alloc);
    let labels = auto.label_moves(left);
    let _texts = auto.text_moves(left);
    add_cases::<Class, LabelMove>(alloc, &mut cases, auto, left, unnamed, 0)?;
    add_cases::<Words, TextMove>(alloc, &mut cases, auto, left, unnamed, labels.len())?;
    Ok(cases)
}

/// The cases of a claim: each head of the left at each of its atoms. A number that fits no `usize`
/// is answered as `NoMemory`.
pub fn goal_cases(
    alloc: Global,
    auto: &Auto,
    left: State,
    rights: &[State],
) -> Result<Vec<Want>, NoMemory>
    requires left { IsState auto.now left }
    requires rights { AllByRecursion (IsState auto.now) rights.now }
    ensures { IfOk result (λ cases. AreCases auto.now (claim_with left rights.now) cases.items) }
{
    let unnamed = unnamed_of(alloc, auto, left, rights)?;
    cases_of(alloc, auto, left, &unnamed)
}

/// What the head of this number, from 1 on, says of the content and of the rest.
pub fn head_of(auto: &Auto, left: State, number: usize) -> (State, State)
    requires left { IsState auto.now left }
    requires positive { 0 < number }
    requires within { number ≤ length (heads_of auto.now left) }
    ensures { HasHead auto.now left number result.0 result.1 }
{
    let labels = auto.label_moves(left);
    let texts = auto.text_moves(left);
    if number <= labels.len() {
        let step = &labels[number - 1];
        (step.content, step.rest)
    } else {
        let step = &texts[number - 1 - labels.len()];
        (step.rest, step.rest)
    }
}

//! Types as states of an automaton.

ghost use Rattle.std.specs.Prelude.{◌≡◌, ◌<◌, ◌≤◌, ◌↔◌, ◌∷◌, [], true, length, map, IfOk, OnOk};
ghost use Rattle.std.specs.List.{AllByRecursion};
ghost use Rattle.xd_auto.specs.Automaton.{accepts, state_number};
ghost use Rattle.xd_doc.specs.Document.{Document};
ghost use Rattle.xd_syntax.specs.Fits.{Fits};
ghost use Rattle.xd_laws.specs.Guarded.{Guarded};
ghost use Rattle.xd_meaning.specs.CanBeEmpty.{can_be_empty};
ghost use Rattle.xd_rules.specs.Heads.{element_in, text_in};
ghost use Rattle.xd_meaning.specs.Heads.{pieces, all_texts};
ghost use Rattle.xd_syntax.specs.Tree.{seq_of};
ghost use Rattle.xd_syntax.specs.declared.types.TypeDef.{TypeDef};
ghost use Rattle.xd_heads.specs.Compiled.{AddsMoves, AreAllCompiled, AreCompiled, AreSorted, GetsState, Spares, SparesOthers, continuations_of, is_on_text, move_sorts};
ghost use Rattle.xd_heads.specs.Sorts.{rows_of};
ghost use Rattle.xd_continuations.specs.Bodies.{AreBodies};
ghost use Rattle.xd_continuations.specs.Continuation.{AreMerged, IsMerged, moves};
ghost use Rattle.xd_syntax.specs.Table.{tree_at};
ghost use Rattle.xd_sound.specs.TypeNames.{meanings};
ghost use Rattle.xd_moves.specs.Found.{AreBounded, AreDecidingMarks, AreOfTypes, IsFound, continuation, move_at};
ghost use Rattle.xd_heads.specs.States.{nodes_in};
ghost use Rattle.xd_continuations.specs.TailUses.{RecursOnlyInTail};

use crate::states::States;
use std::alloc::Global;
use xd_auto::{Auto, State};
use xd_doc::{Class, NoMemory, Words};
use xd_moves::{Continuations, FirstUses, Found, Sources, content, expand, is_empty};
use xd_syntax::{TypeForm, TypeId, Types};

/// Continuations, and those of them that have states.
#[derive(Drop)]
pub(crate) struct Made {
    pub cells: Continuations,
    pub uses: FirstUses,
    pub states: States,
}

/// Whether a continuation can be empty.
fn is_last(sources: &Sources<'_>, cells: &Continuations, number: usize) -> bool
    requires marks { AreDecidingMarks sources.now.types.now sources.now.defs.now sources.now.marks.now }
    requires nodes { AreOfTypes sources.now.types.now cells.now }
    requires number { number ≤ length cells.now }
    ensures { result ≡ can_be_empty (meanings sources.now.types.now sources.now.defs.now) (seq_of (continuation sources.now.types.now cells.now number)) }
{
    let mut at = number;
    while at > 0 {
        let cell = cells.link(at);
        if !is_empty(sources, cell.item) {
            return false;
        }
        at = cell.behind;
    }
    true
}

/// The state of a continuation, which is made if there is none.
fn state_of(
    sources: &Sources<'_>,
    cells: &Continuations,
    number: usize,
    states: &mut States,
    auto: &mut Auto,
) -> Result<State, NoMemory>
    requires marks { AreDecidingMarks sources.now.types.now sources.now.defs.now sources.now.marks.now }
    requires nodes { AreOfTypes sources.now.types.now cells.now }
    requires number { number ≤ length cells.now }
    requires aligned { length auto.old ≡ length states.old }
    ensures got { IfOk result (GetsState sources.now.types.now sources.now.defs.now cells.now states.old states.new auto.old auto.new number) }
    ensures aligned { OnOk result (length auto.new ≡ length states.new) }
    ensures within { IfOk result (λ state. state_number state < length states.new) }
    ensures spares { Spares (length auto.old) auto.old auto.new }
{
    if let Some(at) = states.find(number) {
        return Ok(auto.state(at));
    }
    let state = auto.add_state(is_last(sources, cells, number))?;
    states.add(number)?;
    Ok(state)
}

/// A move on an element: its class, its content, and the number of the continuation after it.
fn add_label(
    sources: &Sources<'_>,
    class: &Class,
    part: TypeId,
    rest: usize,
    from: State,
    made: &mut Made,
    auto: &mut Auto,
) -> Result<(), NoMemory>
    requires marks { AreDecidingMarks sources.now.types.now sources.now.defs.now sources.now.marks.now }
    requires nodes { AreOfTypes sources.now.types.now made.old.cells }
    requires part { part.at < length sources.now.types.now }
    requires rest { rest ≤ length made.old.cells }
    requires from { state_number from < length made.old.states }
    requires aligned { length auto.old ≡ length made.old.states }
    ensures moves { OnOk result (AddsMoves sources.now.types.now sources.now.defs.now made.old.cells made.new.cells made.old.states made.new.states auto.old auto.new from (record { kind = element_in class.now; content = pieces (tree_at sources.now.types.now part.at); rest = continuation sources.now.types.now made.old.cells rest } ∷ [])) }
    ensures spares { SparesOthers from auto.old auto.new }
{
    let inside = content(sources.types, part, &mut made.cells, &made.uses)?;
    let content = state_of(sources, &made.cells, inside, &mut made.states, auto)?;
    let after = state_of(sources, &made.cells, rest, &mut made.states, auto)?;
    let copy = class.share()?;
    auto.add_label_move(from, copy, content, after)?;
    Ok(())
}

/// The class of all texts.
pub(crate) fn every_text(alloc: Global) -> Result<Words, NoMemory>
    ensures { IfOk result (λ words. words ≡ all_texts) }
{
    let all = Words::new(alloc, Vec::new(alloc), true)?;
    Ok(all)
}

/// A move on a text: its class, and the number of the continuation after it.
fn add_text(
    sources: &Sources<'_>,
    words: Words,
    rest: usize,
    from: State,
    cells: &Continuations,
    states: &mut States,
    auto: &mut Auto,
) -> Result<(), NoMemory>
    requires marks { AreDecidingMarks sources.now.types.now sources.now.defs.now sources.now.marks.now }
    requires nodes { AreOfTypes sources.now.types.now cells.now }
    requires rest { rest ≤ length cells.now }
    requires from { state_number from < length states.old }
    requires aligned { length auto.old ≡ length states.old }
    ensures moves { OnOk result (AddsMoves sources.now.types.now sources.now.defs.now cells.now cells.now states.old states.new auto.old auto.new from (record { kind = text_in words; content = []; rest = continuation sources.now.types.now cells.now rest } ∷ [])) }
    ensures spares { SparesOthers from auto.old auto.new }
{
    let after = state_of(sources, cells, rest, states, auto)?;
    auto.add_text_move(from, words, after)?;
    Ok(())
}

/// A move that was found is added to a state.
fn add_move(
    alloc: Global,
    sources: &Sources<'_>,
    found: Found,
    from: State,
    made: &mut Made,
    auto: &mut Auto,
) -> Result<(), NoMemory>
    requires marks { AreDecidingMarks sources.now.types.now sources.now.defs.now sources.now.marks.now }
    requires nodes { AreOfTypes sources.now.types.now made.old.cells }
    requires found { IsFound sources.now.types.now made.old.cells found }
    requires from { state_number from < length made.old.states }
    requires aligned { length auto.old ≡ length made.old.states }
    ensures moves { OnOk result (AddsMoves sources.now.types.now sources.now.defs.now made.old.cells made.new.cells made.old.states made.new.states auto.old auto.new from (move_at sources.now.types.now made.old.cells found ∷ [])) }
    ensures spares { SparesOthers from auto.old auto.new }
{
    let node = sources.types.node(TypeId::of(found.node));
    let rest = found.rest;
    match node.form() {
        TypeForm::Elem(class, part) => add_label(sources, class, *part, rest, from, made, auto),
        TypeForm::Words(words) => {
            let copy = words.share()?;
            add_text(
                sources,
                copy,
                rest,
                from,
                &made.cells,
                &mut made.states,
                auto,
            )
        }
        _ => {
            let all = every_text(alloc)?;
            add_text(
                sources,
                all,
                rest,
                from,
                &made.cells,
                &mut made.states,
                auto,
            )
        }
    }
}

/// Whether a move that was found is on a text, and not on an element.
fn is_on_text(types: &Types, found: Found) -> bool
    requires { found.node < length types.now }
    ensures { result ≡ is_on_text types.now found }
{
    match types.node(TypeId::of(found.node)).form() {
        TypeForm::Elem(_, _) => false,
        _ => true,
    }
}

/// Which moves that were found are on texts.
fn sorts_of(alloc: Global, types: &Types, found: &[Found]) -> Result<Vec<bool>, NoMemory>
    requires { AllByRecursion (λ (f : Found). f.node < length types.now) found.now }
    ensures { IfOk result (λ sorts. sorts.items ≡ map (is_on_text types.now) found.now) }
{
    let mut sorts = Vec::new(alloc);
    for one in found {
        sorts.push(is_on_text(types, *one))?;
    }
    Ok(sorts)
}

/// All moves of a continuation are added to a state, in order. It answers which of them are on
/// texts.
fn add_moves(
    alloc: Global,
    sources: &Sources<'_>,
    number: usize,
    from: State,
    made: &mut Made,
    auto: &mut Auto,
) -> Result<Vec<bool>, NoMemory>
    requires guarded { Guarded (meanings sources.now.types.now sources.now.defs.now) }
    requires bodies { AreBodies sources.now.types.now sources.now.defs.now sources.now.bodies.now }
    requires marks { AreDecidingMarks sources.now.types.now sources.now.defs.now sources.now.marks.now }
    requires nodes { AreOfTypes sources.now.types.now made.old.cells }
    requires number { number ≤ length made.old.cells }
    requires from { state_number from < length made.old.states }
    requires aligned { length auto.old ≡ length made.old.states }
    ensures moves { OnOk result (AddsMoves sources.now.types.now sources.now.defs.now made.old.cells made.new.cells made.old.states made.new.states auto.old auto.new from (moves (meanings sources.now.types.now sources.now.defs.now) (continuation sources.now.types.now made.old.cells number))) }
    ensures sorts { IfOk result (λ sorts. sorts.items ≡ move_sorts sources.now.types.now sources.now.defs.now (continuation sources.now.types.now made.old.cells number)) }
    ensures spares { SparesOthers from auto.old auto.new }
{
    let found = expand(alloc, sources, &mut made.cells, &made.uses, number)?;
    let sorts = sorts_of(alloc, sources.types, &found)?;
    for one in &found {
        add_move(alloc, sources, *one, from, made, auto)?;
    }
    Ok(sorts)
}

/// Adds all moves of the states from this number on, and of those that are made on the way, and
/// for each of these states which of its moves are on texts.
///
/// In a sound program this ends, since the continuations are finitely many.
pub(crate) fn compile(
    alloc: Global,
    sources: &Sources<'_>,
    first: usize,
    made: &mut Made,
    rows: &mut Vec<Vec<bool>>,
    auto: &mut Auto,
) -> Result<(), NoMemory>
    requires guarded { Guarded (meanings sources.now.types.now sources.now.defs.now) }
    requires tail { RecursOnlyInTail (meanings sources.now.types.now sources.now.defs.now) }
    requires merged { AreMerged (meanings sources.now.types.now sources.now.defs.now) }
    requires stand { AllByRecursion (λ (d : TypeDef). d.body.at < length sources.now.types.now) sources.now.defs.now }
    requires bodies { AreBodies sources.now.types.now sources.now.defs.now sources.now.bodies.now }
    requires marks { AreDecidingMarks sources.now.types.now sources.now.defs.now sources.now.marks.now }
    requires nodes { AreOfTypes sources.now.types.now made.old.cells }
    requires first { first ≤ length made.old.states }
    requires compiled { AreCompiled sources.now.types.now sources.now.defs.now made.old.cells made.old.states auto.old first [] }
    requires sorted { AreSorted sources.now.types.now sources.now.defs.now made.old.cells made.old.states (rows_of rows.old.items) first }
    requires bounded { AreBounded (meanings sources.now.types.now sources.now.defs.now) (nodes_in sources.now.types.now) sources.now.types.now made.old.cells }
    ensures compiled { OnOk result (AreAllCompiled sources.now.types.now sources.now.defs.now made.old.cells made.new.cells made.old.states made.new.states auto.new) }
    ensures sorted { OnOk result (AreSorted sources.now.types.now sources.now.defs.now made.new.cells made.new.states (rows_of rows.new.items) (length made.new.states)) }
    ensures spares { Spares first auto.old auto.new }
{
    let mut done = first;
    while let Some(number) = made.states.continuation(done) {
        let _count = made.cells.len();
        let _states = made.states.len();
        let from = auto.state(done);
        let sorts = add_moves(alloc, sources, number, from, made, auto)?;
        rows.push(sorts)?;
        done += 1;
    }
    Ok(())
}

/// A state that accepts what fits a type, with all states that it leads to.
///
/// The automaton's states are those of continuations, and each has its moves and its row already.
pub(crate) fn compile_node(
    alloc: Global,
    sources: &Sources<'_>,
    part: TypeId,
    made: &mut Made,
    rows: &mut Vec<Vec<bool>>,
    auto: &mut Auto,
) -> Result<State, NoMemory>
    requires guarded { Guarded (meanings sources.now.types.now sources.now.defs.now) }
    requires tail { RecursOnlyInTail (meanings sources.now.types.now sources.now.defs.now) }
    requires merged { AreMerged (meanings sources.now.types.now sources.now.defs.now) }
    requires stand { AllByRecursion (λ (d : TypeDef). d.body.at < length sources.now.types.now) sources.now.defs.now }
    requires part { part.at < length sources.now.types.now }
    requires merged_part { IsMerged (tree_at sources.now.types.now part.at) }
    requires bodies { AreBodies sources.now.types.now sources.now.defs.now sources.now.bodies.now }
    requires marks { AreDecidingMarks sources.now.types.now sources.now.defs.now sources.now.marks.now }
    requires nodes { AreOfTypes sources.now.types.now made.old.cells }
    requires compiled { AreCompiled sources.now.types.now sources.now.defs.now made.old.cells made.old.states auto.old (length made.old.states) [] }
    requires sorted { AreSorted sources.now.types.now sources.now.defs.now made.old.cells made.old.states (rows_of rows.old.items) (length made.old.states) }
    requires bounded { AreBounded (meanings sources.now.types.now sources.now.defs.now) (nodes_in sources.now.types.now) sources.now.types.now made.old.cells }
    ensures accepts { IfOk result (λ state. (d : Document) → (accepts auto.new d state ≡ true) ↔ Fits (meanings sources.now.types.now sources.now.defs.now) (tree_at sources.now.types.now part.at) d) }
    ensures continuation { IfOk result (λ state. continuations_of sources.now.types.now made.new.cells made.new.states state ≡ Some (pieces (tree_at sources.now.types.now part.at))) }
    ensures compiled { OnOk result (AreAllCompiled sources.now.types.now sources.now.defs.now made.old.cells made.new.cells made.old.states made.new.states auto.new) }
    ensures sorted { OnOk result (AreSorted sources.now.types.now sources.now.defs.now made.new.cells made.new.states (rows_of rows.new.items) (length made.new.states)) }
    ensures spares { Spares (length auto.old) auto.old auto.new }
{
    let first = made.states.len();
    let inside = content(sources.types, part, &mut made.cells, &made.uses)?;
    let state = state_of(sources, &made.cells, inside, &mut made.states, auto)?;
    compile(alloc, sources, first, made, rows, auto)?;
    Ok(state)
}

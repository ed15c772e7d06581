//! The search for documents of states.

ghost use Rattle.std.specs.Prelude.{◌≡◌, ◌<◌, ◌≤◌, ◌+◌, ◌++◌, ◌∷◌, None, Some, Ok, List, IfOk, IfSome, OnOk, [], length, slice_set, take};
ghost use Rattle.xd_doc.specs.Document.{Document};
ghost use Rattle.xd_doc.specs.StoreNodes.{Keeps};
ghost use Rattle.xd_auto.specs.Automaton.{state_number};
ghost use Rattle.xd_empty.specs.Inhabited.{AreInhabitants, AreWitnesses, IsFound, IsWitness, LacksOne, Searching, Starts, steps_in};
ghost use Rattle.xd_empty.specs.Known.{Knows};
ghost use Rattle.xd_empty.specs.Uses.{IsUse, lists_by_state, parts_of, user, uses_at};

use crate::names::{some_label, some_text};
use crate::uses::{Use, Uses};
use std::alloc::Global;
use xd_auto::{Auto, LabelMove, State};
use xd_doc::{NoMemory, Seq, Store};

/// Finds documents for the states that are not in the list yet.
///
/// States are found by working forward from those that accept the empty document: each move waits
/// for the states that it leads to, and is looked at when one of them was found (the linear-time
/// algorithm of Dowling and Gallier, *Linear-time algorithms for testing the satisfiability of
/// propositional Horn formulae*, 1984, for rules with at most two premises). A move is looked at
/// twice at most, so the time is linear in the new states and their moves. Of older states it is
/// known whether they have a document, so a move that leads to such states alone is looked at once.
/// Moves wait in line, so documents stay shallow. A state's document is made once, from those of
/// other states, and shared: it is one node more, though as a tree the document may be exponential
/// in the number of states.
pub fn find_new(
    alloc: Global,
    auto: &Auto,
    found: &mut Vec<Option<Seq>>,
    store: &mut Store,
) -> Result<(), NoMemory>
    requires { Knows auto.now store.old found.old.items }
    ensures knows { OnOk result (Knows auto.now store.new found.new.items) }
    ensures all { OnOk result (length found.new.items ≡ length auto.now) }
    ensures older { take (length found.old.items) found.new.items ≡ found.old.items }
    ensures keeps { Keeps store.old store.new }
{
    let first = found.len();
    found.resize(auto.len(), None)?;
    search(alloc, auto, first, found, store)?;
    Ok(())
}

/// Finds the documents of the states from the number `first` on.
fn search(
    alloc: Global,
    auto: &Auto,
    first: usize,
    found: &mut [Option<Seq>],
    store: &mut Store,
) -> Result<(), NoMemory>
    requires { Starts auto.now store.old first found.old }
    ensures inhabitants { OnOk result (AreInhabitants auto.now store.new found.new) }
    ensures older { take first found.new ≡ take first found.old }
    ensures keeps { Keeps store.old store.new }
{
    let mut uses = Uses::new(alloc, auto, first)?;
    find_empty(auto, &mut uses, found)?;
    let mut done = 0;
    while done < uses.waiting.len() {
        look_at(alloc, auto, &mut uses, done, found, store)?;
        done += 1;
    }
    Ok(())
}

/// Finds the new states that accept the empty document.
fn find_empty(auto: &Auto, uses: &mut Uses, found: &mut [Option<Seq>]) -> Result<(), NoMemory>
    requires lists { uses.old.first + length uses.old.lists.items ≡ length auto.now }
    requires found { length found.old ≡ length auto.now }
    ensures first { uses.new.first ≡ uses.old.first }
    ensures searching { OnOk result ((documents : List Document) → Searching auto.now documents uses.old.first uses.old.first found.old (lists_by_state uses.old) uses.old.waiting.items 0 → Searching auto.now documents uses.old.first (length auto.now) found.new (lists_by_state uses.new) uses.new.waiting.items 0) }
    ensures older { take uses.old.first found.new ≡ take uses.old.first found.old }
{
    for number in uses.first..auto.len() {
        let state = auto.state(number);
        if auto.is_last(state) {
            find(uses, found, state, Seq::empty())?;
        }
    }
    Ok(())
}

/// Looks at the move that waits at this place: it may give its state a document.
fn look_at(
    alloc: Global,
    auto: &Auto,
    uses: &mut Uses,
    place: usize,
    found: &mut [Option<Seq>],
    store: &mut Store,
) -> Result<(), NoMemory>
    requires searching { Searching auto.now store.old uses.old.first (length auto.now) found.old (lists_by_state uses.old) uses.old.waiting.items place }
    requires place { place < length uses.old.waiting.items }
    ensures first { uses.new.first ≡ uses.old.first }
    ensures searching { OnOk result (Searching auto.now store.new uses.old.first (length auto.now) found.new (lists_by_state uses.new) uses.new.waiting.items (place + 1)) }
    ensures steps { OnOk result (steps_in (lists_by_state uses.new) uses.new.waiting.items ≡ steps_in (lists_by_state uses.old) uses.old.waiting.items) }
    ensures older { take uses.old.first found.new ≡ take uses.old.first found.old }
    ensures keeps { Keeps store.old store.new }
{
    let step = uses.waiting[place];
    let state = step.state();
    if found[state.number()].is_some() {
        return Ok(());
    }
    let Some(seq) = document_by(alloc, auto, step, found, store)? else {
        return Ok(());
    };
    find(uses, found, state, seq)?;
    Ok(())
}

/// Keeps the state's document; the moves that lead to the state wait from now on.
fn find(uses: &mut Uses, found: &mut [Option<Seq>], state: State, seq: Seq) -> Result<(), NoMemory>
    requires new { uses.old.first ≤ state_number state }
    requires below { state_number state < uses.old.first + length uses.old.lists.items }
    requires found { state_number state < length found.old }
    ensures first { uses.new.first ≡ uses.old.first }
    ensures uses { OnOk result (lists_by_state uses.new ≡ slice_set (lists_by_state uses.old) (state_number state) []) }
    ensures waiting { OnOk result (uses.new.waiting.items ≡ uses.old.waiting.items ++ uses_at (lists_by_state uses.old) state) }
    ensures found { OnOk result (found.new ≡ slice_set found.old (state_number state) (Some seq)) }
    ensures older { take uses.old.first found.new ≡ take uses.old.first found.old }
{
    uses.wake(state)?;
    found[state.number()] = Some(seq);
    Ok(())
}

/// A document of the move's state that begins with this move, where the states that it leads to
/// have documents.
fn document_by(
    alloc: Global,
    auto: &Auto,
    step: Use,
    found: &[Option<Seq>],
    store: &mut Store,
) -> Result<Option<Seq>, NoMemory>
    requires step { IsUse auto.now step }
    requires count { length found.now ≡ length auto.now }
    requires witnesses { AreWitnesses auto.now store.old found.now }
    ensures some { IfOk result (λ made. IfSome made (IsWitness auto.now store.new (user step))) }
    ensures none { result ≡ Ok None → LacksOne found.now (parts_of auto.now step) }
    ensures keeps { Keeps store.old store.new }
{
    match step {
        Use::Element(state, number) => {
            let moves = auto.label_moves(state);
            let taken = &moves[number];
            let Some((content, rest)) = parts(taken, found) else {
                return Ok(None);
            };
            let label = some_label(alloc, &taken.class)?;
            Ok(Some(store.elem_node(label, content, rest)?))
        }
        Use::Text(state, number) => {
            let moves = auto.text_moves(state);
            let taken = &moves[number];
            let Some(rest) = found[taken.rest.number()] else {
                return Ok(None);
            };
            let text = some_text(alloc, &taken.words)?;
            Ok(Some(store.text_node(text, rest)?))
        }
    }
}

/// The documents of the states that the move leads to.
fn parts(step: &LabelMove, found: &[Option<Seq>]) -> Option<(Seq, Seq)>
    requires content { state_number step.now.content < length found.now }
    requires rest { state_number step.now.rest < length found.now }
    ensures content { IfSome result (λ both. IsFound found.now step.now.content both.0) }
    ensures rest { IfSome result (λ both. IsFound found.now step.now.rest both.1) }
    ensures none { result ≡ None → LacksOne found.now (step.now.content ∷ step.now.rest ∷ []) }
{
    let content = found[step.content.number()]?;
    let rest = found[step.rest.number()]?;
    Some((content, rest))
}

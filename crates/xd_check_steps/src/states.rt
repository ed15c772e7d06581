//! States for what expressions may be.

ghost use Rattle.std.specs.Prelude.{◌≡◌, ◌↔◌, ◌^◌, ℕ, List, nat_eq, None, Ok, true, IfOk, OnOk};
ghost use Rattle.std.specs.Cmp.Lexicographic.{pointwise};
ghost use Rattle.std.specs.List.{AllByRecursion};
ghost use Rattle.std.specs.Option.{IfSome};
ghost use Rattle.xd_doc.specs.Classes.{class_has};
ghost use Rattle.xd_doc.specs.Document.{Document, empty, text};
ghost use Rattle.xd_doc.specs.LeastUpTo.{IsLeastUpTo};
ghost use Rattle.xd_doc.specs.Stored.{document_at};
ghost use Rattle.xd_doc.specs.StoredSeq.{BelongsTo};
ghost use Rattle.xd_doc.specs.StoreNodes.{Keeps};
ghost use Rattle.xd_auto.specs.Automaton.{IsState, accepts};
ghost use Rattle.xd_least.specs.Least.{size_limit};
ghost use Rattle.xd_check_steps.specs.States.{AcceptedBySome, AcceptedInTurn, Grows, IsMisfit};
ghost use Rattle.xd_check_steps.specs.InScope.{AcceptedBy, AreStates, state_of};
ghost use Rattle.xd_check_steps.specs.Known.{IsKnown};

use crate::known::Known;
use crate::variables::Variables;
use std::alloc::Global;
use xd_apart::least_apart;
use xd_auto::{Auto, State};
use xd_boole::is_universal;
use xd_doc::{Label, NoMemory, Seq, Store, Text, Words};
use xd_goals::{Verdict, decide};

/// The class of one text alone.
fn one_text(alloc: Global, characters: &Text) -> Result<Words, NoMemory>
    ensures { IfOk result (λ words. (t : List ℕ) → class_has words t ≡ pointwise nat_eq characters.now t) }
{
    let mut texts = Vec::new(alloc);
    texts.push(characters.share()?)?;
    let words = Words::new(alloc, texts, false)?;
    Ok(words)
}

/// A state that accepts one text alone.
///
/// After `NoMemory` nothing is said of the automaton.
pub fn text_state(alloc: Global, characters: &Text, auto: &mut Auto) -> Result<State, NoMemory>
    ensures belongs { IfOk result (IsState auto.new) }
    ensures accepts { IfOk result (λ state. (d : Document) → (accepts auto.new d state ≡ true) ↔ (d ≡ text characters.now empty)) }
    ensures grows { OnOk result (Grows auto.old auto.new) }
{
    let _states = auto.len();
    let end = auto.add_state(true)?;
    let start = auto.add_state(false)?;
    let words = one_text(alloc, characters)?;
    auto.add_text_move(start, words, end)?;
    Ok(start)
}

/// The state of a variable; where there is none of the name, one that accepts nothing.
///
/// After `NoMemory` nothing is said of the automaton.
pub fn variable_state(
    variables: &Variables,
    name: &Label,
    auto: &mut Auto,
) -> Result<State, NoMemory>
    requires { AreStates auto.old variables.now }
    ensures belongs { IfOk result (IsState auto.new) }
    ensures accepts { IfOk result (λ state. (d : Document) → (accepts auto.new d state ≡ true) ↔ AcceptedBy auto.old (state_of variables.now name.now) d) }
    ensures grows { OnOk result (Grows auto.old auto.new) }
{
    match variables.find(name) {
        Some(state) => {
            let _states = auto.len();
            Ok(state)
        }
        None => Ok(auto.add_state(false)?),
    }
}

/// A state that accepts a document of each of these states, one after the other.
///
/// After `NoMemory` nothing is said of the automaton.
pub fn join_states(states: Vec<State>, auto: &mut Auto) -> Result<State, NoMemory>
    requires { AllByRecursion (IsState auto.old) states.items }
    ensures belongs { IfOk result (IsState auto.new) }
    ensures accepts { IfOk result (λ made. (d : Document) → (accepts auto.new d made ≡ true) ↔ AcceptedInTurn auto.old states.items d) }
    ensures grows { OnOk result (Grows auto.old auto.new) }
{
    let mut states = states;
    let mut made = auto.add_state(true)?;
    while let Some(state) = states.pop() {
        made = auto.concat(state, made)?;
    }
    Ok(made)
}

/// A state that accepts what some of these states accept.
///
/// After `NoMemory` nothing is said of the automaton.
pub fn unite_states(states: Vec<State>, auto: &mut Auto) -> Result<State, NoMemory>
    requires { AllByRecursion (IsState auto.old) states.items }
    ensures belongs { IfOk result (IsState auto.new) }
    ensures accepts { IfOk result (λ made. (d : Document) → (accepts auto.new d made ≡ true) ↔ AcceptedBySome auto.old states.items d) }
    ensures grows { OnOk result (Grows auto.old auto.new) }
{
    Ok(auto.unite(&states)?)
}

/// Whether it is seen at once that the second state accepts what the first does: they are the same,
/// or the second accepts every document in a plain way.
fn is_plainly_within(auto: &Auto, state: State, wanted: State) -> bool
    requires { IsState auto.now wanted }
    ensures { result ≡ true → (d : Document) → accepts auto.now d state ≡ true → accepts auto.now d wanted ≡ true }
{
    if state.number() == wanted.number() {
        return true;
    }
    is_universal(auto, wanted)
}

/// A document that the first state accepts and the second doesn't, a least one, where there is one.
///
/// Where each such document has 2^63 items or more, it is one of these.
pub fn misfit(
    alloc: Global,
    auto: &Auto,
    known: &mut Known,
    state: State,
    wanted: State,
    store: &mut Store,
) -> Result<Option<Seq>, NoMemory>
    requires state { IsState auto.now state }
    requires wanted { IsState auto.now wanted }
    requires known { IsKnown auto.now store.old known.old }
    ensures least { IfOk result (λ found. IfSome found (λ seq. IsLeastUpTo size_limit (IsMisfit auto.now state wanted) (document_at store.new seq))) }
    ensures belongs { IfOk result (λ found. IfSome found (BelongsTo store.new)) }
    ensures none { result ≡ Ok None → (d : Document) → accepts auto.now d state ≡ true → accepts auto.now d wanted ≡ true }
    ensures known { IsKnown auto.now store.new known.new }
    ensures keeps { Keeps store.old store.new }
{
    if is_plainly_within(auto, state, wanted) {
        return Ok(None);
    }
    match decide(alloc, auto, &mut known.table, state, &[wanted], store)? {
        Verdict::Included(_) => Ok(None),
        Verdict::Separated(found) => {
            let document = least_apart(alloc, auto, state, wanted, found, store)?;
            Ok(Some(document))
        }
    }
}

//! Documents for the states of an automaton.

ghost use Rattle.std.specs.Prelude.{◌≡◌, true, false, None, Ok, IfOk, IfSome};
ghost use Rattle.xd_doc.specs.Document.{Document};
ghost use Rattle.xd_doc.specs.Stored.{document_at};
ghost use Rattle.xd_doc.specs.StoredSeq.{BelongsTo};
ghost use Rattle.xd_doc.specs.StoreNodes.{Keeps};
ghost use Rattle.xd_auto.specs.Automaton.{accepts, IsState};
ghost use Rattle.xd_empty.specs.Inhabited.{AreInhabitants};

use crate::known::Inhabitants;
use std::alloc::Global;
use xd_auto::{Auto, State, trim};
use xd_doc::{NoMemory, Seq, Store};

/// For each state, by its number, a document that it accepts, in this store; `None` exactly where
/// it accepts none.
///
/// It is what [`Inhabitants::learn`] learns from nothing. Documents are shallow and shared. After
/// `NoMemory` the store has more documents at most.
pub fn inhabitants(
    alloc: Global,
    auto: &Auto,
    store: &mut Store,
) -> Result<Vec<Option<Seq>>, NoMemory>
    ensures inhabitants { IfOk result (λ found. AreInhabitants auto.now store.new found.items) }
    ensures keeps { Keeps store.old store.new }
{
    let mut known = Inhabitants::new(alloc);
    known.learn(alloc, auto, store)?;
    Ok(known.into_documents())
}

/// A document that the state accepts, in this store; `None` exactly where it accepts none.
///
/// It asks [`inhabitants`] about the states that the state leads to, and no others. After
/// `NoMemory` the store has more documents at most.
pub fn inhabitant(
    alloc: Global,
    auto: &Auto,
    state: State,
    store: &mut Store,
) -> Result<Option<Seq>, NoMemory>
    requires { IsState auto.now state }
    ensures accepted { IfOk result (λ found. IfSome found (λ seq. accepts auto.now (document_at store.new seq) state ≡ true)) }
    ensures none { result ≡ Ok None → (d : Document) → accepts auto.now d state ≡ false }
    ensures belongs { IfOk result (λ found. IfSome found (BelongsTo store.new)) }
    ensures keeps { Keeps store.old store.new }
{
    let (part, start) = trim(alloc, auto, state)?;
    let found = inhabitants(alloc, &part, store)?;
    Ok(found[start.number()])
}

//! Least documents for the states of an automaton.

ghost use Rattle.std.specs.Prelude.{◌≡◌, ◌^◌, false, None, Ok, IfOk, IfSome};
ghost use Rattle.xd_doc.specs.Document.{Document};
ghost use Rattle.xd_doc.specs.LeastUpTo.{IsLeastUpTo};
ghost use Rattle.xd_doc.specs.Stored.{document_at};
ghost use Rattle.xd_doc.specs.StoredSeq.{BelongsTo};
ghost use Rattle.xd_doc.specs.StoreNodes.{Keeps};
ghost use Rattle.xd_auto.specs.Automaton.{accepts, IsState};
ghost use Rattle.xd_least.specs.Least.{Accepts, AreAllLeast, size_limit};

use crate::document::LeastDocument;
use crate::known::LeastInhabitants;
use std::alloc::Global;
use xd_auto::{Auto, State, trim};
use xd_doc::{NoMemory, Seq, Store};

/// For each state, by its number, a least document with its size, in this store; `None` exactly
/// where the state accepts none.
///
/// It is what [`LeastInhabitants::learn`] learns from nothing. Fails only where memory is refused;
/// the store may have more documents then, and keeps its old ones.
pub fn least_inhabitants(
    alloc: Global,
    auto: &Auto,
    store: &mut Store,
) -> Result<Vec<Option<LeastDocument>>, NoMemory>
    ensures least { IfOk result (λ found. AreAllLeast auto.now store.new found.items) }
    ensures keeps { Keeps store.old store.new }
{
    let mut known = LeastInhabitants::new(alloc);
    known.learn(alloc, auto, store)?;
    Ok(known.into_documents())
}

/// A document that the state accepts, in this store; `None` exactly where it accepts none.
///
/// It is a least one, if some document that the state accepts has a size below 2^63. If none has,
/// its own size is at least 2^63 too. [`least_inhabitants`] is asked about the states that the
/// state leads to, and no others. Fails only where memory is refused; the store may have more
/// documents then, and keeps its old ones.
pub fn least_inhabitant(
    alloc: Global,
    auto: &Auto,
    state: State,
    store: &mut Store,
) -> Result<Option<Seq>, NoMemory>
    requires { IsState auto.now state }
    ensures least { IfOk result (λ found. IfSome found (λ seq. IsLeastUpTo size_limit (Accepts auto.now state) (document_at store.new seq))) }
    ensures none { result ≡ Ok None → (d : Document) → accepts auto.now d state ≡ false }
    ensures belongs { IfOk result (λ found. IfSome found (BelongsTo store.new)) }
    ensures keeps { Keeps store.old store.new }
{
    let (part, start) = trim(alloc, auto, state)?;
    let found = least_inhabitants(alloc, &part, store)?;
    match found[start.number()] {
        Some(least) => Ok(Some(least.seq)),
        None => Ok(None),
    }
}

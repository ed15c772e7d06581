//! A least document that separates two states.

ghost use Rattle.std.specs.Prelude.{◌^◌, IfOk};
ghost use Rattle.xd_doc.specs.Document.{Document};
ghost use Rattle.xd_doc.specs.LeastUpTo.{IsLeastUpTo};
ghost use Rattle.xd_doc.specs.Stored.{document_at};
ghost use Rattle.xd_doc.specs.StoredSeq.{BelongsTo};
ghost use Rattle.xd_doc.specs.StoreNodes.{Keeps};
ghost use Rattle.xd_auto.specs.Automaton.{IsState};
ghost use Rattle.xd_least.specs.Least.{size_limit};
ghost use Rattle.xd_apart.specs.Apart.{IsApart};

use crate::search::{Found, search};
use std::alloc::Global;
use xd_auto::{Auto, State};
use xd_doc::{NoMemory, Seq, Store};
use xd_least::{document_size, least_inhabitant};
use xd_points::minus;

/// A least document of those that the left state accepts and the right one doesn't, in this store,
/// where one of these is known.
///
/// If some of these has a size below 2^63, it is a least one. If none has, its own size is at least
/// 2^63 too. The one that is known is handed back where none is smaller.
///
/// The difference is made lazily, along documents that were wrongly taken (`search.rt`). Where that
/// takes too many rounds, the whole difference is made, which may be exponentially large. Fails
/// only where memory is refused; the store may have more documents then, and keeps its old ones.
pub fn least_apart(
    alloc: Global,
    auto: &Auto,
    left: State,
    right: State,
    known: Seq,
    store: &mut Store,
) -> Result<Seq, NoMemory>
    requires left { IsState auto.now left }
    requires right { IsState auto.now right }
    requires belongs { BelongsTo store.old known }
    requires apart { IsApart auto.now left right (document_at store.old known) }
    ensures least { IfOk result (λ seq. IsLeastUpTo size_limit (IsApart auto.now left right) (document_at store.new seq)) }
    ensures belongs { IfOk result (BelongsTo store.new) }
    ensures keeps { Keeps store.old store.new }
{
    let bound = document_size(alloc, store, known)?;
    let mut made = Store::new(alloc);
    match search(alloc, auto, left, right, bound, &mut made)? {
        Found::NoneBelow => Ok(known),
        Found::Least(document) => {
            let least = made.copy_out(alloc, document, store)?;
            Ok(least)
        }
        Found::Nothing => least_of_difference(alloc, auto, left, right, store),
    }
}

/// A least document of the whole difference, of which there is some.
fn least_of_difference(
    alloc: Global,
    auto: &Auto,
    left: State,
    right: State,
    store: &mut Store,
) -> Result<Seq, NoMemory>
    requires left { IsState auto.now left }
    requires right { IsState auto.now right }
    requires some { (d : Document) × IsApart auto.now left right d }
    ensures least { IfOk result (λ seq. IsLeastUpTo size_limit (IsApart auto.now left right) (document_at store.new seq)) }
    ensures belongs { IfOk result (BelongsTo store.new) }
    ensures keeps { Keeps store.old store.new }
{
    let (difference, start) = minus(alloc, auto, left, auto, right)?;
    let mut made = Store::new(alloc);
    let Some(document) = least_inhabitant(alloc, &difference, start, &mut made)? else {
        unreachable!()
    };
    let least = made.copy_out(alloc, document, store)?;
    Ok(least)
}

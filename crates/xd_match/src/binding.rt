//! Documents of items that stand in a store.

ghost use Rattle.std.specs.Prelude.{◌≡◌, ℕ, ◌<◌, ◌∷◌, [], length, slice_index_or, IfOk, Vec};
ghost use Rattle.std.specs.List.{AllByRecursion};
ghost use Rattle.xd_doc.specs.Document.{empty};
ghost use Rattle.xd_doc.specs.Stored.{document_at};
ghost use Rattle.xd_doc.specs.StoredSeq.{BelongsTo};
ghost use Rattle.xd_doc.specs.StoreNodes.{Keeps};
ghost use Rattle.xd_doc.specs.declared.store.Seq.{Seq};
ghost use Rattle.xd_match.specs.Taking.{PieceBelongs, pieces_then};

use std::alloc::Global;
use xd_doc::{NoMemory, Seq, Store};

/// Items that stand in a store: the first of a document, or all of a document's own.
#[derive(Clone, Copy)]
pub(crate) enum Piece {
    First(Seq),
    Whole(Seq),
}

/// The items of the piece before a document. Where that is what follows them anyway, they are
/// shared.
fn put_before(store: &mut Store, piece: Piece, made: Seq) -> Result<Seq, NoMemory>
    requires piece { PieceBelongs store.old piece }
    requires made { BelongsTo store.old made }
    ensures ok { IfOk result (λ seq. document_at store.new seq ≡ pieces_then store.old (piece ∷ []) (document_at store.old made)) }
    ensures belongs { IfOk result (BelongsTo store.new) }
    ensures keeps { Keeps store.old store.new }
{
    match piece {
        Piece::First(seq) => store.first_before(seq, made),
        Piece::Whole(seq) => {
            if made.is_empty() {
                return Ok(seq);
            }
            store.append(seq, made)
        }
    }
}

/// The document of the items. Those at its end that stand so in the store already are shared.
fn bind(store: &mut Store, pieces: &[Piece]) -> Result<Seq, NoMemory>
    requires { AllByRecursion (PieceBelongs store.old) pieces.now }
    ensures ok { IfOk result (λ seq. document_at store.new seq ≡ pieces_then store.old pieces.now empty) }
    ensures belongs { IfOk result (BelongsTo store.new) }
    ensures keeps { Keeps store.old store.new }
{
    let mut made = Seq::empty();
    let mut left = pieces.len();
    while left > 0 {
        left -= 1;
        made = put_before(store, pieces[left], made)?;
    }
    Ok(made)
}

/// The documents of the items of each variable.
pub(crate) fn bind_each(
    alloc: Global,
    store: &mut Store,
    items: &Vec<Vec<Piece>>,
) -> Result<Vec<Seq>, NoMemory>
    requires { (x : ℕ) (e : Vec Piece Global) → x < length items.now.items → AllByRecursion (PieceBelongs store.old) (slice_index_or items.now.items x e).items }
    ensures count { IfOk result (λ bound. length bound.items ≡ length items.now.items) }
    ensures belong { IfOk result (λ bound. (x : ℕ) (e : Seq) → x < length items.now.items → BelongsTo store.new (slice_index_or bound.items x e)) }
    ensures bindings { IfOk result (λ bound. (x : ℕ) (e : Seq) (f : Vec Piece Global) → x < length items.now.items → document_at store.new (slice_index_or bound.items x e) ≡ pieces_then store.old (slice_index_or items.now.items x f).items empty) }
    ensures keeps { Keeps store.old store.new }
{
    let mut bound = Vec::new(alloc);
    for x in 0..items.len() {
        let made = bind(store, &items[x])?;
        bound.push(made)?;
    }
    Ok(bound)
}

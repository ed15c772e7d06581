//! Sizes of documents.

ghost use Rattle.std.specs.Prelude.{◌≡◌, ◌+◌, ◌<◌, IfOk, length, slice_index_or};
ghost use Rattle.xd_doc.specs.Document.{empty, size};
ghost use Rattle.xd_doc.specs.Stored.{document_at};
ghost use Rattle.xd_doc.specs.StoredSeq.{BelongsTo, IsBelow};
ghost use Rattle.xd_doc.specs.StoreNodes.{place_in_store};
ghost use Rattle.xd_least.specs.Least.{capped};
ghost use Rattle.xd_least.specs.Sizes.{AreSizes, known_size};

use std::alloc::Global;
use xd_doc::{NoMemory, Seq, Store};

/// Sizes are told apart below this number.
pub const SIZE_LIMIT: u64 = 1 << 63;

/// The size with one item more, as it is kept.
pub(crate) fn one_more(size: u64) -> u64
    ensures { result ≡ capped (size + 1) }
{
    size.saturating_add(1).min(SIZE_LIMIT)
}

/// The size of a document of the store, the number of its items at all depths, as it is kept: 2^63
/// where it is greater.
///
/// The time is linear in the nodes of the store, however many items the document has.
/// Fails only where memory is refused.
pub fn document_size(alloc: Global, store: &Store, seq: Seq) -> Result<u64, NoMemory>
    requires { BelongsTo store.now seq }
    ensures { IfOk result (λ number. number ≡ capped (size (document_at store.now seq))) }
{
    let mut sizes = Vec::new(alloc);
    for number in 0..store.len() {
        let next = size_at(store, number, &sizes);
        sizes.push(next)?;
    }
    Ok(size_of(seq, &sizes))
}

/// The size of the document at a node, where those at older nodes are known.
fn size_at(store: &Store, number: usize, sizes: &[u64]) -> u64
    requires number { number < length store.now }
    requires sizes { AreSizes store.now number sizes.now }
    ensures { result ≡ capped (size (slice_index_or store.now number empty)) }
{
    let seq = store.at(number);
    let content = size_of(store.content(seq), sizes);
    let rest = size_of(store.next(seq), sizes);
    one_more(content.saturating_add(rest))
}

/// The size that is known of a document.
fn size_of(seq: Seq, sizes: &[u64]) -> u64
    requires { IsBelow (length sizes.now) (place_in_store seq) }
    ensures { result ≡ known_size sizes.now (place_in_store seq) }
{
    match seq.place() {
        None => 0,
        Some(place) => sizes[place],
    }
}

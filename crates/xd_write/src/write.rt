//! Documents as text, with a stack of what stands after the contents that are open.

ghost use Rattle.std.specs.Prelude.{◌≡◌, ◌++◌, ◌∷◌, [], OnOk, OnErr};
ghost use Rattle.xd_doc.specs.Document.{canonical_text, items_text, comma_before};
ghost use Rattle.xd_doc.specs.Stored.{document_at};
ghost use Rattle.xd_doc.specs.StoredSeq.{BelongsTo};
ghost use Rattle.xd_write.specs.Written.{AppendsPrefix};

use crate::text::write_text;
use std::alloc::Global;
use xd_doc::{Item, NoMemory, Seq, Store};

/// Appends the canonical text of the document, without a line end.
///
/// Contents that are open stand on a stack of their own, so a document may nest to any depth. After
/// `NoMemory` `out` holds what it held and a front of the text.
pub fn write_document(
    alloc: Global,
    store: &Store,
    seq: Seq,
    out: &mut Vec<u8>,
) -> Result<(), NoMemory>
    requires { BelongsTo store.now seq }
    ensures ok { OnOk result (out.new.items ≡ out.old.items ++ canonical_text (document_at store.now seq)) }
    ensures err { OnErr result (AppendsPrefix (canonical_text (document_at store.now seq)) out.old.items out.new.items) }
{
    if seq.is_empty() {
        out.extend_from_slice(b"()")?;
        return Ok(());
    }
    write_items(alloc, store, seq, out)
}

fn write_items(alloc: Global, store: &Store, seq: Seq, out: &mut Vec<u8>) -> Result<(), NoMemory>
    requires { BelongsTo store.now seq }
    ensures ok { OnOk result (out.new.items ≡ out.old.items ++ items_text (document_at store.now seq)) }
    ensures err { OnErr result (AppendsPrefix (items_text (document_at store.now seq)) out.old.items out.new.items) }
{
    let mut outers = Vec::new(alloc);
    let mut rest = seq;
    loop {
        match store.first(rest) {
            None => match outers.pop() {
                None => return Ok(()),
                Some(outer) => {
                    out.push(b']')?;
                    rest = outer;
                    write_comma(store, rest, out)?;
                }
            },
            Some(Item::Text(text)) => {
                write_text(text.as_str(), out)?;
                rest = store.next(rest);
                write_comma(store, rest, out)?;
            }
            Some(Item::Elem(label)) => {
                write_label(label.as_str(), out)?;
                outers.push(store.next(rest))?;
                rest = store.content(rest);
            }
        }
    }
}

/// A comma, where an item follows.
fn write_comma(store: &Store, seq: Seq, out: &mut Vec<u8>) -> Result<(), NoMemory>
    requires { BelongsTo store.now seq }
    ensures ok { OnOk result (out.new.items ≡ out.old.items ++ comma_before (document_at store.now seq)) }
    ensures err { OnErr result (out.new.items ≡ out.old.items) }
{
    match store.first(seq) {
        None => Ok(()),
        Some(_) => Ok(out.push(b',')?),
    }
}

fn write_label(label: &str, out: &mut Vec<u8>) -> Result<(), NoMemory>
    ensures ok { OnOk result (out.new.items ≡ out.old.items ++ (label.now ++ 91 ∷ [])) }
    ensures err { OnErr result (AppendsPrefix (label.now ++ 91 ∷ []) out.old.items out.new.items) }
{
    out.extend_from_slice(label.as_bytes())?;
    out.push(b'[')?;
    Ok(())
}

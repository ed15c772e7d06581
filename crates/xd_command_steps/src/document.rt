//! Documents from their files.

ghost use Rattle.std.specs.Prelude.{◌≡◌, ◌≤◌, IfOk};
ghost use Rattle.xd_base.specs.Outside.{HasRisen};
ghost use Rattle.xd_doc.specs.Stored.{document_at};
ghost use Rattle.xd_doc.specs.StoredSeq.{BelongsTo};
ghost use Rattle.xd_doc.specs.StoreNodes.{Keeps};
ghost use Rattle.xd_command_steps.specs.Documents.{EndsAtDocument, EndsAtMalformed, IsDocument};
ghost use Rattle.xd_command_steps.specs.DoneSteps.{DoesStep};
ghost use Rattle.xd_command_steps.specs.Texts.{EndsAtText, IsText, document_limit};
ghost use Rattle.xd_read.specs.Reading.{BytesSpell};

use crate::output::{Output, Stop};
use crate::text::{DOCUMENT_LIMIT, fetch};
use std::alloc::Global;
use xd_base::Shelf;
use xd_doc::{Seq, Store};
use xd_read::{ReadError, read_document};

/// The document of a text, which is added to the store.
fn well_formed_document(alloc: Global, store: &mut Store, bytes: &[u8]) -> Result<Seq, Stop>
    ensures step { DoesStep result (EndsAtMalformed bytes.now) (λ seq. BytesSpell bytes.now (document_at store.new seq)) }
    ensures belongs { IfOk result (BelongsTo store.new) }
    ensures keeps { Keeps store.old store.new }
{
    match read_document(alloc, store, bytes) {
        Ok(seq) => Ok(seq),
        Err(ReadError::NoMemory) => Err(Stop::NoMemory),
        Err(ReadError::Malformed(place)) => {
            Err(Stop::Refused(Output::malformed_document(alloc, place)?))
        }
    }
}

/// The bytes of a document's file, whatever they spell. `Stop::Refused` has the output that ends
/// the command, `Stop::NoMemory` comes where memory is refused.
pub fn load_bytes<H: Shelf>(alloc: Global, file: &str, shelf: &mut H) -> Result<Vec<u8>, Stop>
    ensures step { DoesStep result (EndsAtText (H.holds shelf.old) (HasRisen (H.faults shelf.old) (H.faults shelf.new)) file.now document_limit) (λ text. IsText (H.holds shelf.old) file.now document_limit text.items) }
    ensures same { H.holds shelf.new ≡ H.holds shelf.old }
    ensures never_falls { H.faults shelf.old ≤ H.faults shelf.new }
{
    fetch(alloc, shelf, file, DOCUMENT_LIMIT)
}

/// The document of a file, which is added to the store. `Stop::Refused` has the output that ends
/// the command; after `Stop::NoMemory` the store has more documents at most.
pub fn load_document<H: Shelf>(
    alloc: Global,
    file: &str,
    shelf: &mut H,
    store: &mut Store,
) -> Result<Seq, Stop>
    ensures step { DoesStep result (EndsAtDocument (H.holds shelf.old) (HasRisen (H.faults shelf.old) (H.faults shelf.new)) file.now) (λ seq. IsDocument (H.holds shelf.old) file.now (document_at store.new seq)) }
    ensures belongs { IfOk result (BelongsTo store.new) }
    ensures keeps { Keeps store.old store.new }
    ensures same { H.holds shelf.new ≡ H.holds shelf.old }
    ensures never_falls { H.faults shelf.old ≤ H.faults shelf.new }
{
    let bytes = load_bytes(alloc, file, shelf)?;
    well_formed_document(alloc, store, &bytes)
}

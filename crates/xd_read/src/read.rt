//! Reading of documents.

ghost use Rattle.std.specs.Prelude.{◌≡◌, ◌≤◌, length, take, IfOk, IfErr};
ghost use Rattle.xd_doc.specs.Stored.{document_at};
ghost use Rattle.xd_doc.specs.StoredSeq.{BelongsTo};
ghost use Rattle.xd_doc.specs.StoreNodes.{Keeps};
ghost use Rattle.xd_lex.specs.Tokens.{past, start};
ghost use Rattle.xd_read.specs.Reading.{BytesSpell, SpellsNothing, IsMalformedAt};
ghost use Rattle.xd_read.specs.Malformed.{IfMalformed};

use crate::error::ReadError;
use crate::reader::{Reader, Stop};
use std::alloc::Global;
use xd_base::Place;
use xd_doc::{Seq, Store, Text};
use xd_lex::{cut_token, past, text_of};

/// Reads a document, which may nest to any depth, into the store.
///
/// ```text
/// document = "(" ")" End | items End
/// items    = item { "," item }
/// item     = Text | Label [ "(" ")" | items ] "]"
/// ```
///
/// `()` is read where a whole document or a whole content is expected, and nowhere else.
///
/// `ReadError::Malformed` comes exactly where the bytes spell no document. After a refusal the
/// store has more documents at most.
pub fn read_document(alloc: Global, store: &mut Store, bytes: &[u8]) -> Result<Seq, ReadError>
    ensures ok { IfOk result (λ seq. BytesSpell bytes.now (document_at store.new seq)) }
    ensures belongs { IfOk result (BelongsTo store.new) }

    // The place is that of the first bytes that aren't UTF-8, else of the first token that no
    // document continues.
    ensures malformed { IfErr result (λ e. IfMalformed e (λ place. IsMalformedAt bytes.now place)) }
    ensures nothing { IfErr result (λ e. IfMalformed e (λ place. SpellsNothing bytes.now)) }
    ensures keeps { Keeps store.old store.new }
{
    let text = match text_of(bytes) {
        Ok(text) => text,
        Err(e) => return Err(ReadError::Malformed(e.place)),
    };
    let source = Text::new(alloc, text)?;
    let mut reader = Reader::new(alloc);
    let mut rest = text;
    'tokens: loop {
        let token = cut_token(rest);
        let at = text.len() - token.rest.len() - token.text.len();
        match reader.read(alloc, store, &source, at, &token) {
            Ok(None) => rest = token.rest,
            Ok(Some(seq)) => return Ok(seq),
            Err(Stop::Refused) => return Err(ReadError::Malformed(place_at(bytes, at))),
            Err(Stop::NoMemory) => return Err(ReadError::NoMemory),
        }
    }
}

/// The place of a byte.
fn place_at(bytes: &[u8], at: usize) -> Place
    requires { at ≤ length bytes.now }
    ensures { result ≡ past start (take at bytes.now) }
{
    past(Place { line: 1, column: 1 }, &bytes[..at])
}

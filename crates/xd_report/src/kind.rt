//! What is wrong, in words.

ghost use Rattle.std.specs.Prelude.{◌≡◌, ◌++◌, OnOk, codes, decimal};
ghost use Rattle.xd_doc.specs.Document.{canonical_text};
ghost use Rattle.xd_doc.specs.Stored.{document_at};
ghost use Rattle.xd_doc.specs.StoredSeq.{BelongsTo};
ghost use Rattle.xd_report.specs.Report.{kind_text};
ghost use Rattle.xd_report.specs.Carries.{CarriesFrom};
ghost use Rattle.xd_report.specs.Kept.{IsKept};

use crate::texts::write_texts;
use itoa::Buffer;
use std::alloc::Global;
use xd_doc::{Label, NoMemory, Seq, Store};
use xd_syntax::FaultKind;
use xd_write::write_document;

/// Appends what is wrong.
pub fn write_kind(
    alloc: Global,
    store: &Store,
    kind: &FaultKind,
    out: &mut Vec<u8>,
) -> Result<(), NoMemory>
    requires { CarriesFrom store.now kind.now }
    ensures ok { OnOk result (out.new.items ≡ out.old.items ++ kind_text store.now kind.now) }
    ensures kept { IsKept out.old.items out.new.items }
{
    match kind {
        FaultKind::NotUtf8 => write_texts(&["text is not UTF-8"], out),
        FaultKind::Syntax => write_texts(&["syntax"], out),
        FaultKind::TooDeep => write_texts(&["nested too deep"], out),
        FaultKind::DuplicateName(word) => write_word("name ", word, " is defined twice", out),
        FaultKind::UnknownType(word) => write_word("type ", word, " is not defined", out),
        FaultKind::UnknownFunction(word) => write_word("function ", word, " is not defined", out),
        FaultKind::UnknownVariable(word) => write_word("variable ", word, " is not defined", out),
        FaultKind::Arity(word, given, wanted) => write_arity(word, *given, *wanted, out),
        FaultKind::NotLinear(word) => write_word("variable ", word, " is not linear", out),
        FaultKind::NotTail(word) => write_word("type ", word, " recurs outside tail position", out),
        FaultKind::Unguarded(word) => write_word("type ", word, " recurs unguarded", out),
        FaultKind::NotExhaustive(seq) => {
            write_carried(alloc, "match is not exhaustive: ", store, *seq, out)
        }
        FaultKind::Argument(seq) => {
            write_carried(alloc, "argument does not fit: ", store, *seq, out)
        }
        FaultKind::Result(seq) => write_carried(alloc, "result does not fit: ", store, *seq, out),
        FaultKind::NoSuchName(word) => {
            write_texts(&["type ", word.as_str(), " is not defined"], out)
        }
        FaultKind::NoMain => write_texts(&["no function main with one parameter"], out),
    }
}

/// Appends a word between two texts.
fn write_word(front: &str, word: &Label, behind: &str, out: &mut Vec<u8>) -> Result<(), NoMemory>
    ensures ok { OnOk result (out.new.items ≡ out.old.items ++ (front.now ++ word.now ++ behind.now)) }
    ensures kept { IsKept out.old.items out.new.items }
{
    write_texts(&[front, word.as_str(), behind], out)
}

fn write_arity(word: &Label, given: u64, wanted: u64, out: &mut Vec<u8>) -> Result<(), NoMemory>
    ensures ok { OnOk result (out.new.items ≡ out.old.items ++ (codes "function " ++ word.now ++ codes " has arguments " ++ decimal given ++ codes ", wants " ++ decimal wanted)) }
    ensures kept { IsKept out.old.items out.new.items }
{
    let mut given_digits = Buffer::new();
    let mut wanted_digits = Buffer::new();
    write_texts(
        &[
            "function ",
            word.as_str(),
            " has arguments ",
            given_digits.format(given),
            ", wants ",
            wanted_digits.format(wanted),
        ],
        out,
    )
}

/// Appends the text, and then the document that a fault carries.
fn write_carried(
    alloc: Global,
    text: &str,
    store: &Store,
    seq: Seq,
    out: &mut Vec<u8>,
) -> Result<(), NoMemory>
    requires { BelongsTo store.now seq }
    ensures ok { OnOk result (out.new.items ≡ out.old.items ++ (text.now ++ canonical_text (document_at store.now seq))) }
    ensures kept { IsKept out.old.items out.new.items }
{
    out.extend_from_slice(text.as_bytes())?;
    write_document(alloc, store, seq, out)
}

//! A text between quotes, with its escapes.

ghost use Rattle.std.specs.Prelude.{◌≡◌, ◌++◌, ◌∷◌, [], OnOk, OnErr, MatchOption, IfSome};
ghost use Rattle.xd_doc.specs.Document.{escaped, escaped_all};
ghost use Rattle.xd_write.specs.Written.{AppendsPrefix};

use xd_doc::NoMemory;

/// Appends the text between quotes. The bytes between two escapes are copied as one slice.
///
/// Fails only where memory is refused. Then `out` holds what it held, and a front of the text.
pub fn write_text(text: &str, out: &mut Vec<u8>) -> Result<(), NoMemory>
    ensures ok { OnOk result (out.new.items ≡ out.old.items ++ (34 ∷ escaped_all text.now ++ 34 ∷ [])) }
    ensures err { OnErr result (AppendsPrefix (34 ∷ escaped_all text.now ++ 34 ∷ []) out.old.items out.new.items) }
{
    out.push(b'"')?;
    write_escaped(text.as_bytes(), out)?;
    out.push(b'"')?;
    Ok(())
}

fn write_escaped(bytes: &[u8], out: &mut Vec<u8>) -> Result<(), NoMemory>
    ensures ok { OnOk result (out.new.items ≡ out.old.items ++ escaped_all bytes.now) }
    ensures err { OnErr result (AppendsPrefix (escaped_all bytes.now) out.old.items out.new.items) }
{
    let mut start = 0;
    for (i, byte) in bytes.iter().enumerate() {
        if let Some(escape) = escape_of(*byte) {
            out.extend_from_slice(&bytes[start..i])?;
            out.extend_from_slice(escape)?;
            start = i + 1;
        }
    }
    out.extend_from_slice(&bytes[start..])?;
    Ok(())
}

/// How a byte is escaped, if it is.
fn escape_of(byte: u8) -> Option<&'static [u8]>
    ensures { MatchOption result (escaped byte ≡ byte ∷ []) (λ escape. escape.now ≡ escaped byte) }
{
    match byte {
        b'"' => Some(b"\\\""),
        b'\\' => Some(b"\\\\"),
        b'\n' => Some(b"\\n"),
        b'\t' => Some(b"\\t"),
        _ => None,
    }
}

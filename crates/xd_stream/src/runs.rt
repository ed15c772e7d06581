//! Bytes in a row that go on with a word or a quoted text.

ghost use Rattle.std.specs.Prelude.{◌≡◌, ◌≤◌, ◌<◌, true, false, length, take, slice_index};
ghost use Rattle.xd_doc.specs.Word.{are_word_parts, is_word_part, is_word_start};
ghost use Rattle.xd_stream.specs.Runs.{are_plain, is_plain};

/// Whether a word may begin with the byte.
pub fn is_word_start(b: u8) -> bool
    ensures { result ≡ is_word_start b }
{
    b.is_ascii_lowercase() || b.is_ascii_uppercase() || b == b'_'
}

/// Whether a word may go on with the byte.
pub fn is_word_part(b: u8) -> bool
    ensures { result ≡ is_word_part b }
{
    is_word_start(b) || b.is_ascii_digit()
}

/// Whether a byte of a quoted text is a character that stands for itself and ends no line.
fn is_plain(b: u8) -> bool
    ensures { result ≡ is_plain b }
{
    b < 0x80 && b != b'"' && b != b'\\' && b != b'\n'
}

/// How many bytes at the front are letters, digits and `_`.
pub fn word_run(bytes: &[u8]) -> usize
    ensures within { result ≤ length bytes.now }
    ensures parts { are_word_parts (take result bytes.now) ≡ true }
    ensures end { result < length bytes.now → is_word_part (slice_index bytes.now result) ≡ false }
{
    for (i, b) in bytes.iter().enumerate() {
        if !is_word_part(*b) {
            return i;
        }
    }
    bytes.len()
}

/// How many bytes at the front are such characters of a quoted text.
pub fn text_run(bytes: &[u8]) -> usize
    ensures within { result ≤ length bytes.now }
    ensures plain { are_plain (take result bytes.now) ≡ true }
    ensures end { result < length bytes.now → is_plain (slice_index bytes.now result) ≡ false }
{
    for (i, b) in bytes.iter().enumerate() {
        if !is_plain(*b) {
            return i;
        }
    }
    bytes.len()
}

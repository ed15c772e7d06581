//! What a quoted text stands for.

ghost use Rattle.std.specs.Prelude.{◌≡◌, ◌≢◌, ◌-◌, ◌<◌, ◌≤◌, ◌++◌, ◌∷◌, ℕ, [], length, slice_index, slice_range, true, false, IfOk, IsUtf8};
ghost use Rattle.std.specs.String.{string_bytes};
ghost use Rattle.xd_lex.specs.declared.Kind.TheVariants as kinds;
ghost use Rattle.xd_lex.specs.Scan.{is_escape};
ghost use Rattle.xd_lex.specs.Spellings.{IsSpelling, are_pieces};
ghost use Rattle.xd_lex.specs.Spelled.{characters, escape_meaning, unescaped};

use std::alloc::Global;
use xd_doc::{NoMemory, Text};

/// The character that stands after a `\` for another.
fn escape_meaning(b: u8) -> &'static str
    requires { is_escape b ≡ true }
    ensures { result.now ≡ escape_meaning b ∷ [] }
{
    match b {
        b'n' => "\n",
        b't' => "\t",
        b'"' => "\"",
        _ => "\\",
    }
}

/// The character that an escape at the front stands for, and the pieces after it.
fn first_escape<'a>(pieces: &'a str) -> (&'static str, &'a str)
    requires pieces { are_pieces false pieces.now ≡ true }
    requires some { 0 < length pieces.now }
    requires escape { slice_index pieces.now 0 ≡ 92 }
    ensures same { characters false (pieces.now ++ 34 ∷ []) ≡ result.0.now ++ characters false (result.1.now ++ 34 ∷ []) }
    ensures behind { are_pieces false result.1.now ≡ true }
    ensures utf8 { IsUtf8 result.1.now }
    ensures shorter { length result.1.now < length pieces.now }
{
    let bytes = pieces.as_bytes();
    let meaning = escape_meaning(bytes[1]);
    let behind = &pieces[2..];
    (meaning, behind)
}

/// How many bytes stand before the first `\\`, or in all where there is none.
fn plain_len(bytes: &[u8]) -> usize
    ensures within { result ≤ length bytes.now }
    ensures before { (k : ℕ) → k < result → slice_index bytes.now k ≢ 92 }
    ensures found { result < length bytes.now → slice_index bytes.now result ≡ 92 }
{
    for (i, b) in bytes.iter().enumerate() {
        if *b == b'\\' {
            return i;
        }
    }
    bytes.len()
}

/// The characters that pieces stand for.
fn characters(alloc: Global, pieces: &str) -> Result<String, NoMemory>
    requires { are_pieces false pieces.now ≡ true }
    ensures { IfOk result (λ made. string_bytes made ≡ characters false (pieces.now ++ 34 ∷ [])) }
{
    let mut made = String::with_capacity(alloc, pieces.len())?;
    let mut rest = pieces;
    'escapes: loop {
        let at = plain_len(rest.as_bytes());
        if at == rest.len() {
            made.push_str(rest)?;
            return Ok(made);
        }
        let (plain, escape) = rest.split_at(at);
        made.push_str(plain)?;
        let (character, behind) = first_escape(escape);
        made.push_str(character)?;
        rest = behind;
    }
}

/// Whether a token of the kind `Text` stands for what is between its quotes, since nothing there is
/// escaped.
pub fn is_plain(text: &str) -> bool
    requires { IsSpelling kinds.Text text.now }
    ensures same { result ≡ true → unescaped text.now ≡ slice_range text.now 1 (length text.now - 1) }
    ensures escape { result ≡ false → (k : ℕ) × (slice_index text.now k ≡ 92) }
{
    let pieces = &text.as_bytes()[1..text.len() - 1];
    plain_len(pieces) == pieces.len()
}

/// The text that a token of the kind `Text` stands for: without its quotes, and with each escape
/// replaced by its character. `NoMemory` where there is no room for it.
pub fn unescape(alloc: Global, text: &str) -> Result<Text, NoMemory>
    requires { IsSpelling kinds.Text text.now }
    ensures { IfOk result (λ made. made ≡ unescaped text.now) }
{
    let pieces = &text[1..text.len() - 1];
    if plain_len(pieces.as_bytes()) == pieces.len() {
        return Text::new(alloc, pieces);
    }
    let made = characters(alloc, pieces)?;
    Text::new(alloc, made.as_str())
}

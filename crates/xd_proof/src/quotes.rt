//! Texts in quotes, in their canonical spelling.

ghost use Rattle.std.specs.Prelude.{◌≡◌, ◌++◌, ◌∷◌, ℕ, List, true, IfOk, MatchOption};
ghost use Rattle.std.specs.Str.{is_utf8};
ghost use Rattle.xd_doc.specs.Document.{escaped, escaped_all};

use std::alloc::Global;
use xd_doc::{NoMemory, Text};

/// The character that stands at the front as the canonical text has it, and what stands after it.
fn first_character(bytes: &[u8]) -> Option<(u8, &[u8])>
    ensures { MatchOption result ((c : ℕ) (rest : List ℕ) → bytes.now ≡ escaped c ++ rest → ⊥) (λ r. bytes.now ≡ escaped r.0 ++ r.1.now) }
{
    let Some((first, rest)) = bytes.split_first() else {
        return None;
    };
    match *first {
        b'"' => None,
        b'\n' => None,
        b'\t' => None,
        b'\\' => escape(bytes, rest),
        character => Some((character, rest)),
    }
}

/// The character that an escape at the front stands for: these bytes stand after its `\`.
fn escape<'a>(bytes: &'a [u8], behind: &'a [u8]) -> Option<(u8, &'a [u8])>
    requires { bytes.now ≡ 92 ∷ behind.now }
    ensures { MatchOption result ((c : ℕ) (rest : List ℕ) → bytes.now ≡ escaped c ++ rest → ⊥) (λ r. bytes.now ≡ escaped r.0 ++ r.1.now) }
{
    let Some((second, rest)) = behind.split_first() else {
        return None;
    };
    match *second {
        b'"' => Some((b'"', rest)),
        b'\\' => Some((b'\\', rest)),
        b'n' => Some((b'\n', rest)),
        b't' => Some((b'\t', rest)),
        _ => None,
    }
}

/// What stands after a quote at the front.
pub fn behind_quote(bytes: &[u8]) -> Option<&[u8]>
    ensures { MatchOption result ((rest : List ℕ) → bytes.now ≡ 34 ∷ rest → ⊥) (λ r. bytes.now ≡ 34 ∷ r.now) }
{
    let Some((first, rest)) = bytes.split_first() else {
        return None;
    };
    if *first == b'"' { Some(rest) } else { None }
}

/// The text whose inside and closing quote stand at the front, and what stands after it. Each
/// character stands as the canonical text has it. Takes time linear in the text.
pub fn read_quoted<'a>(alloc: Global, bytes: &'a [u8]) -> Result<Option<(Text, &'a [u8])>, NoMemory>
    ensures { IfOk result (λ made. MatchOption made ((s r : List ℕ) → is_utf8 s ≡ true → bytes.now ≡ escaped_all s ++ 34 ∷ r → ⊥) (λ m. (is_utf8 m.0 ≡ true) × (bytes.now ≡ escaped_all m.0 ++ 34 ∷ m.1.now))) }
{
    let mut made = Vec::new(alloc);
    let mut left = bytes;
    while let Some((character, rest)) = first_character(left) {
        made.push(character)?;
        left = rest;
    }
    let Some(rest) = behind_quote(left) else {
        return Ok(None);
    };
    let Ok(text) = str::from_utf8(&made) else {
        return Ok(None);
    };
    let text = Text::new(alloc, text)?;
    let _spelled = text.as_str();
    Ok(Some((text, rest)))
}

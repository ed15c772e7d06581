//! What stands at the front of a text.

ghost use Rattle.std.specs.Prelude.{◌≡◌, ℕ, ◌<◌, ◌≤◌, ◌+◌, ◌∷◌, List, length, slice_index, false, drop, IfOk, IfSome};
ghost use Rattle.std.specs.List.{take_while};
ghost use Rattle.xd_doc.specs.Word.{is_word_start, is_word_part};
ghost use Rattle.xd_lex.specs.Scan.{of_text, of_comment, of_word, of_symbol, is_blank, is_escape, quoted_length, commented, symbol, front_of};

use crate::{Front, Kind, LexFault};

fn is_blank(b: u8) -> bool
    ensures { result ≡ is_blank b }
{
    b == b' ' || b == b'\t' || b == b'\n' || b == b'\r'
}

fn is_word_start(b: u8) -> bool
    ensures { result ≡ is_word_start b }
{
    b.is_ascii_lowercase() || b.is_ascii_uppercase() || b == b'_'
}

fn is_word_part(b: u8) -> bool
    ensures { result ≡ is_word_part b }
{
    is_word_start(b) || b.is_ascii_digit()
}

fn is_escape(b: u8) -> bool
    ensures { result ≡ is_escape b }
{
    b == b'"' || b == b'\\' || b == b'n' || b == b't'
}

/// How many bytes of a word stand at the front.
fn word_len(bytes: &[u8]) -> usize
    ensures { result ≡ length (take_while is_word_part bytes.now) }
{
    bytes.iter().take_while(|b| is_word_part(**b)).count()
}

/// After the opening quote: the bytes of the pieces and of the closing quote.
fn text_len(bytes: &[u8]) -> Result<usize, LexFault>
    ensures is { result ≡ quoted_length false bytes.now }
    ensures within { IfOk result (λ n. n ≤ length bytes.now) }
{
    let mut at = 0;
    'pieces: while at < bytes.len() {
        let b = bytes[at];
        if b == b'"' {
            return Ok(at + 1);
        }
        at += 1;
        if b == b'\\' {
            if at == bytes.len() {
                return Err(LexFault::OpenText);
            }
            if !is_escape(bytes[at]) {
                return Err(LexFault::BadCharacter);
            }
            at += 1;
        }
    }
    Err(LexFault::OpenText)
}

/// After the `(*`: the bytes up to the end of the first `*)`.
fn comment_len(bytes: &[u8]) -> Option<usize>
    ensures is { result ≡ commented false bytes.now }
    ensures within { IfSome result (λ n. n ≤ length bytes.now) }
{
    let mut starred = false;
    for (i, b) in bytes.iter().enumerate() {
        let b = *b;
        if starred && b == b')' {
            return Some(i + 1);
        }
        starred = b == b'*';
    }
    None
}

#[tactic(auto, unfolding(crate::specs::Scan::symbol))]
fn symbol(b: u8) -> Option<Kind>
    ensures { result ≡ symbol b }
{
    match b {
        b'(' => Some(Kind::ParenL),
        b')' => Some(Kind::ParenR),
        b'[' => Some(Kind::BracketL),
        b']' => Some(Kind::BracketR),
        b',' => Some(Kind::Comma),
        b'|' => Some(Kind::Bar),
        b'*' => Some(Kind::Star),
        b'+' => Some(Kind::Plus),
        b'?' => Some(Kind::Query),
        b'=' => Some(Kind::Equals),
        b':' => Some(Kind::Colon),
        b'~' => Some(Kind::Tilde),
        b'^' => Some(Kind::Caret),
        _ => None,
    }
}

fn front_of_text(bytes: &[u8]) -> Front
    ensures { result ≡ of_text (quoted_length false bytes.now) }
{
    match text_len(bytes) {
        Ok(n) => Front::Token(Kind::Text, n + 1),
        Err(fault) => Front::Fault(fault),
    }
}

fn front_of_comment(bytes: &[u8]) -> Front
    ensures { result ≡ of_comment (commented false bytes.now) }
{
    match comment_len(bytes) {
        Some(n) => Front::Gap(n + 2),
        None => Front::Fault(LexFault::OpenComment),
    }
}

fn front_of_word(bytes: &[u8]) -> Front
    requires { 0 < length bytes.now }
    ensures { result ≡ of_word bytes.now (length (take_while is_word_part (drop 1 bytes.now)) + 1) }
{
    let n = word_len(&bytes[1..]) + 1;
    if n < bytes.len() && bytes[n] == b'[' {
        Front::Token(Kind::Label, n + 1)
    } else {
        Front::Token(Kind::Word, n)
    }
}

fn front_of_symbol(b: u8) -> Front
    ensures { result ≡ of_symbol (symbol b) }
{
    match symbol(b) {
        Some(kind) => Front::Token(kind, 1),
        None => Front::Fault(LexFault::BadCharacter),
    }
}

/// What stands at the front of a text that isn't empty.
#[tactic(auto, unfolding(crate::specs::Scan::front_of))]
pub fn front(bytes: &[u8]) -> Front
    requires { 0 < length bytes.now }
    ensures { result ≡ front_of (slice_index bytes.now 0) (drop 1 bytes.now) }
{
    let b = bytes[0];
    let rest = &bytes[1..];
    if is_blank(b) {
        Front::Gap(1)
    } else if b == b'(' && !rest.is_empty() && rest[0] == b'*' {
        front_of_comment(&rest[1..])
    } else if is_word_start(b) {
        front_of_word(bytes)
    } else if b == b'"' {
        front_of_text(rest)
    } else if b == b'-' && !rest.is_empty() && rest[0] == b'>' {
        Front::Token(Kind::Arrow, 2)
    } else {
        front_of_symbol(b)
    }
}

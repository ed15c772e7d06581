//! Lines of a text.

ghost use Rattle.std.specs.Prelude.{◌≡◌, ◌∷◌, ◌++◌, map, IfOk, MatchOption};
ghost use Rattle.xd_proof.specs.Lines.{IsFreeOf, IsCut};
ghost use Rattle.xd_proof.specs.LineWords.{AreWords};

use std::alloc::Global;
use xd_doc::NoMemory;

/// The lines that a line feed ends, without it, and what stands after the last line feed.
#[derive(Drop)]
pub struct Lines<'a> {
    pub lines: Vec<&'a [u8]>,
    pub left: &'a [u8],
}

/// The text up to the first byte that is the mark, and what stands after that.
pub fn before_mark(mark: u8, bytes: &[u8]) -> Option<(&[u8], &[u8])>
    ensures { MatchOption result (IsFreeOf mark bytes.now) (λ r. (bytes.now ≡ r.0.now ++ mark ∷ r.1.now) × IsFreeOf mark r.0.now) }
{
    for at in 0..bytes.len() {
        if bytes[at] == mark {
            let (front, rest) = bytes.split_at(at);
            return Some((front, &rest[1..]));
        }
    }
    None
}

/// Cuts a text into its lines. `NoMemory` where there is no room for the list.
pub fn cut_lines(alloc: Global, bytes: &[u8]) -> Result<Lines<'_>, NoMemory>
    ensures { IfOk result (λ made. IsCut bytes.now (map (λ line. line.now) made.lines.items) made.left.now) }
{
    let mut lines = Vec::new(alloc);
    let mut left = bytes;
    while let Some((line, rest)) = before_mark(b'\n', left) {
        lines.push(line)?;
        left = rest;
    }
    Ok(Lines { lines, left })
}

/// The words of a line, with single spaces between them. `NoMemory` where there is no room for the
/// list.
pub fn split_words(alloc: Global, line: &[u8]) -> Result<Vec<&[u8]>, NoMemory>
    ensures { IfOk result (λ made. AreWords line.now (map (λ word. word.now) made.items)) }
{
    let mut words = Vec::new(alloc);
    let mut left = line;
    while let Some((word, rest)) = before_mark(b' ', left) {
        words.push(word)?;
        left = rest;
    }
    words.push(left)?;
    Ok(words)
}

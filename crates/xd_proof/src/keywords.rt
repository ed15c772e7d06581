//! Lines of a word, and of a word and a number.

ghost use Rattle.std.specs.Prelude.{◌≡◌, ◌≢◌, ◌++◌, ◌∷◌, ℕ, List, MatchOption};
ghost use Rattle.xd_proof.specs.Lines.{space, IsFreeOf, SpellsNumber};
ghost use Rattle.xd_proof.specs.Parts.{Follows};

use crate::cutting::before_mark;
use crate::numbers::read_number;

/// What stands after the first word, where that is the wanted one.
fn behind_same<'a>(first: &[u8], wanted: &[u8], behind: &'a [u8]) -> Option<&'a [u8]>
    ensures { MatchOption result (first.now ≢ wanted.now) (λ r. (first.now ≡ wanted.now) × (r.now ≡ behind.now)) }
{
    if first == wanted {
        return Some(behind);
    }
    None
}

/// What stands after this word and the space after it, where the line begins so.
pub fn behind_word<'a>(word: &[u8], line: &'a [u8]) -> Option<&'a [u8]>
    requires { IsFreeOf space word.now }
    ensures { MatchOption result ((rest : List ℕ) → line.now ≡ word.now ++ space ∷ rest → ⊥) (λ r. line.now ≡ word.now ++ space ∷ r.now) }
{
    let Some((first, rest)) = before_mark(b' ', line) else {
        return None;
    };
    behind_same(first, word, rest)
}

/// The number of a line that is this word and a number.
pub fn read_numbered(word: &[u8], line: &[u8]) -> Option<u64>
    requires { IsFreeOf space word.now }
    ensures { MatchOption result ((n : ℕ) → Follows word.now SpellsNumber line.now n → ⊥) (λ n. Follows word.now SpellsNumber line.now n) }
{
    let Some(behind) = behind_word(word, line) else {
        return None;
    };
    read_number(behind)
}

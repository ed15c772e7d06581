//! The names `S1`, `S2` and so on, without those that are taken.

ghost use Rattle.std.specs.Prelude.{◌≡◌, ◌<◌, ◌^◌, ℕ, List, IfOk, vec_len};
ghost use Rattle.std.specs.BTreeSet.{contains};
ghost use Rattle.std.specs.Cmp.Lexicographic.{slice_cmp};
ghost use Rattle.std.specs.Ordering.{nat_cmp};
ghost use Rattle.xd_syntax.specs.Words.{has_word};
ghost use Rattle.xd_shown.specs.FreeNames.{AreNewNames};
ghost use Rattle.xd_shown.specs.Shown.{AreNamedFrom, shown_name};

use std::alloc::Global;
use std::collections::BTreeSet;
use xd_doc::{Label, NoMemory};

/// The name of this number.
fn name_of(alloc: Global, number: u64) -> Result<Label, NoMemory>
    ensures { IfOk result (λ word. word ≡ shown_name number) }
{
    let word = format!(in alloc; "S{number}")?;
    Label::new(alloc, word.as_str())
}

/// These words, each once.
fn set_of(alloc: Global, words: &[Label]) -> Result<BTreeSet<Label>, NoMemory>
    ensures { IfOk result (λ made. (w : List ℕ) → contains (slice_cmp nat_cmp) made w ≡ has_word words.now w) }
{
    let mut made = BTreeSet::new(alloc);
    for word in words {
        made.insert(word.share()?)?;
    }
    Ok(made)
}

/// The first names `S1`, `S2` and so on that are not taken, so many of them.
///
/// Each may name a type, and none stands twice. `NoMemory` where there is no room for them or for a
/// copy of those that are taken. It tries no more numbers than there are names in both lists.
pub fn free_names(alloc: Global, taken: &[Label], count: usize) -> Result<Vec<Label>, NoMemory>
    ensures named { IfOk result (λ words. AreNamedFrom taken.now 1 words.items) }
    ensures new { IfOk result (λ words. AreNewNames words.items) }
    ensures count { IfOk result (λ words. vec_len words ≡ count) }
{
    let mut left = set_of(alloc, taken)?;
    let _few = left.len();
    let mut words = Vec::with_capacity(alloc, count)?;
    let mut number = 0;
    'numbers: while words.len() < count {
        number += 1;
        let word = name_of(alloc, number)?;
        if !left.remove(&word) {
            words.push(word)?;
        }
    }
    Ok(words)
}

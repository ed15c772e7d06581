//! Labels that came before.

ghost use Rattle.std.specs.Prelude.{◌≡◌, ◌<◌, ◌*◌, ◌+◌, true, length, IfOk, IsUtf8};
ghost use Rattle.xd_doc.specs.Word.{is_word};

use std::alloc::Global;
use xd_doc::{Label, NoMemory};

/// How many labels are kept.
const KEPT: usize = 256;

/// How long a word may be whose label is kept.
const LONGEST: usize = 64;

/// Labels that came before, so that most are made once: the newest one of each slot.
#[derive(Drop)]
pub struct Labels {
    alloc: Global,
    newest: Vec<Option<Label>>,
}

/// Where the label of a word is kept, by its length, its first and its last byte.
fn slot_of(word: &[u8]) -> usize
    requires { 0 < length word.now }
    ensures { result < KEPT }
{
    let first = word[0] as usize;
    let last = word[word.len() - 1] as usize;
    (word.len() % KEPT + 31 * first + 7 * last) % KEPT
}

impl Labels {
    /// No labels.
    pub fn new(alloc: Global) -> Result<Self, NoMemory> {
        let mut newest = Vec::with_capacity(alloc, KEPT)?;
        for _ in 0..KEPT {
            newest.push(None)?;
        }
        Ok(Self { alloc, newest })
    }

    /// The label of this word.
    pub fn label(&mut self, word: &[u8]) -> Result<Label, NoMemory>
        requires { is_word word.now ≡ true }
        ensures { IfOk result (λ label. label ≡ word.now) }
    {
        if LONGEST < word.len() {
            return label_of(self.alloc, word);
        }
        let slot = slot_of(word);
        if let Some(Some(label)) = self.newest.get(slot) {
            if label.as_str().as_bytes() == word {
                return label.share();
            }
        }
        let label = label_of(self.alloc, word)?;
        if let Some(kept) = self.newest.get_mut(slot) {
            *kept = Some(label.share()?);
        }
        Ok(label)
    }
}

fn label_of(alloc: Global, word: &[u8]) -> Result<Label, NoMemory>
    requires { is_word word.now ≡ true }
    ensures { IfOk result (λ label. label ≡ word.now) }
{
    let Ok(word) = std::str::from_utf8(word) else {
        unreachable!()
    };
    Label::new(alloc, word)
}

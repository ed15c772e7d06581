//! Sets of words.

ghost use Rattle.std.specs.Prelude.{◌≡◌, ℕ, List, [], true, not, ◌||◌, ◌&&◌, IfOk, OnOk};
ghost use Rattle.std.specs.Str.{bytes_eq};
ghost use Rattle.xd_doc.specs.Word.{is_word};
ghost use Rattle.xd_syntax.specs.Words.{has_word};

use std::alloc::Global;
use std::collections::BTreeSet;
use std::marker::Model;
use xd_doc::{Label, NoMemory};

/// A set of words, in order.
#[derive(Drop)]
pub(crate) struct Words {
    words: BTreeSet<Label>,
}

impl Model for Words {
    ghost use Rattle.std.specs.Prelude.{List, ℕ};

    ghost Value = { List (List ℕ) };

    ghost view = { λ s. s.words.keys };
}

impl Words {
    /// With no word.
    pub fn new(alloc: Global) -> Self
        ensures { result ≡ [] }
    {
        Self {
            words: BTreeSet::new(alloc),
        }
    }

    /// Whether the word is among them.
    pub fn has(&self, word: &Label) -> bool
        ensures { result ≡ has_word self.now word.now }
    {
        self.words.contains(word)
    }

    /// Whether the word is new.
    pub fn add(&mut self, word: &Label) -> Result<bool, NoMemory>
        ensures new { IfOk result (λ is_new. is_new ≡ not (has_word self.old word.now)) }
        ensures words { OnOk result ((w : List ℕ) → has_word self.new w ≡ (bytes_eq word.now w || has_word self.old w)) }
    {
        let word = word.share()?;
        Ok(self.words.insert(word)?)
    }

    /// Adds the word that this text spells.
    pub fn add_text(&mut self, alloc: Global, text: &str) -> Result<(), NoMemory>
        requires { is_word text.now ≡ true }
        ensures { OnOk result ((w : List ℕ) → has_word self.new w ≡ (bytes_eq text.now w || has_word self.old w)) }
    {
        let word = Label::new(alloc, text)?;
        self.add(&word)?;
        Ok(())
    }

    /// Takes the word away, if it is among them.
    pub fn remove(&mut self, word: &Label)
        ensures { (w : List ℕ) → has_word self.new w ≡ (not (bytes_eq word.now w) && has_word self.old w) }
    {
        self.words.remove(word);
    }
}

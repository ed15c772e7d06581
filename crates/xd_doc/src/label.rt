//! Labels: words that are shared.

ghost use Rattle.std.specs.Prelude.{◌≡◌, true, IfOk};
ghost use Rattle.xd_doc.specs.Word.{is_word};

use crate::error::NoMemory;
use crate::names::Name;
use crate::text::Text;
use std::alloc::Global;
use std::marker::Model;

/// A label: a word that is shared, an ASCII letter or `_` and then letters, digits and `_`.
///
/// Labels are equal, ordered and hashed by their bytes.
#[derive(PartialEq, Eq, PartialOrd, Ord, Hash, Debug, Drop)]
pub struct Label {
    word: Text,
}

impl Model for Label {
    ghost use Rattle.std.specs.Prelude.{◌≡◌, true, List, ℕ};
    ghost use Rattle.xd_doc.specs.Word.{is_word};

    ghost Value = { List ℕ };

    ghost view = { λ l. l.word };

    ghost invariant = { λ l. is_word l.word ≡ true };

    ghost inverse = { λ bytes. record { word = bytes } };
}

impl Label {
    /// The label that this word spells.
    /// `NoMemory` where there is no room for its letters.
    pub fn new(alloc: Global, word: &str) -> Result<Self, NoMemory>
        requires { is_word word.now ≡ true }
        ensures { IfOk result (λ label. label ≡ word.now) }
    {
        let word = Text::new(alloc, word)?;
        Ok(Self { word })
    }

    /// The label that this text is.
    pub fn from_text(word: Text) -> Self
        requires { is_word word ≡ true }
        ensures { result ≡ word }
    {
        Self { word }
    }

    /// Its word.
    pub fn as_str(&self) -> &str
        ensures bytes { result.now ≡ self.now }
        ensures word { is_word self.now ≡ true }
    {
        self.word.as_str()
    }

    /// An equal label, which shares the letters. `NoMemory` is an answer of its type; the letters
    /// are not copied.
    pub fn share(&self) -> Result<Self, NoMemory>
        ensures { IfOk result (λ label. label ≡ self.now) }
    {
        let word = self.word.share()?;
        Ok(Self { word })
    }
}

impl Name for Label {
    ghost is_name = { is_word };

    fn share(&self) -> Result<Self, NoMemory> {
        Label::share(self)
    }

    fn see(&self) {
        let _word = self.as_str();
    }
}

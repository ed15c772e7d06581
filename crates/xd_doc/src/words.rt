//! Classes of texts.

ghost use Rattle.std.specs.Prelude.{◌≡◌, ◌<◌, ◌⊎◌, List, ℕ, true, false, IfOk, IfSome, vec_len};
ghost use Rattle.xd_doc.specs.ClassForms.{HasText, IsPart, IsTextClass};
ghost use Rattle.xd_doc.specs.Classes.{class_has, is_named};

use crate::error::NoMemory;
use crate::names::Names;
use crate::text::Text;
use std::alloc::Global;
use std::marker::Model;

/// A class of texts: those that it names, or all but those.
///
/// Its texts stand in byte order, each once. A class that names nothing has all texts.
#[derive(Debug, Drop)]
pub struct Words {
    texts: Names<Text>,
}

impl Model for Words {
    ghost use Rattle.xd_doc.specs.Classes.{TextClass};
    ghost use Rattle.xd_doc.specs.ClassForms.{IsTextClass};

    ghost Value = { TextClass };

    ghost view = { λ w. record { names = w.texts.names.value.items; except = w.texts.except } };

    ghost invariant = { λ w. IsTextClass (record { names = w.texts.names.value.items; except = w.texts.except }) };
}

impl Words {
    /// The class of these texts, or of all texts but these where `except` is true.
    ///
    /// The texts may come in any order and may repeat. A class that is to have no text at all
    /// can't be made.
    /// `NoMemory` where there is no room to sort them.
    pub fn new(_alloc: Global, texts: Vec<Text>, except: bool) -> Result<Self, NoMemory>
        requires { (0 < vec_len texts) ⊎ (except ≡ true) }
        ensures texts { IfOk result (λ words. (t : List ℕ) → is_named words.names t ≡ is_named texts.items t) }
        ensures except { IfOk result (λ words. words.except ≡ except) }
        ensures valid { IfOk result IsTextClass }
    {
        let texts = Names::new(texts, except)?;
        Ok(Self { texts })
    }

    /// Whether the text is in the class.
    pub fn has(&self, text: &Text) -> bool
        ensures { result ≡ class_has self.now text.now }
    {
        self.texts.has(text)
    }

    /// Whether the class has every text that it doesn't name: exactly for excepted texts.
    pub fn takes_others(&self) -> bool
        ensures { result ≡ self.now.except }
    {
        self.texts.except
    }

    /// The texts that it names, or excepts.
    pub fn texts(&self) -> &[Text]
        ensures names { result.now ≡ self.now.names }
        ensures valid { IsTextClass self.now }
    {
        self.texts.names.as_slice()
    }

    /// An equal class, which shares the list of texts. `NoMemory` is an answer of its type; the
    /// texts are not copied.
    pub fn share(&self) -> Result<Self, NoMemory>
        ensures same { IfOk result (λ words. words ≡ self.now) }
        ensures valid { IsTextClass self.now }
    {
        let texts = self.texts.share()?;
        Ok(Self { texts })
    }

    /// The texts that both classes have, or `None` where there are none.
    /// `NoMemory` where there is no room for its texts.
    pub fn meet(&self, other: &Self) -> Result<Option<Self>, NoMemory>
        ensures part { IfOk result (IsPart true self.now other.now) }
        ensures valid { IfOk result (λ part. IfSome part IsTextClass) }
    {
        let Some(texts) = self.texts.meet(&other.texts)? else {
            return Ok(None);
        };
        Ok(Some(Self { texts }))
    }

    /// The texts of this class that the other one hasn't, or `None` where there are none.
    /// `NoMemory` where there is no room for its texts.
    pub fn without(&self, other: &Self) -> Result<Option<Self>, NoMemory>
        ensures part { IfOk result (IsPart false self.now other.now) }
        ensures valid { IfOk result (λ part. IfSome part IsTextClass) }
    {
        let Some(texts) = self.texts.without(&other.texts)? else {
            return Ok(None);
        };
        Ok(Some(Self { texts }))
    }

    /// The law of classes: each has some text. The call does nothing; its contract is the law.
    pub fn has_some(&self)
        ensures { HasText self.now }
    {
        let _texts = &self.texts;
    }
}

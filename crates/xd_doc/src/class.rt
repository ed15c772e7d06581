//! Classes of labels.

ghost use Rattle.std.specs.Prelude.{◌≡◌, ◌<◌, ◌⊎◌, List, ℕ, true, false, IfOk, IfSome, vec_len};
ghost use Rattle.xd_doc.specs.ClassForms.{HasLabel, IsClass, IsPart};
ghost use Rattle.xd_doc.specs.Classes.{class_has, is_named};

use crate::error::NoMemory;
use crate::label::Label;
use crate::names::Names;
use std::alloc::Global;
use std::marker::Model;

/// A class of labels: those that it names, or all but those.
///
/// Its names stand in byte order, each once. A class that names nothing has all labels.
#[derive(Debug, Drop)]
pub struct Class {
    labels: Names<Label>,
}

impl Model for Class {
    ghost use Rattle.xd_doc.specs.Classes.{LabelClass};
    ghost use Rattle.xd_doc.specs.ClassForms.{IsClass};

    ghost Value = { LabelClass };

    ghost view = { λ c. record { names = c.labels.names.value.items; except = c.labels.except } };

    ghost invariant = { λ c. IsClass (record { names = c.labels.names.value.items; except = c.labels.except }) };
}

impl Class {
    /// The class of these labels, or of all labels but these where `except` is true.
    ///
    /// The names may come in any order and may repeat. A class that is to have no label at all
    /// can't be made.
    /// `NoMemory` where there is no room to sort them.
    pub fn new(_alloc: Global, names: Vec<Label>, except: bool) -> Result<Self, NoMemory>
        requires { (0 < vec_len names) ⊎ (except ≡ true) }
        ensures labels { IfOk result (λ class. (l : List ℕ) → is_named class.names l ≡ is_named names.items l) }
        ensures except { IfOk result (λ class. class.except ≡ except) }
        ensures valid { IfOk result IsClass }
    {
        let labels = Names::new(names, except)?;
        Ok(Self { labels })
    }

    /// Whether the label is in the class.
    pub fn has(&self, label: &Label) -> bool
        ensures { result ≡ class_has self.now label.now }
    {
        self.labels.has(label)
    }

    /// Whether the class has every label that it doesn't name: exactly for excepted names.
    pub fn takes_others(&self) -> bool
        ensures { result ≡ self.now.except }
    {
        self.labels.except
    }

    /// The labels that it names, or excepts.
    pub fn names(&self) -> &[Label]
        ensures names { result.now ≡ self.now.names }
        ensures valid { IsClass self.now }
    {
        self.labels.names.as_slice()
    }

    /// An equal class, which shares the list of names. `NoMemory` is an answer of its type; the
    /// names are not copied.
    pub fn share(&self) -> Result<Self, NoMemory>
        ensures same { IfOk result (λ class. class ≡ self.now) }
        ensures valid { IsClass self.now }
    {
        let labels = self.labels.share()?;
        Ok(Self { labels })
    }

    /// The labels that both classes have, or `None` where there are none.
    /// `NoMemory` where there is no room for its names.
    pub fn meet(&self, other: &Self) -> Result<Option<Self>, NoMemory>
        ensures part { IfOk result (IsPart true self.now other.now) }
        ensures valid { IfOk result (λ part. IfSome part IsClass) }
    {
        let Some(labels) = self.labels.meet(&other.labels)? else {
            return Ok(None);
        };
        Ok(Some(Self { labels }))
    }

    /// The labels of this class that the other one hasn't, or `None` where there are none.
    /// `NoMemory` where there is no room for its names.
    pub fn without(&self, other: &Self) -> Result<Option<Self>, NoMemory>
        ensures part { IfOk result (IsPart false self.now other.now) }
        ensures valid { IfOk result (λ part. IfSome part IsClass) }
    {
        let Some(labels) = self.labels.without(&other.labels)? else {
            return Ok(None);
        };
        Ok(Some(Self { labels }))
    }

    /// The law of classes: each has some label. The call does nothing; its contract is the law.
    pub fn has_some(&self)
        ensures { HasLabel self.now }
    {
        let _labels = &self.labels;
    }
}

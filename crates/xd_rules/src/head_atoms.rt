//! The atoms of a head.

ghost use Rattle.std.specs.Prelude.{◌≡◌, ◌++◌, ◌∷◌, ℕ, Bool, List, [], false, map, true, IfOk, OnOk};
ghost use Rattle.std.specs.List.{filter};
ghost use Rattle.xd_doc.specs.Classes.{class_has};
ghost use Rattle.xd_rules.specs.Heads.{atoms_of, element_in, text_in};
ghost use Rattle.xd_rules.specs.Listed.{AreAmong};
ghost use Rattle.xd_rules.specs.declared.atom.Atom.{Atom};

use crate::atom::Atom;
use std::alloc::Global;
use xd_doc::{Class, Label, NoMemory, Text, Words};

/// A class of labels or of texts, and the atoms of its kind.
pub trait Names: Drop {
    /// A label or a text.
    type Name: Drop;

    /// The names that it has, or excepts.
    ghost names_of: { Self → List Self.Name };

    /// Whether it has the name.
    ghost has_name: { Self → Self.Name → Bool };

    /// Whether it has all that it doesn't name.
    ghost excepts: { Self → Bool };

    /// The atom of a name.
    ghost named: { Self.Name → Atom };

    /// The atom of those that nothing names.
    ghost others: { Atom };

    fn names(&self) -> &[Self::Name]
        ensures { result.now ≡ names_of self.now };

    fn has(&self, name: &Self::Name) -> bool
        ensures { result ≡ has_name self.now name.now };

    fn takes_others(&self) -> bool
        ensures { result ≡ excepts self.now };

    /// An equal name.
    fn share_name(name: &Self::Name) -> Result<Self::Name, NoMemory>
        ensures { IfOk result (λ shared. shared ≡ name.now) };

    fn atom(name: Self::Name) -> Atom
        ensures { result ≡ named name };

    fn other() -> Atom
        ensures { result ≡ others };
}

impl Names for Class {
    type Name = Label;

    ghost names_of = { λ class. class.names };

    ghost has_name = { class_has };

    ghost excepts = { λ class. class.except };

    ghost named = { λ label. Atom.Label label };

    ghost others = { Atom.OtherLabel };

    fn names(&self) -> &[Label] {
        Class::names(self)
    }

    fn has(&self, label: &Label) -> bool {
        Class::has(self, label)
    }

    fn takes_others(&self) -> bool {
        Class::takes_others(self)
    }

    fn share_name(label: &Label) -> Result<Label, NoMemory> {
        label.share()
    }

    fn atom(label: Label) -> Atom {
        Atom::Label(label)
    }

    fn other() -> Atom {
        Atom::OtherLabel
    }
}

impl Names for Words {
    type Name = Text;

    ghost names_of = { λ words. words.names };

    ghost has_name = { class_has };

    ghost excepts = { λ words. words.except };

    ghost named = { λ text. Atom.Text text };

    ghost others = { Atom.OtherText };

    fn names(&self) -> &[Text] {
        self.texts()
    }

    fn has(&self, text: &Text) -> bool {
        Words::has(self, text)
    }

    fn takes_others(&self) -> bool {
        Words::takes_others(self)
    }

    fn share_name(text: &Text) -> Result<Text, NoMemory> {
        text.share()
    }

    fn atom(text: Text) -> Atom {
        Atom::Text(text)
    }

    fn other() -> Atom {
        Atom::OtherText
    }
}

/// The atoms of a class of labels, in order. The other class has all labels but those that the
/// claim names.
///
/// Only of a class that excepts labels are all these names tried. Fails only where memory is
/// refused.
pub fn label_atoms(alloc: Global, class: &Class, unnamed: &Class) -> Result<Vec<Atom>, NoMemory>
    requires { AreAmong class.now.names unnamed.now.names }
    ensures { IfOk result (λ atoms. (texts : List (List ℕ)) → atoms.items ≡ atoms_of (record { labels = unnamed.now.names; texts = texts }) (element_in class.now)) }
{
    let _names = class.names();
    let _all = unnamed.names();
    let atoms = class_atoms(alloc, class, unnamed)?;
    Ok(atoms)
}

/// The atoms of a class of texts, in the same way. Fails only where memory is refused.
pub fn text_atoms(alloc: Global, words: &Words, unnamed: &Words) -> Result<Vec<Atom>, NoMemory>
    requires { AreAmong words.now.names unnamed.now.names }
    ensures { IfOk result (λ atoms. (labels : List (List ℕ)) → atoms.items ≡ atoms_of (record { labels = labels; texts = unnamed.now.names }) (text_in words.now)) }
{
    let _names = words.texts();
    let _all = unnamed.texts();
    let atoms = class_atoms(alloc, words, unnamed)?;
    Ok(atoms)
}

/// The atoms of a class: of those of its names that it has, or, where it excepts them, of those of
/// the other class and of all that nothing names.
fn class_atoms<C: Names>(alloc: Global, class: &C, unnamed: &C) -> Result<Vec<Atom>, NoMemory>
    ensures own { C.excepts class.now ≡ false → IfOk result (λ atoms. atoms.items ≡ map C.named (filter (C.has_name class.now) (C.names_of class.now))) }
    ensures others { C.excepts class.now ≡ true → IfOk result (λ atoms. atoms.items ≡ map C.named (filter (C.has_name class.now) (C.names_of unnamed.now)) ++ C.others ∷ []) }
{
    let mut atoms = Vec::new(alloc);
    if !class.takes_others() {
        add_atoms(&mut atoms, class, class.names())?;
        return Ok(atoms);
    }
    add_atoms(&mut atoms, class, unnamed.names())?;
    atoms.push(C::other())?;
    Ok(atoms)
}

/// Puts those of some names that are in a class after the others.
fn add_atoms<C: Names>(atoms: &mut Vec<Atom>, class: &C, names: &[C::Name]) -> Result<(), NoMemory>
    ensures { OnOk result (atoms.new.items ≡ atoms.old.items ++ map C.named (filter (C.has_name class.now) names.now)) }
{
    for name in names {
        if class.has(name) {
            atoms.push(C::atom(C::share_name(name)?))?;
        }
    }
    Ok(())
}

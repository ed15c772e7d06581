//! Atoms: what the heads of a goal name, and the atoms of a head.

ghost use Rattle.std.specs.Prelude.{◌≡◌, ◌++◌, ◌∷◌, [], ℕ, List, true, cond, flat_map, IfOk, OnOk};
ghost use Rattle.xd_doc.specs.ClassForms.{IsClass, IsTextClass};
ghost use Rattle.xd_rules.specs.Heads as inclusion;
ghost use Rattle.xd_rules.specs.Heads.{labels_of, matches, texts_of};
ghost use Rattle.xd_laws.proofs.FirstWrong.{same_atom};
ghost use Rattle.xd_heads.specs.HeadList.{kind_at};
ghost use Rattle.xd_proof_check.specs.Atoms.{AreNamed, AreNamedFor, kinds_of};
ghost use Rattle.xd_proof_check.specs.Names.{AddsNames};

use std::alloc::Global;
use std::collections::BTreeSet;
use xd_doc::{Class, Label, NoMemory, Text, Words};
use xd_heads::{HeadKind, NumberedHead};
use xd_rules::{Atom, label_atoms, text_atoms};

/// The labels and the texts that heads name, as classes that have all others.
#[derive(Drop)]
pub(crate) struct Named {
    pub labels: Class,
    pub texts: Words,
}

/// Whether the atom is in the class of a head.
pub(crate) fn matches(atom: &Atom, kind: &HeadKind) -> bool
    ensures { result ≡ matches (kind_at kind.now) atom.now }
{
    match kind {
        HeadKind::Label(class) => match atom {
            Atom::Label(label) => class.has(label),
            Atom::OtherLabel => class.takes_others(),
            _ => false,
        },
        HeadKind::Text(words) => match atom {
            Atom::Text(text) => words.has(text),
            Atom::OtherText => words.takes_others(),
            _ => false,
        },
    }
}

pub(crate) fn are_same(one: &Atom, other: &Atom) -> bool
    ensures { result ≡ same_atom one.now other.now }
{
    match one {
        Atom::Label(label) => match other {
            Atom::Label(same) => label == same,
            _ => false,
        },
        Atom::OtherLabel => matches!(other, Atom::OtherLabel),
        Atom::Text(text) => match other {
            Atom::Text(same) => text == same,
            _ => false,
        },
        Atom::OtherText => matches!(other, Atom::OtherText),
    }
}

/// All labels and texts that are named in the classes of these heads. Each is held once, however
/// many heads name it.
pub(crate) fn named_in(
    alloc: Global,
    left: &[NumberedHead],
    rights: &[NumberedHead],
) -> Result<Named, NoMemory>
    ensures { IfOk result (λ named. AreNamed (kinds_of left.now ++ kinds_of rights.now) named) }
{
    let mut labels = BTreeSet::new(alloc);
    put_labels(&mut labels, left)?;
    put_labels(&mut labels, rights)?;
    let mut texts = BTreeSet::new(alloc);
    put_texts(&mut texts, left)?;
    put_texts(&mut texts, rights)?;
    Ok(Named {
        labels: Class::new(alloc, listed(alloc, labels)?, true)?,
        texts: Words::new(alloc, listed(alloc, texts)?, true)?,
    })
}

/// The items of a set, in order.
fn listed<T: Ord + Drop>(alloc: Global, set: BTreeSet<T>) -> Result<Vec<T>, NoMemory>
    ensures { IfOk result (λ made. made.items ≡ set.keys) }
{
    let mut made = Vec::new(alloc);
    for item in set {
        made.push(item)?;
    }
    Ok(made)
}

fn put_labels(labels: &mut BTreeSet<Label>, heads: &[NumberedHead]) -> Result<(), NoMemory>
    ensures { OnOk result (AddsNames labels.old.keys (flat_map labels_of (kinds_of heads.now)) labels.new.keys) }
{
    for head in heads {
        put_labels_of(labels, &head.kind)?;
    }
    Ok(())
}

fn put_labels_of(labels: &mut BTreeSet<Label>, kind: &HeadKind) -> Result<(), NoMemory>
    ensures { OnOk result (AddsNames labels.old.keys (labels_of (kind_at kind.now)) labels.new.keys) }
{
    match kind {
        HeadKind::Label(class) => share_labels(labels, class.names()),
        HeadKind::Text(_) => Ok(()),
    }
}

fn share_labels(labels: &mut BTreeSet<Label>, more: &[Label]) -> Result<(), NoMemory>
    ensures { OnOk result (AddsNames labels.old.keys more.now labels.new.keys) }
{
    for label in more {
        put_label(labels, label)?;
    }
    Ok(())
}

fn put_label(labels: &mut BTreeSet<Label>, label: &Label) -> Result<(), NoMemory>
    ensures { OnOk result (AddsNames labels.old.keys (label.now ∷ []) labels.new.keys) }
{
    let label = label.share()?;
    labels.insert(label)?;
    Ok(())
}

fn put_texts(texts: &mut BTreeSet<Text>, heads: &[NumberedHead]) -> Result<(), NoMemory>
    ensures { OnOk result (AddsNames texts.old.keys (flat_map texts_of (kinds_of heads.now)) texts.new.keys) }
{
    for head in heads {
        put_texts_of(texts, &head.kind)?;
    }
    Ok(())
}

fn put_texts_of(texts: &mut BTreeSet<Text>, kind: &HeadKind) -> Result<(), NoMemory>
    ensures { OnOk result (AddsNames texts.old.keys (texts_of (kind_at kind.now)) texts.new.keys) }
{
    match kind {
        HeadKind::Label(_) => Ok(()),
        HeadKind::Text(words) => share_texts(texts, words.texts()),
    }
}

fn share_texts(texts: &mut BTreeSet<Text>, more: &[Text]) -> Result<(), NoMemory>
    ensures { OnOk result (AddsNames texts.old.keys more.now texts.new.keys) }
{
    for text in more {
        put_text(texts, text)?;
    }
    Ok(())
}

fn put_text(texts: &mut BTreeSet<Text>, text: &Text) -> Result<(), NoMemory>
    ensures { OnOk result (AddsNames texts.old.keys (text.now ∷ []) texts.new.keys) }
{
    let text = text.share()?;
    texts.insert(text)?;
    Ok(())
}

/// The atoms of a head among what is named, in order. Takes time linear in the head's own names and
/// its atoms, but for the search of each name in its class.
pub(crate) fn atoms_of(alloc: Global, kind: &HeadKind, named: &Named) -> Result<Vec<Atom>, NoMemory>
    requires { AreNamedFor (kind_at kind.now) named.now }
    ensures { IfOk result (λ atoms. atoms.items ≡ inclusion.atoms_of (record { labels = named.now.labels.names; texts = named.now.texts.names }) (kind_at kind.now)) }
{
    match kind {
        HeadKind::Label(class) => label_atoms(alloc, class, &named.labels),
        HeadKind::Text(words) => text_atoms(alloc, words, &named.texts),
    }
}

//! Atoms.

ghost use Rattle.std.specs.Prelude.{◌≡◌, ◌++◌, ◌∷◌, ℕ, List, IfOk, MatchOption};
ghost use Rattle.std.specs.List.{list_all};
ghost use Rattle.xd_doc.specs.Word.{is_word, is_word_part, is_word_start};
ghost use Rattle.xd_rules.specs.declared.atom.Atom.{Atom};
ghost use Rattle.xd_proof.specs.Lines.{space};
ghost use Rattle.xd_proof.specs.Parts.{IsAtom, atom_word};
ghost use Rattle.xd_proof.specs.Cases.{is_plain};

use crate::cutting::before_mark;
use crate::quotes::{behind_quote, read_quoted};
use std::alloc::Global;
use xd_doc::{Label, NoMemory};
use xd_rules::Atom;

fn is_word_start(byte: u8) -> bool
    ensures { result ≡ is_word_start byte }
{
    byte.is_ascii_alphabetic() || byte == b'_'
}

fn is_word_part(byte: u8) -> bool
    ensures { result ≡ is_word_part byte }
{
    is_word_start(byte) || byte.is_ascii_digit()
}

fn are_word_parts(bytes: &[u8]) -> bool
    ensures { result ≡ list_all is_word_part bytes.now }
{
    bytes.iter().all(|byte| is_word_part(*byte))
}

/// Whether the bytes are a word.
fn is_word(bytes: &[u8]) -> bool
    ensures { result ≡ is_word bytes.now }
{
    let Some((first, rest)) = bytes.split_first() else {
        return false;
    };
    is_word_start(*first) && are_word_parts(rest)
}

/// The atom that a word is: one without quotes.
fn plain_atom(alloc: Global, word: &[u8]) -> Result<Option<Atom>, NoMemory>
    ensures { IfOk result (λ made. MatchOption made ((a : Atom) → IsAtom a → is_plain a → word.now ≡ atom_word a → ⊥) (λ m. IsAtom m × (word.now ≡ atom_word m))) }
{
    if word == b"~".as_slice() {
        return Ok(Some(Atom::OtherLabel));
    }
    if word == b"$".as_slice() {
        return Ok(Some(Atom::OtherText));
    }
    if !is_word(word) {
        return Ok(None);
    }
    let Ok(text) = str::from_utf8(word) else {
        return Ok(None);
    };
    Ok(Some(Atom::Label(Label::new(alloc, text)?)))
}

/// What stands after a space at the front.
fn behind_space(bytes: &[u8]) -> Option<&[u8]>
    ensures { MatchOption result ((rest : List ℕ) → bytes.now ≡ space ∷ rest → ⊥) (λ r. bytes.now ≡ space ∷ r.now) }
{
    let Some((first, rest)) = bytes.split_first() else {
        return None;
    };
    if *first == b' ' { Some(rest) } else { None }
}

/// The atom in quotes whose inside stands at the front, and what stands after the space after it.
fn quoted_atom<'a>(alloc: Global, inside: &'a [u8]) -> Result<Option<(Atom, &'a [u8])>, NoMemory>
    ensures { IfOk result (λ made. MatchOption made ((s r : List ℕ) → IsAtom (Atom.Text s) → 34 ∷ inside.now ≡ atom_word (Atom.Text s) ++ space ∷ r → ⊥) (λ m. IsAtom m.0 × (34 ∷ inside.now ≡ atom_word m.0 ++ space ∷ m.1.now))) }
{
    match read_quoted(alloc, inside) {
        Err(NoMemory) => Err(NoMemory),
        Ok(None) => Ok(None),
        Ok(Some((text, behind))) => match behind_space(behind) {
            None => Ok(None),
            Some(rest) => Ok(Some((Atom::Text(text), rest))),
        },
    }
}

/// The atom at the front, and what stands after the space after it. Takes time linear in its
/// spelling.
pub fn read_atom<'a>(alloc: Global, bytes: &'a [u8]) -> Result<Option<(Atom, &'a [u8])>, NoMemory>
    ensures { IfOk result (λ made. MatchOption made ((a : Atom) (r : List ℕ) → IsAtom a → bytes.now ≡ atom_word a ++ space ∷ r → ⊥) (λ m. IsAtom m.0 × (bytes.now ≡ atom_word m.0 ++ space ∷ m.1.now))) }
{
    if let Some(inside) = behind_quote(bytes) {
        return quoted_atom(alloc, inside);
    }
    let Some((word, rest)) = before_mark(b' ', bytes) else {
        return Ok(None);
    };
    match plain_atom(alloc, word) {
        Err(NoMemory) => Err(NoMemory),
        Ok(None) => Ok(None),
        Ok(Some(atom)) => Ok(Some((atom, rest))),
    }
}

//! The nodes that a type reaches, and copies of them.

ghost use Rattle.std.specs.Prelude.{◌≡◌, ◌≤◌, map, length, slice_index_or, IfOk};
ghost use Rattle.xd_syntax.specs.Types.{BelongsTo, form_of, type_numbers};
ghost use Rattle.xd_sound.specs.Adopt.{AreReached, AreRising, place_among, copy_from, copied_form};

use crate::waiting::Waiting;
use std::alloc::Global;
use xd_doc::NoMemory;
use xd_syntax::{Nodes, TypeForm, TypeId, Types};

/// The numbers of the nodes that a type reaches, each once, the oldest first.
///
/// Parts are older nodes, so the greatest number that still waits is met for the last time. It
/// takes n steps for n parts of these nodes where the parts of each node were made in their order,
/// one after the other, and n log n steps otherwise, whatever else the table holds.
pub(crate) fn reached_from(alloc: Global, types: &Types, id: TypeId) -> Result<Vec<usize>, NoMemory>
    requires { BelongsTo types.now id }
    ensures { IfOk result (λ reached. AreReached types.now id.at reached.items) }
{
    types.see_table();
    let mut reached = Vec::new(alloc);
    let mut above = types.len();
    let mut waiting = Waiting::new(alloc);
    waiting.push(id.at())?;
    while let Some(at) = waiting.pop() {
        if at < above {
            above = at;
            reached.push(at)?;
            waiting.push_all(types.view(TypeId::of(at)).parts)?;
        }
    }
    reached.reverse();
    Ok(reached)
}

/// The copy of a node, which is one of the originals. Each has its copy at its own place.
pub(crate) fn copy_of(originals: &[usize], copies: &[TypeId], id: TypeId) -> TypeId
    requires { AreRising originals.now }
    ensures { result ≡ copy_from copies.now originals.now id.at }
{
    let newest = originals.len().saturating_sub(1);
    copy_at(copies, place_of(originals, id.at(), newest))
}

/// The copy at a place. Where there is none, which no part of a node asks for, it is any.
fn copy_at(copies: &[TypeId], place: usize) -> TypeId
    ensures { result ≡ slice_index_or copies.now place (record { at = 0 }) }
{
    match copies.get(place) {
        Some(copy) => *copy,
        None => TypeId::of(0),
    }
}

/// The number's place among these, which is mostly the guess.
fn place_of(originals: &[usize], at: usize, guess: usize) -> usize
    requires { AreRising originals.now }
    ensures place { result ≡ place_among originals.now at }
    ensures within { result ≤ length originals.now }
{
    if guess < originals.len() && originals[guess] == at {
        return guess;
    }
    originals.partition_point(|original| *original < at)
}

/// The copies of the parts. One after the other is mostly looked for at the next place.
fn parts_copied(
    alloc: Global,
    parts: &[TypeId],
    originals: &[usize],
    copies: &[TypeId],
) -> Result<Vec<TypeId>, NoMemory>
    requires { AreRising originals.now }
    ensures { IfOk result (λ made. made.items ≡ map (copy_from copies.now originals.now) (type_numbers parts.now)) }
{
    let mut made = Vec::with_capacity(alloc, parts.len())?;
    let mut next = 0;
    for part in parts {
        let place = place_of(originals, part.at(), next);
        made.push(copy_at(copies, place))?;
        next = place + 1;
    }
    Ok(made)
}

/// The same form over the copies of its parts.
pub(crate) fn copy_form(
    alloc: Global,
    form: &TypeForm,
    originals: &[usize],
    copies: &[TypeId],
) -> Result<TypeForm, NoMemory>
    requires { AreRising originals.now }
    ensures { IfOk result (λ made. form_of made ≡ copied_form (copy_from copies.now originals.now) (form_of form.now)) }
{
    match form {
        TypeForm::Empty => Ok(TypeForm::Empty),
        TypeForm::Text => Ok(TypeForm::Text),
        TypeForm::Words(texts) => Ok(TypeForm::Words(texts.share()?)),
        TypeForm::Name(word) => Ok(TypeForm::Name(word.share()?)),
        TypeForm::Elem(class, content) => Ok(TypeForm::Elem(
            class.share()?,
            copy_of(originals, copies, *content),
        )),
        TypeForm::Seq(parts) => Ok(TypeForm::Seq(parts_copied(alloc, parts, originals, copies)?)),
        TypeForm::Alt(parts) => Ok(TypeForm::Alt(parts_copied(alloc, parts, originals, copies)?)),
        TypeForm::Star(part) => Ok(TypeForm::Star(copy_of(originals, copies, *part))),
        TypeForm::Plus(part) => Ok(TypeForm::Plus(copy_of(originals, copies, *part))),
        TypeForm::Opt(part) => Ok(TypeForm::Opt(copy_of(originals, copies, *part))),
    }
}

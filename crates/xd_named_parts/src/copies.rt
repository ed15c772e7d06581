//! The nodes of definitions, copied with names in the places of some.

ghost use Rattle.std.specs.Prelude.{◌≡◌, ◌<◌, [], ◌∷◌, true, List, ℕ, IfOk, OnOk, length};
ghost use Rattle.std.specs.List.{AllByRecursion};
ghost use Rattle.std.specs.Option.{IfSome};
ghost use Rattle.xd_syntax.specs.Keywords.{is_type_name};
ghost use Rattle.xd_syntax.specs.Table.{Row};
ghost use Rattle.xd_syntax.specs.Tree.{Name};
ghost use Rattle.xd_syntax.specs.Types.{BelongsTo, tree};
ghost use Rattle.xd_syntax.specs.Words.{any_word, has_word};
ghost use Rattle.xd_syntax.specs.declared.types.TypeId.{TypeId};
ghost use Rattle.xd_same_types.specs.Grown.{GrowsTypes, NamesAmong};
ghost use Rattle.xd_same_types.specs.Same.{HasTops};
ghost use Rattle.xd_named_parts.specs.Copies.{AreBare, AreGiven, AreGivenWith, CopiesBelong, GrowsCopies, IsMeantCopy, IsNodeCopy, StandForNodes, StandsForNode};

use crate::forms::{copy_at, form_copy};
use crate::parts::Definitions;
use std::alloc::Global;
use xd_doc::{Label, NoMemory};
use xd_same_types::{Pool, any_type, name_type};
use xd_syntax::{TypeForm, TypeId};

/// `Any`, for the name `Any`.
fn any_copy(alloc: Global, pool: &mut Pool, word: &Label) -> Result<Option<TypeId>, NoMemory>
    ensures word { IfOk result (λ found. IfSome found (λ id. word.now ≡ any_word)) }
    ensures tree { IfOk result (λ found. IfSome found (λ id. tree pool.new.types id ≡ Name any_word)) }
    ensures belongs { IfOk result (λ found. IfSome found (BelongsTo pool.new.types)) }
    ensures keeps { GrowsTypes pool.old.types pool.new.types }
{
    if word.as_str() != "Any" {
        return Ok(None);
    }
    Ok(Some(any_type(alloc, pool)?))
}

/// The copy of what a name means, if it is the name at the place and its meaning has a copy.
fn meant_copy(
    words: &[Label],
    bodies: &[TypeId],
    inner: &[Option<TypeId>],
    word: &Label,
    place: usize,
) -> Option<TypeId>
    ensures { IfSome result (IsMeantCopy words.now bodies.now inner.now word.now) }
{
    if place >= words.len() {
        return None;
    }
    if place >= bodies.len() {
        return None;
    }
    if words[place] == *word {
        copy_at(inner, bodies[place].at())
    } else {
        None
    }
}

/// The copy of a node within labels, if its parts have copies. `place` is that of its name, where
/// it is one.
fn inner_copy(
    alloc: Global,
    pool: &mut Pool,
    given: &Definitions,
    inner: &[Option<TypeId>],
    number: usize,
    place: usize,
) -> Result<Option<TypeId>, NoMemory>
    requires within { number < length given.now.pool.types }
    requires inner { CopiesBelong pool.old.types inner.now }
    ensures copy { IfOk result (λ found. IfSome found (IsNodeCopy given.now.pool.types given.now.names.items given.now.bodies.items number inner.now inner.now pool.old.types pool.new.types)) }
    ensures keeps { GrowsTypes pool.old.types pool.new.types }
{
    let form = given.pool.types.node(TypeId::of(number)).form();
    match form {
        TypeForm::Name(word) => match any_copy(alloc, pool, word)? {
            Some(id) => Ok(Some(id)),
            None => Ok(meant_copy(&given.names, &given.bodies, inner, word, place)),
        },
        _ => form_copy(alloc, pool, form, inner, inner),
    }
}

/// The copy of a node outside of labels, if its parts have copies. It uses no name there but `Any`.
fn plain_copy(
    alloc: Global,
    pool: &mut Pool,
    given: &Definitions,
    inner: &[Option<TypeId>],
    plain: &[Option<TypeId>],
    number: usize,
) -> Result<Option<TypeId>, NoMemory>
    requires within { number < length given.now.pool.types }
    requires inner { CopiesBelong pool.old.types inner.now }
    requires plain { CopiesBelong pool.old.types plain.now }
    ensures copy { IfOk result (λ found. IfSome found (IsNodeCopy given.now.pool.types given.now.names.items given.now.bodies.items number plain.now inner.now pool.old.types pool.new.types)) }
    ensures bare { AreBare pool.old.types plain.now → IfOk result (λ found. IfSome found (λ id. HasTops (any_word ∷ []) (tree pool.new.types id))) }
    ensures keeps { GrowsTypes pool.old.types pool.new.types }
{
    let form = given.pool.types.node(TypeId::of(number)).form();
    match form {
        TypeForm::Name(word) => any_copy(alloc, pool, word),
        _ => form_copy(alloc, pool, form, plain, inner),
    }
}

/// Copies a node within labels, where it has no copy yet and its parts have some.
fn put_inner(
    alloc: Global,
    pool: &mut Pool,
    given: &Definitions,
    inner: &mut Vec<Option<TypeId>>,
    number: usize,
    place: usize,
) -> Result<(), NoMemory>
    requires count { length inner.old.items ≡ length given.now.pool.types }
    requires inner { CopiesBelong pool.old.types inner.old.items }
    ensures grows { OnOk result (GrowsCopies (AreGiven given.now.pool.types given.now.names.items given.now.bodies.items) given.now.pool.types pool.old.types inner.old.items pool.new.types inner.new.items) }
    ensures keeps { GrowsTypes pool.old.types pool.new.types }
{
    if number >= given.pool.types.len() {
        return Ok(());
    }
    if inner[number].is_some() {
        return Ok(());
    }
    if let Some(id) = inner_copy(alloc, pool, given, inner, number, place)? {
        inner[number] = Some(id);
    }
    Ok(())
}

/// Copies nodes within labels, in this order. `places` has the places of names by the numbers of
/// the nodes that are names.
pub(crate) fn copy_inner(
    alloc: Global,
    pool: &mut Pool,
    given: &Definitions,
    inner: &mut Vec<Option<TypeId>>,
    order: &[usize],
    places: &[usize],
) -> Result<(), NoMemory>
    requires count { length inner.old.items ≡ length given.now.pool.types }
    requires inner { CopiesBelong pool.old.types inner.old.items }
    ensures grows { OnOk result (GrowsCopies (AreGiven given.now.pool.types given.now.names.items given.now.bodies.items) given.now.pool.types pool.old.types inner.old.items pool.new.types inner.new.items) }
    ensures keeps { GrowsTypes pool.old.types pool.new.types }
{
    for turn in 0..order.len() {
        let number = order[turn];
        let place = places.get(number).copied().unwrap_or(0);
        put_inner(alloc, pool, given, inner, number, place)?;
    }
    Ok(())
}

/// Copies a node outside of labels, where it has no copy yet and its parts have some.
fn put_plain(
    alloc: Global,
    pool: &mut Pool,
    given: &Definitions,
    inner: &[Option<TypeId>],
    plain: &mut Vec<Option<TypeId>>,
    number: usize,
) -> Result<(), NoMemory>
    requires count { length plain.old.items ≡ length given.now.pool.types }
    requires inner { CopiesBelong pool.old.types inner.now }
    requires plain { CopiesBelong pool.old.types plain.old.items }
    ensures grows { OnOk result (GrowsCopies (AreGivenWith given.now.pool.types given.now.names.items given.now.bodies.items pool.old.types inner.now) given.now.pool.types pool.old.types plain.old.items pool.new.types plain.new.items) }
    ensures bare { AreBare pool.old.types plain.old.items → OnOk result (AreBare pool.new.types plain.new.items) }
    ensures keeps { GrowsTypes pool.old.types pool.new.types }
{
    if number >= given.pool.types.len() {
        return Ok(());
    }
    if plain[number].is_some() {
        return Ok(());
    }
    if let Some(id) = plain_copy(alloc, pool, given, inner, plain, number)? {
        plain[number] = Some(id);
    }
    Ok(())
}

/// Copies nodes outside of labels, in this order.
pub(crate) fn copy_plain(
    alloc: Global,
    pool: &mut Pool,
    given: &Definitions,
    inner: &[Option<TypeId>],
    plain: &mut Vec<Option<TypeId>>,
    order: &[usize],
) -> Result<(), NoMemory>
    requires count { length plain.old.items ≡ length given.now.pool.types }
    requires inner { CopiesBelong pool.old.types inner.now }
    requires plain { CopiesBelong pool.old.types plain.old.items }
    ensures grows { OnOk result (GrowsCopies (AreGivenWith given.now.pool.types given.now.names.items given.now.bodies.items pool.old.types inner.now) given.now.pool.types pool.old.types plain.old.items pool.new.types plain.new.items) }
    ensures bare { AreBare pool.old.types plain.old.items → OnOk result (AreBare pool.new.types plain.new.items) }
    ensures keeps { GrowsTypes pool.old.types pool.new.types }
{
    for turn in 0..order.len() {
        put_plain(alloc, pool, given, inner, plain, order[turn])?;
    }
    Ok(())
}

/// Gives the name to a node.
fn name_node(
    pool: &mut Pool,
    inner: &mut Vec<Option<TypeId>>,
    id: TypeId,
    name: &Label,
) -> Result<(), NoMemory>
    requires within { id.at < length inner.old.items }
    requires name { is_type_name name.now ≡ true }
    requires inner { CopiesBelong pool.old.types inner.old.items }
    ensures grows { OnOk result ((old : List Row) → GrowsCopies (StandsForNode old name.now id.at) old pool.old.types inner.old.items pool.new.types inner.new.items) }
    ensures names { (known : List (List ℕ)) → has_word known name.now ≡ true → NamesAmong known pool.old.types → NamesAmong known pool.new.types }
{
    let named = name_type(pool, name.share()?)?;
    inner[id.at()] = Some(named);
    Ok(())
}

/// Gives these names to nodes.
pub(crate) fn name_nodes(
    pool: &mut Pool,
    inner: &mut Vec<Option<TypeId>>,
    named: &[TypeId],
    names: &[Label],
) -> Result<(), NoMemory>
    requires within { AllByRecursion (λ (id : TypeId). id.at < length inner.old.items) named.now }
    requires names { AllByRecursion (λ w. is_type_name w ≡ true) names.now }
    requires count { length names.now ≡ length named.now }
    requires inner { CopiesBelong pool.old.types inner.old.items }
    ensures grows { OnOk result ((old : List Row) → GrowsCopies (StandForNodes old names.now named.now) old pool.old.types inner.old.items pool.new.types inner.new.items) }
    ensures names { NamesAmong (any_word ∷ names.now) pool.old.types → NamesAmong (any_word ∷ names.now) pool.new.types }
{
    for number in 0..named.len() {
        name_node(pool, inner, named[number], &names[number])?;
    }
    Ok(())
}

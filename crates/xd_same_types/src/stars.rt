//! Types again and again.

ghost use Rattle.std.specs.Prelude.{◌≡◌, IfOk, OnOk};
ghost use Rattle.xd_same_types.specs.Grown.{GrowsTypes};
ghost use Rattle.xd_syntax.specs.Tree.{Name, Star};
ghost use Rattle.xd_syntax.specs.TreeForms.{alt_of};
ghost use Rattle.xd_syntax.specs.Words.{any_word};
ghost use Rattle.xd_syntax.specs.Types.{BelongsTo, tree};
ghost use Rattle.xd_same_types.specs.Same.{AddsStripped, AreAltParts, MeansSame, RepeatSame, trees};

use crate::alts::{Alternatives, add_alternatives, alt_from, alt_parts, no_alternatives};
use crate::pool::{Pool, name_type, node};
use std::alloc::Global;
use xd_doc::{Label, NoMemory};
use xd_syntax::{TypeForm, TypeId};

/// What is to be repeated: `x` of `x?`, `x*` and `x+`.
fn stripped(pool: &Pool, id: TypeId) -> TypeId
    requires { BelongsTo pool.now.types id }
    ensures same { RepeatSame (tree pool.now.types result) (tree pool.now.types id) }
    ensures belongs { BelongsTo pool.now.types result }
{
    match pool.types.node(id).form() {
        TypeForm::Star(part) => *part,
        TypeForm::Plus(part) => *part,
        TypeForm::Opt(part) => *part,
        _ => id,
    }
}

/// Puts the alternatives of what is to be repeated to others.
fn add_stripped(
    alloc: Global,
    pool: &mut Pool,
    made: &mut Alternatives,
    part: TypeId,
) -> Result<(), NoMemory>
    requires made { AreAltParts pool.old.types made.old.parts.items }
    requires part { BelongsTo pool.old.types part }
    ensures strips { OnOk result (AddsStripped (trees pool.old.types made.old.parts.items) (tree pool.old.types part) (trees pool.new.types made.new.parts.items)) }
    ensures made { OnOk result (AreAltParts pool.new.types made.new.parts.items) }
    ensures keeps { GrowsTypes pool.old.types pool.new.types }
{
    let bare = stripped(pool, part);
    let pieces = alt_parts(alloc, pool, bare)?;
    add_alternatives(alloc, pool, made, &pieces)
}

/// The alternatives of what is to be repeated.
fn repeated_parts(alloc: Global, pool: &mut Pool, id: TypeId) -> Result<Vec<TypeId>, NoMemory>
    requires { BelongsTo pool.old.types id }
    ensures same { IfOk result (λ made. MeansSame (Star (alt_of (trees pool.new.types made.items))) (Star (tree pool.old.types id))) }
    ensures made { IfOk result (λ made. AreAltParts pool.new.types made.items) }
    ensures keeps { GrowsTypes pool.old.types pool.new.types }
{
    let inner = stripped(pool, id);
    let parts = alt_parts(alloc, pool, inner)?;
    let mut made = no_alternatives(alloc);
    for part in &parts {
        add_stripped(alloc, pool, &mut made, *part)?;
    }
    Ok(made.parts)
}

/// The type that is the name `Any`. Fails only where memory is refused; the table may have more
/// types then, and keeps its old ones.
pub fn any_type(alloc: Global, pool: &mut Pool) -> Result<TypeId, NoMemory>
    ensures tree { IfOk result (λ id. tree pool.new.types id ≡ Name any_word) }
    ensures belongs { IfOk result (BelongsTo pool.new.types) }
    ensures keeps { GrowsTypes pool.old.types pool.new.types }
{
    name_type(pool, Label::new(alloc, "Any")?)
}

/// The type of what fits the type again and again, or not at all, written short.
///
/// Within a repetition `x*`, `x+` and `x?` are written `x`. Fails only where memory is refused; the
/// table may have more types then, and keeps its old ones.
pub fn star(alloc: Global, pool: &mut Pool, id: TypeId) -> Result<TypeId, NoMemory>
    requires { BelongsTo pool.old.types id }
    ensures same { IfOk result (λ made. MeansSame (tree pool.new.types made) (Star (tree pool.old.types id))) }
    ensures belongs { IfOk result (BelongsTo pool.new.types) }
    ensures keeps { GrowsTypes pool.old.types pool.new.types }
{
    let parts = repeated_parts(alloc, pool, id)?;
    let body = alt_from(pool, parts)?;
    node(pool, TypeForm::Star(body))
}

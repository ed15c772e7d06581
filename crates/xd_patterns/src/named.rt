//! What declared types stand for.

ghost use Rattle.std.specs.Prelude.{IfOk};
ghost use Rattle.std.specs.List.{AllByRecursion};
ghost use Rattle.xd_meaning.specs.KeptFaults.{AllPaired};
ghost use Rattle.xd_syntax.specs.Types.{BelongsTo};
ghost use Rattle.xd_patterns.specs.Named.{StandsForType};
ghost use Rattle.xd_patterns.specs.Sources.{IsDefined, names_in};

use crate::sources::Sources;
use std::alloc::Global;
use xd_doc::NoMemory;
use xd_syntax::{TypeForm, TypeId};

/// The type that a name stands for, and any other type itself.
fn named_type(sources: &Sources<'_>, id: TypeId) -> TypeId
    requires sound { IsDefined sources.now }
    requires belongs { BelongsTo sources.now.types.now id }
    ensures belongs { BelongsTo sources.now.types.now result }
    ensures stands { StandsForType (names_in sources.now) sources.now.types.now id result }
{
    let TypeForm::Name(word) = sources.types.node(id).form() else {
        return id;
    };
    match sources.bodies.find(sources.defs, word) {
        Some(node) => TypeId::of(node),
        None => id,
    }
}

/// The types that names among these stand for, and the others themselves: so all uses of a name
/// have one state.
pub(crate) fn named_types(
    alloc: Global,
    sources: &Sources<'_>,
    ids: &[TypeId],
) -> Result<Vec<TypeId>, NoMemory>
    requires sound { IsDefined sources.now }
    requires belong { AllByRecursion (BelongsTo sources.now.types.now) ids.now }
    ensures belong { IfOk result (λ named. AllByRecursion (BelongsTo sources.now.types.now) named.items) }
    ensures stand { IfOk result (λ named. AllPaired (StandsForType (names_in sources.now) sources.now.types.now) ids.now named.items) }
{
    let mut named = Vec::new(alloc);
    for id in ids {
        named.push(named_type(sources, *id))?;
    }
    Ok(named)
}

//! What the names of a program's types stand for.

ghost use Rattle.std.specs.Prelude.{◌≡◌, IfOk, OnOk};
ghost use Rattle.xd_syntax.specs.Table.{KeepsRows};
ghost use Rattle.xd_syntax.specs.Tree.{any_type};
ghost use Rattle.xd_syntax.specs.Types.{BelongsTo, tree};
ghost use Rattle.xd_match.specs.Meanings.{Means};

use std::alloc::Global;
use xd_base::Place;
use xd_continuations::TypeBodies;
use xd_doc::{Class, Label, NoMemory};
use xd_sound::TypeNames;
use xd_syntax::{Program, TypeForm, TypeId, Types};

/// What the names of a program's types stand for: nodes of a copy of its types, to which those of
/// `Any` are added.
#[derive(Drop)]
pub(crate) struct Meanings {
    pub types: Types,
    pub bodies: TypeBodies,
}

impl Meanings {
    pub(crate) fn new(alloc: Global, program: &Program) -> Result<Self, NoMemory>
        ensures { IfOk result (Means program.now) }
    {
        let mut types = program.types().copy(alloc)?;
        let any = add_any(alloc, &mut types)?;
        let names = TypeNames::new(alloc, program.type_defs())?;
        let bodies = TypeBodies {
            names,
            any: any.at(),
        };
        Ok(Self { types, bodies })
    }
}

/// The type that `Any` stands for, after the others.
fn add_any(alloc: Global, types: &mut Types) -> Result<TypeId, NoMemory>
    ensures keeps { OnOk result (KeepsRows types.old types.new) }
    ensures belongs { IfOk result (BelongsTo types.new) }
    ensures tree { IfOk result (λ any. tree types.new any ≡ any_type) }
{
    let start = Place { line: 1, column: 1 };
    let name = types.add(start, TypeForm::Name(Label::new(alloc, "Any")?))?;
    let all = Class::new(alloc, Vec::new(alloc), true)?;
    let element = types.add(start, TypeForm::Elem(all, name))?;
    let text = types.add(start, TypeForm::Text)?;
    let either = types.add(start, TypeForm::Alt(vec![in alloc; element, text]?))?;
    let any = types.add(start, TypeForm::Star(either))?;
    Ok(any)
}

//! The uses of names outside every label.

ghost use Rattle.std.specs.Prelude.{◌≡◌, ◌<◌, ◌++◌, ◌&&◌, false, length, map, IfOk, OnOk};
ghost use Rattle.std.specs.List.{AllByRecursion};
ghost use Rattle.xd_syntax.specs.Table.{PartsBelow};
ghost use Rattle.xd_syntax.specs.Types.{form_of, type_numbers};
ghost use Rattle.xd_syntax.specs.Kept.{TypeDefStands, type_definition};
ghost use Rattle.xd_rec.specs.Uses.{AreTested, IsListed, alternatives, own_use, parts_of, sequence, test_of, uses_from};

use std::alloc::Global;
use xd_base::Place;
use xd_doc::{Label, NoMemory};
use xd_syntax::{TypeDef, TypeForm, TypeId, Types};

/// A use of a name outside every label, in the definition with this number.
#[derive(Drop)]
pub(crate) struct TopUse {
    pub owner: usize,
    pub name: Label,
    pub place: Place,
    /// Nothing follows it, and no repetition is around it.
    pub is_tail: bool,
    /// Everything before it can be empty.
    pub is_front: bool,
}

/// A type that stands in the definition with this number, outside every label.
#[derive(Clone, Copy)]
pub(crate) struct Part {
    owner: usize,
    at: usize,
    is_tail: bool,
    is_front: bool,
}

/// The uses outside every label of all definitions, in order.
///
/// Parts that wait stand in a list, so no depth is too deep.
pub(crate) fn top_uses(
    alloc: Global,
    types: &Types,
    defs: &[TypeDef],
    marks: &[bool],
) -> Result<Vec<TopUse>, NoMemory>
    requires stand { AllByRecursion (TypeDefStands types.now) defs.now }
    requires tested { AreTested types.now defs.now marks.now }
    ensures { IfOk result (λ uses. uses.items ≡ uses_from (test_of marks.now defs.now) 0 (map (type_definition types.now) defs.now)) }
{
    let mut parts = Vec::new(alloc);
    for (owner, def) in defs.iter().enumerate() {
        parts.push(Part {
            owner,
            at: def.body.at(),
            is_tail: true,
            is_front: true,
        })?;
    }
    let mut uses = Vec::new(alloc);
    while let Some(part) = parts.pop() {
        list_part(types, defs, part, marks, &mut parts, &mut uses)?;
    }
    uses.reverse();
    Ok(uses)
}

/// Lists a part if it is a name, and lets its own parts wait.
fn list_part(
    types: &Types,
    defs: &[TypeDef],
    part: Part,
    marks: &[bool],
    parts: &mut Vec<Part>,
    uses: &mut Vec<TopUse>,
) -> Result<(), NoMemory>
    requires part { part.at < length types.now }
    requires tested { AreTested types.now defs.now marks.now }
    ensures { OnOk result (IsListed (test_of marks.now defs.now) types.now part parts.old.items parts.new.items uses.old.items uses.new.items) }
{
    let node = types.node(TypeId::of(part.at));
    list_name(part, node.place(), node.form(), uses)?;
    push_parts(types, defs, part, node.form(), marks, parts)?;
    Ok(())
}

fn list_name(
    part: Part,
    place: Place,
    form: &TypeForm,
    uses: &mut Vec<TopUse>,
) -> Result<(), NoMemory>
    ensures { OnOk result (uses.new.items ≡ uses.old.items ++ own_use part place (form_of form.now)) }
{
    if let TypeForm::Name(name) = form {
        uses.push(TopUse {
            owner: part.owner,
            name: name.share()?,
            place,
            is_tail: part.is_tail,
            is_front: part.is_front,
        })?;
    }
    Ok(())
}

fn push_parts(
    types: &Types,
    defs: &[TypeDef],
    part: Part,
    form: &TypeForm,
    marks: &[bool],
    parts: &mut Vec<Part>,
) -> Result<(), NoMemory>
    requires parts { PartsBelow (length types.now) (form_of form.now) }
    requires tested { AreTested types.now defs.now marks.now }
    ensures { OnOk result (parts.new.items ≡ parts.old.items ++ parts_of (test_of marks.now defs.now) types.now part (form_of form.now)) }
{
    match form {
        TypeForm::Empty => {}
        TypeForm::Text => {}
        TypeForm::Words(_) => {}
        TypeForm::Name(_) => {}
        TypeForm::Elem(_, _) => {}
        TypeForm::Seq(ids) => push_sequence(types, defs, part, ids, marks, parts)?,
        TypeForm::Alt(ids) => push_alternatives(part, ids, parts)?,
        TypeForm::Star(id) => parts.push(repeated(part, *id))?,
        TypeForm::Plus(id) => parts.push(repeated(part, *id))?,
        TypeForm::Opt(id) => parts.push(Part {
            at: id.at(),
            ..part
        })?,
    }
    Ok(())
}

fn repeated(part: Part, id: TypeId) -> Part
    ensures { result ≡ record { owner = part.owner; at = id.at; is_tail = false; is_front = part.is_front } }
{
    Part {
        at: id.at(),
        is_tail: false,
        ..part
    }
}

fn push_sequence(
    types: &Types,
    defs: &[TypeDef],
    part: Part,
    ids: &[TypeId],
    marks: &[bool],
    parts: &mut Vec<Part>,
) -> Result<(), NoMemory>
    requires ids { AllByRecursion (λ i. i < length types.now) (type_numbers ids.now) }
    requires tested { AreTested types.now defs.now marks.now }
    ensures { OnOk result (parts.new.items ≡ parts.old.items ++ sequence (test_of marks.now defs.now) types.now part.owner part.is_tail part.is_front (type_numbers ids.now)) }
{
    let _count = types.len();
    let _definitions = defs.len();
    let mut rest = ids;
    let mut is_front = part.is_front;
    while let Some((id, others)) = rest.split_first() {
        parts.push(Part {
            owner: part.owner,
            at: id.at(),
            is_tail: both(part.is_tail, others.is_empty()),
            is_front,
        })?;
        is_front = both(is_front, marks[id.at()]);
        rest = others;
    }
    Ok(())
}

fn both(one: bool, two: bool) -> bool
    ensures { result ≡ (one && two) }
{
    one && two
}

fn push_alternatives(part: Part, ids: &[TypeId], parts: &mut Vec<Part>) -> Result<(), NoMemory>
    ensures { OnOk result (parts.new.items ≡ parts.old.items ++ alternatives part (type_numbers ids.now)) }
{
    for id in ids {
        parts.push(Part {
            at: id.at(),
            ..part
        })?;
    }
    Ok(())
}

//! What `Any` stands for.

ghost use Rattle.std.specs.Prelude.{◌≡◌, IfOk};
ghost use Rattle.xd_syntax.specs.Kept.{AddsTypes, program_tree};
ghost use Rattle.xd_syntax.specs.ShallowTables.{IsShallow};
ghost use Rattle.xd_syntax.specs.SoundTables.{IsTypeAt};
ghost use Rattle.xd_syntax.specs.Tree.{any_type};
ghost use Rattle.xd_syntax.specs.Types.{BelongsTo, tree};

use std::alloc::Global;
use xd_base::Place;
use xd_doc::{Class, Label, NoMemory};
use xd_sound::SoundProgram;
use xd_syntax::{TypeForm, TypeId, Types};

/// The type that `Any` stands for, in a table of its own.
fn any_nodes(alloc: Global) -> Result<(Types, TypeId), NoMemory>
    ensures belongs { IfOk result (λ made. BelongsTo made.0 made.1) }
    ensures tree { IfOk result (λ made. tree made.0 made.1 ≡ any_type) }
{
    let start = Place { line: 1, column: 1 };
    let mut types = Types::new(alloc);
    let name = types.add(start, TypeForm::Name(Label::new(alloc, "Any")?))?;
    let all = Class::new(alloc, Vec::new(alloc), true)?;
    let element = types.add(start, TypeForm::Elem(all, name))?;
    let text = types.add(start, TypeForm::Text)?;
    let either = types.add(start, TypeForm::Alt(vec![in alloc; element, text]?))?;
    let any = types.add(start, TypeForm::Star(either))?;
    Ok((types, any))
}

/// The type that `Any` stands for, as a type of the program. Fails only where memory is refused;
/// the program may have more types then, and nothing else in it changes.
pub fn meaning_of_any(alloc: Global, sound: &mut SoundProgram) -> Result<TypeId, NoMemory>
    ensures found { IfOk result (IsTypeAt sound.new.types any_type) }
    ensures adds { AddsTypes sound.old sound.new }
    ensures same { program_tree sound.new ≡ program_tree sound.old }
    ensures shallow { IsShallow sound.old.types → IsShallow sound.new.types }
{
    let (types, any) = any_nodes(alloc)?;
    match sound.adopt(&types, any)? {
        Some(id) => Ok(id),
        None => unreachable!(),
    }
}

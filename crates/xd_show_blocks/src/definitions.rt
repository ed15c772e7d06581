//! The types that a program defines, as text and by their names.

ghost use Rattle.std.specs.Prelude.{◌≡◌, ◌++◌, IfOk, OnOk};
ghost use Rattle.xd_shown.specs.Shown.{defined_names};
ghost use Rattle.xd_syntax.specs.Kept.{program_tree};
ghost use Rattle.xd_syntax.specs.Types.{BelongsTo, tree};
ghost use Rattle.xd_type_laws.specs.DefinitionsText.{definition_line};
ghost use Rattle.xd_show_blocks.specs.Blocks.{shown_text};

use std::alloc::Global;
use xd_doc::{Label, NoMemory};
use xd_report::write_texts;
use xd_sound::SoundProgram;
use xd_syntax::{TypeDef, Types};
use xd_type_text::type_text;

/// The names of the types that the program defines, in the order of its text.
///
/// Fails only where memory is refused.
pub fn type_names(alloc: Global, sound: &SoundProgram) -> Result<Vec<Label>, NoMemory>
    ensures { IfOk result (λ names. names.items ≡ defined_names (program_tree sound.now)) }
{
    let program = sound.program();
    let mut names = Vec::new(alloc);
    for definition in program.type_defs() {
        names.push(definition.name.share()?)?;
    }
    Ok(names)
}

/// Appends a line `type NAME = TYPE` for each type that the program defines, in the order of its
/// text.
///
/// After `NoMemory` some of the lines may stand in `out`.
pub(crate) fn write_definitions(
    alloc: Global,
    sound: &SoundProgram,
    out: &mut Vec<u8>,
) -> Result<(), NoMemory>
    ensures { OnOk result (out.new.items ≡ out.old.items ++ shown_text (program_tree sound.now)) }
{
    let program = sound.program();
    for definition in program.type_defs() {
        write_definition(alloc, program.types(), definition, out)?;
    }
    Ok(())
}

/// Appends the line of one of them.
fn write_definition(
    alloc: Global,
    types: &Types,
    definition: &TypeDef,
    out: &mut Vec<u8>,
) -> Result<(), NoMemory>
    requires { BelongsTo types.now definition.now.body }
    ensures { OnOk result (out.new.items ≡ out.old.items ++ definition_line (definition.now.name, tree types.now definition.now.body)) }
{
    write_texts(&["type ", definition.name.as_str(), " = "], out)?;
    type_text(alloc, types, definition.body, out)?;
    out.push(b'\n')?;
    Ok(())
}

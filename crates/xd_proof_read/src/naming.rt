//! Types, as the goals of a proof text name them.

ghost use Rattle.std.specs.Prelude.{List, map, IfOk};
ghost use Rattle.std.specs.List.{AllByRecursion};
ghost use Rattle.xd_syntax.specs.Table.{Row};
ghost use Rattle.xd_syntax.specs.Types.{BelongsTo, tree};
ghost use Rattle.xd_proof_read.specs.Naming.{GrowsTypes, IsTypeRead, Names, NamesType, NamingStands, SpellsTypeOf};

use std::alloc::Global;
use xd_doc::NoMemory;
use xd_parse::{ParseError, parse_type};
use xd_proof::read_number;
use xd_sound::SoundProgram;
use xd_syntax::{TypeId, Types};

/// How goals name their types.
#[derive(Drop)]
pub(crate) enum Naming {
    /// By the text of the type.
    Spelled,
    /// By the number of the type among these, from 1.
    Numbered(Vec<TypeId>),
}

impl Naming {
    /// The type that the bytes name, if they name one, as a type of the program.
    pub(crate) fn read(
        &self,
        alloc: Global,
        sound: &mut SoundProgram,
        bytes: &[u8],
    ) -> Result<Option<TypeId>, NoMemory>
        requires { NamingStands sound.old.types self.now }
        ensures read { IfOk result (IsTypeRead (Names sound.old self.now) bytes.now sound.new.types) }
        ensures grows { GrowsTypes sound.old sound.new }
    {
        match self {
            Naming::Spelled => read_spelled(alloc, sound, bytes),
            Naming::Numbered(types) => Ok(numbered_type(types, bytes)),
        }
    }
}

/// The type whose text the bytes are, taken into the program. Takes n log n steps for n bytes.
pub(crate) fn read_spelled(
    alloc: Global,
    sound: &mut SoundProgram,
    bytes: &[u8],
) -> Result<Option<TypeId>, NoMemory>
    ensures read { IfOk result (IsTypeRead (SpellsTypeOf sound.old) bytes.now sound.new.types) }
    ensures grows { GrowsTypes sound.old sound.new }
{
    let mut types = Types::new(alloc);
    match parse_type(alloc, &mut types, bytes) {
        Ok(id) => sound.adopt(&types, id),
        Err(ParseError::Fault(_)) => Ok(None),
        Err(ParseError::NoMemory) => Err(NoMemory),
    }
}

/// The type of these whose number the bytes are.
fn numbered_type(types: &[TypeId], bytes: &[u8]) -> Option<TypeId>
    ensures { (rows : List Row) → AllByRecursion (BelongsTo rows) types.now → IsTypeRead (NamesType (map (tree rows) types.now)) bytes.now rows result }
{
    let number = read_number(bytes)?;
    let at = (number - 1) as usize;
    if at < types.len() {
        Some(types[at])
    } else {
        None
    }
}

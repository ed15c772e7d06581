//! A program from its text.

ghost use Rattle.std.specs.Prelude.{IfOk};
ghost use Rattle.xd_syntax.specs.Kept.{program_tree};
ghost use Rattle.xd_syntax.specs.ShallowTables.{IsShallow};
ghost use Rattle.xd_parse_trees.specs.Means.{IsProgramText};

use anyhow::{Result, bail, ensure};
use std::alloc::Global;
use xd_names::resolve;
use xd_parse::parse_program;
use xd_rec::{Soundness, well_formed};
use xd_sound::SoundProgram;

/// The program that a text spells, where it has no faults.
pub fn sound_program(alloc: Global, text: &str) -> Result<SoundProgram>
    ensures program { IfOk result (λ sound. IsProgramText text.now (program_tree sound)) }
    ensures shallow { IfOk result (λ sound. IsShallow sound.types) }
{
    let program = parse_program(alloc, text.as_bytes())?;
    let faults = resolve(alloc, &program)?;
    ensure!(faults.is_empty(), "faults of names");
    match well_formed(alloc, program)? {
        Soundness::Sound(sound) => Ok(sound),
        Soundness::Faults(_) => bail!("faults of recursion"),
    }
}

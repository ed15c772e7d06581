//! Whether the types of a program recur outside tail position or unguarded.
#![tactic(auto)]

ghost use Rattle.std.specs.Prelude.{◌≡◌, ◌<◌, ℕ, List, [], Some, length, map, slice_index_or, IfOk};
ghost use Rattle.std.specs.List.{AllByRecursion};
ghost use Rattle.xd_syntax.specs.NameFaults.{name_faults};
ghost use Rattle.xd_syntax.specs.Program.{FunctionDefinition};
ghost use Rattle.xd_syntax.specs.Kept.{TypeDefStands, program_tree};
ghost use Rattle.xd_sound.specs.Known.{AreKnown, AreKnownTypes};
ghost use Rattle.xd_rec.specs.Names.{AreUnique, program_of};
ghost use Rattle.xd_syntax.specs.RecursionFaults.{AreRecursionFaults};
ghost use Rattle.xd_rec.specs.Soundness.{IsSoundness};

mod components;
mod faults;
pub mod laws;
mod uses;

use crate::components::components;
use crate::faults::{Recursion, add_faults, use_graph};
use crate::uses::top_uses;
use std::alloc::Global;
use xd_doc::NoMemory;
use xd_sound::{KnownTypes, SoundProgram};
use xd_syntax::{Fault, Program, TypeDef, Types, sort_faults};

/// A program without faults of recursion, or the list of these faults.
#[derive(Drop)]
pub enum Soundness {
    /// The program that was given.
    Sound(SoundProgram),
    /// All faults 10 and 11, in order of place, then of number.
    Faults(Vec<Fault>),
}

/// The program, where no type recurs outside tail position or unguarded; else the whole list of the
/// uses that do, in order of place, then of number.
///
/// The program has no faults of names, of numbers of arguments and of linearity: `resolve` of
/// `xd_names` found none. It is given up with the faults, and with `NoMemory`.
///
/// (Uses that reach each other are found by strongly connected components, after Gabow 2000.)
pub fn well_formed(alloc: Global, program: Program) -> Result<Soundness, NoMemory>
    requires { name_faults (program_tree program) ≡ [] }
    ensures { IfOk result (IsSoundness program) }
{
    let known = KnownTypes::new(alloc, program.types(), program.type_defs())?;
    let faults = program_faults(alloc, &program, &known)?;
    if faults.is_empty() {
        let mut sound = SoundProgram::new(alloc, program);
        sound.give_back(known);
        return Ok(Soundness::Sound(sound));
    }
    Ok(Soundness::Faults(faults))
}

fn program_faults(
    alloc: Global,
    program: &Program,
    known: &KnownTypes,
) -> Result<Vec<Fault>, NoMemory>
    requires named { name_faults (program_tree program.now) ≡ [] }
    requires known { AreKnown program.now known.now }
    ensures { IfOk result (λ faults. AreRecursionFaults (program_tree program.now) faults.items) }
{
    recursion_faults(alloc, program.types(), program.type_defs(), known)
}

/// The faults of recursion of these definitions, in order.
fn recursion_faults(
    alloc: Global,
    types: &Types,
    defs: &[TypeDef],
    known: &KnownTypes,
) -> Result<Vec<Fault>, NoMemory>
    requires stand { AllByRecursion (TypeDefStands types.now) defs.now }
    requires unique { AreUnique defs.now }
    requires known { AreKnownTypes types.now defs.now known.now }
    ensures { IfOk result (λ faults. (fs : List FunctionDefinition) → AreRecursionFaults (program_of types.now defs.now fs) faults.items) }
{
    let names = &known.names;
    let uses = top_uses(alloc, types, defs, &known.empty_marks)?;
    let use_chains = use_graph(alloc, defs, names, &uses, false)?;
    let front_chains = use_graph(alloc, defs, names, &uses, true)?;
    let mut faults = Vec::new(alloc);
    let standing = components(alloc, &use_chains)?;
    add_faults(
        defs,
        names,
        &uses,
        &standing,
        Recursion::OutsideTail,
        &mut faults,
    )?;
    let standing = components(alloc, &front_chains)?;
    add_faults(
        defs,
        names,
        &uses,
        &standing,
        Recursion::Unguarded,
        &mut faults,
    )?;
    sort_faults(&mut faults)?;
    Ok(faults)
}

//! Programs from their files.

ghost use Rattle.std.specs.Prelude.{◌≡◌, ◌≤◌, IfOk};
ghost use Rattle.std.specs.List.{AllByRecursion};
ghost use Rattle.xd_base.specs.Outside.{HasRisen};
ghost use Rattle.xd_report.specs.Carries.{CarriesFrom};
ghost use Rattle.xd_syntax.specs.Kept.{program_tree};
ghost use Rattle.xd_syntax.specs.ShallowTables.{IsShallow};
ghost use Rattle.xd_command_steps.specs.Programs.{EndsAtFaults, EndsAtProgram, IsProgram, IsSoundText};
ghost use Rattle.xd_command_steps.specs.DoneSteps.{DoesStep};

use crate::output::{Output, Stop};
use crate::text::{PROGRAM_LIMIT, fetch};
use std::alloc::Global;
use xd_base::Shelf;
use xd_names::resolve;
use xd_parse::{ParseError, parse_program};
use xd_rec::{Soundness, well_formed};
use xd_sound::SoundProgram;

/// The program of a text, where it has no faults. `Stop::Refused` has the lines of its faults,
/// `Stop::NoMemory` comes where memory is refused.
pub fn sound_program(alloc: Global, bytes: &[u8]) -> Result<SoundProgram, Stop>
    ensures step { DoesStep result (EndsAtFaults bytes.now) (λ sound. IsSoundText bytes.now (program_tree sound)) }
    ensures shallow { IfOk result (λ sound. IsShallow sound.types) }
{
    let program = match parse_program(alloc, bytes) {
        Ok(program) => program,
        Err(ParseError::NoMemory) => return Err(Stop::NoMemory),
        Err(ParseError::Fault(fault)) => {
            return Err(Stop::Refused(Output::faults(alloc, &[fault])?));
        }
    };
    let faults = resolve(alloc, &program)?;
    if !faults.is_empty() {
        return Err(Stop::Refused(Output::faults(alloc, &faults)?));
    }
    match well_formed(alloc, program)? {
        Soundness::Sound(sound) => Ok(sound),
        Soundness::Faults(faults) => Err(Stop::Refused(Output::faults(alloc, &faults)?)),
    }
}

/// The program of a file, where it has no faults. `Stop::Refused` has the output that ends the
/// command, `Stop::NoMemory` comes where memory is refused.
pub fn load_program<H: Shelf>(
    alloc: Global,
    file: &str,
    shelf: &mut H,
) -> Result<SoundProgram, Stop>
    ensures step { DoesStep result (EndsAtProgram (H.holds shelf.old) (HasRisen (H.faults shelf.old) (H.faults shelf.new)) file.now) (λ sound. IsProgram (H.holds shelf.old) file.now (program_tree sound)) }
    ensures shallow { IfOk result (λ sound. IsShallow sound.types) }
    ensures same { H.holds shelf.new ≡ H.holds shelf.old }
    ensures never_falls { H.faults shelf.old ≤ H.faults shelf.new }
{
    let text = fetch(alloc, shelf, file, PROGRAM_LIMIT)?;
    sound_program(alloc, &text)
}

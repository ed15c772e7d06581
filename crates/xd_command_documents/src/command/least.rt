//! The command `least`.

ghost use Rattle.std.specs.Prelude.{IfOk};
ghost use Rattle.xd_auto.specs.Automaton.{IsState};
ghost use Rattle.xd_base.specs.Outside.{HasRisen};
ghost use Rattle.xd_syntax.specs.Kept.{program_tree};
ghost use Rattle.xd_command_documents.specs.Least.{AnswersLeast};
ghost use Rattle.xd_command_documents.specs.LeastByState.{TellsLeast};
ghost use Rattle.xd_command_steps.specs.Programs.{AnswersOn};
ghost use Rattle.xd_command_steps.specs.DoneSteps.{DoesAll};

use crate::membership::acceptor;
use std::alloc::Global;
use xd_auto::{Auto, State};
use xd_base::Shelf;
use xd_command_steps::{Output, Stop, load_program};
use xd_doc::{NoMemory, Store};
use xd_least::least_inhabitant;
use xd_sound::SoundProgram;

/// A least document of the state, or that it accepts none.
///
/// What is written has fewer than 2^63 items, since it stands in a vector; so it is a least
/// document.
fn least_of(alloc: Global, auto: &Auto, state: State) -> Result<Output, NoMemory>
    requires { IsState auto.now state }
    ensures { IfOk result (TellsLeast auto.now state) }
{
    let mut store = Store::new(alloc);
    match least_inhabitant(alloc, auto, state, &mut store)? {
        Some(document) => {
            let output = Output::canonical(alloc, &store, document)?;
            let _text = output.text();
            Ok(output)
        }
        None => Output::no(alloc),
    }
}

/// A least document of the type of this name in the sound program.
fn least_named(alloc: Global, sound: &mut SoundProgram, name: &str) -> Result<Output, Stop>
    ensures { DoesAll result (AnswersLeast name.now (program_tree sound.old)) }
{
    let Some(id) = sound.find_type(name)? else {
        return Ok(Output::undefined_type(alloc, name)?);
    };
    let (auto, state) = acceptor(alloc, sound, id)?;
    Ok(least_of(alloc, &auto, state)?)
}

/// A least document of the type of this name in the program of this file.
pub fn least<H: Shelf>(alloc: Global, file: &str, name: &str, shelf: &mut H) -> Result<Output, Stop>
    ensures { DoesAll result (AnswersOn (H.holds shelf.old) (HasRisen (H.faults shelf.old) (H.faults shelf.new)) file.now (AnswersLeast name.now)) }
{
    let mut sound = load_program(alloc, file, shelf)?;
    least_named(alloc, &mut sound, name)
}

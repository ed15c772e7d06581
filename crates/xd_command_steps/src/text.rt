//! Texts from the shelf, within a limit.

ghost use Rattle.std.specs.Prelude.{◌≡◌, ◌<◌, ◌≤◌, ◌+◌, ◌^◌};
ghost use Rattle.xd_base.specs.Outside.{HasRisen};
ghost use Rattle.xd_command_steps.specs.DoneSteps.{DoesStep};
ghost use Rattle.xd_command_steps.specs.Texts.{EndsAtText, IsText};

use crate::output::{Output, Stop};
use std::alloc::Global;
use xd_base::{FetchError, Shelf};

/// The greatest length of a program, in bytes.
pub const PROGRAM_LIMIT: usize = 1 << 20;

/// The greatest length of a document, in bytes.
pub const DOCUMENT_LIMIT: usize = 1 << 24;

/// Fetches a text, asking for one byte more than the limit.
pub fn fetch<H: Shelf>(
    alloc: Global,
    shelf: &mut H,
    name: &str,
    limit: usize,
) -> Result<Vec<u8>, Stop>
    requires { limit < 2 ^ 63 }
    ensures step { DoesStep result (EndsAtText (H.holds shelf.old) (HasRisen (H.faults shelf.old) (H.faults shelf.new)) name.now limit) (λ text. IsText (H.holds shelf.old) name.now limit text.items) }
    ensures same { H.holds shelf.new ≡ H.holds shelf.old }
    ensures never_falls { H.faults shelf.old ≤ H.faults shelf.new }
{
    match shelf.fetch(alloc, name, limit + 1) {
        Ok(text) if text.len() > limit => Err(Stop::Refused(Output::too_long(alloc, name)?)),
        Ok(text) => Ok(text),
        Err(FetchError::Failed | FetchError::Missing) => {
            Err(Stop::Refused(Output::cannot_read(alloc, name)?))
        }
        Err(FetchError::NoMemory) => Err(Stop::NoMemory),
    }
}

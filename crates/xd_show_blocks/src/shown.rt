//! What a state accepts, as text.

ghost use Rattle.std.specs.Prelude.{IfOk};
ghost use Rattle.xd_auto.specs.Automaton.{IsState};
ghost use Rattle.xd_show_blocks.specs.AtStates.{Accepted, IsShownBy};
ghost use Rattle.xd_show_blocks.specs.Blocks.{IsShownText};

use crate::definitions::write_definitions;
use std::alloc::Global;
use xd_auto::{Auto, State};
use xd_doc::{Label, NoMemory};
use xd_show::show;
use xd_shown::Shown;

/// What a state accepts, as text: definitions of types, and the name of the first.
#[derive(Drop)]
pub(crate) struct ShownState {
    pub(crate) start: Label,
    pub(crate) definitions: Vec<u8>,
}

/// Definitions that show what the state accepts, by names that aren't taken.
pub(crate) fn shown_state(
    alloc: Global,
    auto: &Auto,
    state: State,
    taken: &[Label],
) -> Result<ShownState, NoMemory>
    requires { IsState auto.now state }
    ensures { IfOk result (IsShownBy (Accepted auto.now state) taken.now) }
{
    let shown = show(alloc, auto, state, taken)?;
    let mut definitions = Vec::new(alloc);
    write_definitions(alloc, &shown.sound, &mut definitions)?;
    shown.see_text();
    let Shown { start, .. } = shown;
    Ok(ShownState { start, definitions })
}

/// The text of definitions of types that show what the state accepts, by names that aren't taken: a
/// line for each, of which the first is that of the set.
///
/// States that the given one doesn't lead to cost time and change nothing.
/// Fails only where memory is refused.
pub fn shown_text(
    alloc: Global,
    auto: &Auto,
    state: State,
    taken: &[Label],
) -> Result<Vec<u8>, NoMemory>
    requires { IsState auto.now state }
    ensures { IfOk result (λ text. IsShownText (Accepted auto.now state) taken.now text.items) }
{
    let shown = shown_state(alloc, auto, state, taken)?;
    let ShownState { definitions, .. } = shown;
    Ok(definitions)
}

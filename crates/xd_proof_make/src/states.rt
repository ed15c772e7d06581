//! The types of states, each found once.

ghost use Rattle.std.specs.Prelude.{◌≡◌, ◌<◌, length, IfOk, OnOk, Some};
ghost use Rattle.std.specs.List.{AllByRecursion};
ghost use Rattle.xd_auto.specs.Automaton.{Automaton};
ghost use Rattle.xd_heads.specs.CellsView.{CellsView};
ghost use Rattle.xd_heads.specs.Growing.{GrowsTypes};
ghost use Rattle.xd_heads.specs.Mirrors.{IsTypeState, Mirrors};
ghost use Rattle.xd_syntax.specs.Kept.{ProgramTable};
ghost use Rattle.xd_proof_make.specs.Known.{AreKnown, HasKnown, KeepsKnown, known_at};

use std::alloc::Global;
use xd_auto::State;
use xd_doc::NoMemory;
use xd_heads::Cells;
use xd_sound::SoundProgram;
use xd_syntax::TypeId;

/// Finds the type of a state, where that wasn't done before.
pub(crate) fn learn(
    sound: &mut SoundProgram,
    cells: &Cells,
    states: &mut Vec<Option<TypeId>>,
    state: State,
) -> Result<(), NoMemory>
    requires mirrors { (a : Automaton) × Mirrors sound.old cells.now a }
    requires state { IsTypeState cells.now state }
    requires there { state.number < length states.old.items }
    ensures known { AreKnown sound.old cells.now states.old.items → AreKnown sound.new cells.now states.new.items }
    ensures has { OnOk result (HasKnown states.new.items state) }
    ensures keeps { KeepsKnown states.old.items states.new.items }
    ensures grows { GrowsTypes sound.old sound.new }
{
    if states[state.number()].is_none() {
        let id = cells.state_type(sound, state)?;
        states[state.number()] = Some(id);
    }
    Ok(())
}

/// Finds the types of several states.
pub(crate) fn learn_all(
    sound: &mut SoundProgram,
    cells: &Cells,
    states: &mut Vec<Option<TypeId>>,
    wanted: &[State],
) -> Result<(), NoMemory>
    requires mirrors { (a : Automaton) × Mirrors sound.old cells.now a }
    requires state { AllByRecursion (IsTypeState cells.now) wanted.now }
    requires there { AllByRecursion (λ s. s.number < length states.old.items) wanted.now }
    ensures known { AreKnown sound.old cells.now states.old.items → AreKnown sound.new cells.now states.new.items }
    ensures has { OnOk result (AllByRecursion (HasKnown states.new.items) wanted.now) }
    ensures keeps { KeepsKnown states.old.items states.new.items }
    ensures grows { GrowsTypes sound.old sound.new }
{
    for state in wanted {
        learn(sound, cells, states, *state)?;
    }
    Ok(())
}

/// No type of so many states.
pub(crate) fn nothing_known(alloc: Global, count: usize) -> Result<Vec<Option<TypeId>>, NoMemory>
    ensures sized { IfOk result (λ states. length states.items ≡ count) }
    ensures known { IfOk result (λ states. (p : ProgramTable) (c : CellsView) → AreKnown p c states.items) }
{
    let mut states = Vec::new(alloc);
    for _ in 0..count {
        states.push(None)?;
    }
    Ok(states)
}

/// The type of a state.
pub(crate) fn type_of(states: &[Option<TypeId>], state: State) -> TypeId
    requires { HasKnown states.now state }
    ensures { known_at states.now state ≡ Some (Some result) }
{
    match states[state.number()] {
        Some(id) => id,
        None => unreachable!(),
    }
}

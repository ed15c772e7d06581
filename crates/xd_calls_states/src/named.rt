//! States for several types of a program, in one automaton.

ghost use Rattle.std.specs.Prelude.{◌≡◌, [], IfOk, OnOk};
ghost use Rattle.std.specs.List.{AllByRecursion};
ghost use Rattle.xd_auto.specs.Automaton.{IsState};
ghost use Rattle.xd_heads.specs.Mirrors.{Mirrors};
ghost use Rattle.xd_syntax.specs.Types.{BelongsTo};
ghost use Rattle.xd_calls_goals.specs.declared.named.NamedState.{NamedState};

use std::alloc::Global;
use xd_auto::{Auto, State};
use xd_calls_goals::NamedState;
use xd_calls_lines::{Call, CallError};
use xd_calls_programs::{find_type, program_of};
use xd_heads::{Cells, compile_type};
use xd_sound::SoundProgram;
use xd_syntax::TypeId;

/// The types of two names.
fn types_of(sound: &mut SoundProgram, one: &str, two: &str) -> Result<(TypeId, TypeId), CallError>
    ensures one { IfOk result (λ ids. BelongsTo sound.new.types ids.0) }
    ensures two { IfOk result (λ ids. BelongsTo sound.new.types ids.1) }
{
    let first = find_type(sound, one)?;
    let second = find_type(sound, two)?;
    Ok((first, second))
}

/// States for the types that the call's words of these numbers name, in one automaton.
pub fn states_of(call: &Call<'_>, one: usize, two: usize) -> Result<(Auto, State, State), CallError>
    ensures one { IfOk result (λ made. IsState made.0 made.1) }
    ensures two { IfOk result (λ made. IsState made.0 made.2) }
{
    let first = call.word(one)?;
    let second = call.word(two)?;
    states_in(call, first, second)
}

/// States for the types of two names of the call's program.
fn states_in(call: &Call<'_>, one: &str, two: &str) -> Result<(Auto, State, State), CallError>
    ensures one { IfOk result (λ made. IsState made.0 made.1) }
    ensures two { IfOk result (λ made. IsState made.0 made.2) }
{
    let mut sound = program_of(call)?;
    states_for(call.alloc, &mut sound, one, two)
}

/// The same of this program.
fn states_for(
    alloc: Global,
    sound: &mut SoundProgram,
    one: &str,
    two: &str,
) -> Result<(Auto, State, State), CallError>
    ensures one { IfOk result (λ made. IsState made.0 made.1) }
    ensures two { IfOk result (λ made. IsState made.0 made.2) }
{
    let (left, right) = types_of(sound, one, two)?;
    let mut auto = Auto::new(alloc);
    let (first, second) = compile_into(alloc, sound, &mut auto, left, right)?;
    Ok((auto, first, second))
}

/// Puts states for these types into an automaton without states.
fn compile_into(
    alloc: Global,
    sound: &mut SoundProgram,
    auto: &mut Auto,
    left: TypeId,
    right: TypeId,
) -> Result<(State, State), CallError>
    requires left { BelongsTo sound.old.types left }
    requires right { BelongsTo sound.old.types right }
    requires empty { auto.old ≡ [] }
    ensures one { IfOk result (λ made. IsState auto.new made.0) }
    ensures two { IfOk result (λ made. IsState auto.new made.1) }
{
    let mut cells = Cells::new(alloc);
    compile_both(alloc, sound, &mut cells, auto, left, right)
}

/// Puts states for these types into the automaton.
fn compile_both(
    alloc: Global,
    sound: &mut SoundProgram,
    cells: &mut Cells,
    auto: &mut Auto,
    left: TypeId,
    right: TypeId,
) -> Result<(State, State), CallError>
    requires left { BelongsTo sound.old.types left }
    requires right { BelongsTo sound.old.types right }
    requires mirrors { Mirrors sound.old cells.old auto.old }
    ensures one { IfOk result (λ made. IsState auto.new made.0) }
    ensures two { IfOk result (λ made. IsState auto.new made.1) }
{
    let first = compile_type(alloc, sound, cells, auto, left)?;
    let second = compile_type(alloc, sound, cells, auto, right)?;
    Ok((first, second))
}

/// States for the types that the call's words name, in one automaton.
pub fn named_states<'a>(call: &Call<'a>) -> Result<(Auto, Vec<NamedState<'a>>), CallError>
    ensures { IfOk result (λ made. AllByRecursion (λ (n : NamedState). IsState made.0 n.state) made.1.items) }
{
    let mut sound = program_of(call)?;
    named_states_of(call, &mut sound)
}

/// The same of the types of this program.
fn named_states_of<'a>(
    call: &Call<'a>,
    sound: &mut SoundProgram,
) -> Result<(Auto, Vec<NamedState<'a>>), CallError>
    ensures { IfOk result (λ made. AllByRecursion (λ (n : NamedState). IsState made.0 n.state) made.1.items) }
{
    let mut auto = Auto::new(call.alloc);
    let states = name_states(call, sound, &mut auto)?;
    Ok((auto, states))
}

/// The same in this automaton, which has no states yet.
fn name_states<'a>(
    call: &Call<'a>,
    sound: &mut SoundProgram,
    auto: &mut Auto,
) -> Result<Vec<NamedState<'a>>, CallError>
    requires { auto.old ≡ [] }
    ensures { IfOk result (λ states. AllByRecursion (λ (n : NamedState). IsState auto.new n.state) states.items) }
{
    let mut cells = Cells::new(call.alloc);
    let mut states = Vec::new(call.alloc);
    name_each(call, sound, &mut cells, auto, &mut states)?;
    Ok(states)
}

/// Puts a state for each of the types after the others.
fn name_each<'a>(
    call: &Call<'a>,
    sound: &mut SoundProgram,
    cells: &mut Cells,
    auto: &mut Auto,
    states: &mut Vec<NamedState<'a>>,
) -> Result<(), CallError>
    requires mirrors { Mirrors sound.old cells.old auto.old }
    requires states { AllByRecursion (λ (n : NamedState). IsState auto.old n.state) states.old.items }
    ensures { OnOk result (AllByRecursion (λ (n : NamedState). IsState auto.new n.state) states.new.items) }
{
    for name in call.behind.split_whitespace() {
        name_state(call.alloc, sound, cells, auto, states, name)?;
    }
    Ok(())
}

/// Puts a state for the type of this name after the others.
fn name_state<'a>(
    alloc: Global,
    sound: &mut SoundProgram,
    cells: &mut Cells,
    auto: &mut Auto,
    states: &mut Vec<NamedState<'a>>,
    name: &'a str,
) -> Result<(), CallError>
    requires mirrors { Mirrors sound.old cells.old auto.old }
    requires states { AllByRecursion (λ (n : NamedState). IsState auto.old n.state) states.old.items }
    ensures mirrors { OnOk result (Mirrors sound.new cells.new auto.new) }
    ensures states { OnOk result (AllByRecursion (λ (n : NamedState). IsState auto.new n.state) states.new.items) }
{
    let id = find_type(sound, name)?;
    let state = compile_type(alloc, sound, cells, auto, id)?;
    states.push(NamedState { name, state })?;
    Ok(())
}

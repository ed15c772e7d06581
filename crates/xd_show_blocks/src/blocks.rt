//! What the variables of a program's clauses may be, as text.

ghost use Rattle.std.specs.Prelude.{◌≡◌, ◌++◌, IfOk, OnOk};
ghost use Rattle.std.specs.List.{AllByRecursion};
ghost use Rattle.xd_auto.specs.Automaton.{IsState};
ghost use Rattle.xd_syntax.specs.Kept.{program_tree};
ghost use Rattle.xd_variables.specs.Bound.{reading_of};
ghost use Rattle.xd_variables.specs.declared.variables.BoundVariable.{BoundVariable as Found};
ghost use Rattle.xd_show_blocks.specs.AtStates.{Accepted, AddsBlock, AreShownBy, HasBlocks, IsShownBy, text_of_block};
ghost use Rattle.xd_show_blocks.specs.Blocks.{AreBlocks};

use crate::definitions::type_names;
use crate::shown::{ShownState, shown_state};
use std::alloc::Global;
use std::collections::BTreeMap;
use xd_auto::{Auto, State, trim};
use xd_doc::{Label, NoMemory};
use xd_report::{write_place_front, write_texts};
use xd_sound::Checked;
use xd_variables::{Bound, BoundVariable, Ways, bound_variables};

/// Appends the block of a variable whose state is shown so.
fn write_block(
    variable: &BoundVariable,
    shown: &ShownState,
    out: &mut Vec<u8>,
) -> Result<(), NoMemory>
    ensures { OnOk result (out.new.items ≡ out.old.items ++ text_of_block variable.now shown.now) }
{
    write_place_front(variable.place, out)?;
    write_texts(
        &[
            "variable ",
            variable.word.as_str(),
            " as ",
            shown.start.as_str(),
            "\n",
        ],
        out,
    )?;
    out.extend_from_slice(&shown.definitions)?;
    Ok(())
}

/// Definitions that show what the state accepts, from the states alone that it leads to.
fn shown_apart(
    alloc: Global,
    auto: &Auto,
    state: State,
    taken: &[Label],
) -> Result<ShownState, NoMemory>
    requires { IsState auto.now state }
    ensures { IfOk result (IsShownBy (Accepted auto.now state) taken.now) }
{
    let (part, state) = trim(alloc, auto, state)?;
    shown_state(alloc, &part, state, taken)
}

/// Appends the block of a variable of this automaton, by names that aren't taken. A state that was
/// shown before is not shown anew.
fn add_block(
    alloc: Global,
    auto: &Auto,
    variable: &BoundVariable,
    taken: &[Label],
    states: &mut BTreeMap<usize, ShownState>,
    out: &mut Vec<u8>,
) -> Result<(), NoMemory>
    requires state { IsState auto.now variable.now.state }
    requires states { AreShownBy auto.now taken.now states.old }
    ensures block { OnOk result (AddsBlock auto.now taken.now variable.now out.old.items out.new.items) }
    ensures states { OnOk result (AreShownBy auto.now taken.now states.new) }
{
    let number = variable.state.number();
    if let Some(shown) = states.get(&number) {
        write_block(variable, shown, out)?;
        return Ok(());
    }
    let shown = shown_apart(alloc, auto, variable.state, taken)?;
    write_block(variable, &shown, out)?;
    states.insert(number, shown)?;
    Ok(())
}

/// The blocks of these variables, in their order.
fn blocks_of(alloc: Global, bound: &Bound, taken: &[Label]) -> Result<Vec<u8>, NoMemory>
    requires { AllByRecursion (λ (x : Found). IsState bound.now.auto x.state) bound.now.variables.items }
    ensures { IfOk result (λ text. HasBlocks bound.now.auto taken.now bound.now.variables.items text.items) }
{
    let mut text = Vec::new(alloc);
    let mut states = BTreeMap::new(alloc);
    for variable in &bound.variables {
        add_block(alloc, &bound.auto, variable, taken, &mut states, &mut text)?;
    }
    Ok(text)
}

/// What each variable of the clauses of the program's matches may be, by all whole ways of patterns
/// or by first matches.
///
/// A block for each, in order of place: a line `LINE:COLUMN: variable WORD as START`, and after it
/// a line for each definition of the types that show what the variable may be, by names that no
/// type of the program has. Without a variable the text is the line `no variables`. Fails only
/// where memory is refused.
pub fn variable_blocks(alloc: Global, checked: &Checked, ways: Ways) -> Result<Vec<u8>, NoMemory>
    ensures { IfOk result (λ text. AreBlocks (reading_of ways) (program_tree checked.now) text.items) }
{
    let taken = type_names(alloc, checked.sound())?;
    let bound = bound_variables(alloc, checked, ways)?;
    if bound.variables.is_empty() {
        return Ok(Vec::from_slice(alloc, b"no variables\n")?);
    }
    blocks_of(alloc, &bound, &taken)
}

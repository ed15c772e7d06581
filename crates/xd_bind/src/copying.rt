//! Copies of whole automata.

ghost use Rattle.std.specs.Prelude.{◌≡◌, IfOk, OnOk, length};
ghost use Rattle.xd_auto.specs.declared.auto.State.{State as StateView};
ghost use Rattle.xd_auto.specs.Automaton.{IsState, moves_at, no_moves};
ghost use Rattle.xd_bind.specs.Changes.{IsChange, with_labels, with_texts};

use std::alloc::Global;
use xd_auto::{Auto, State};
use xd_doc::NoMemory;

/// The states of an automaton without their moves.
fn bare(alloc: Global, auto: &Auto) -> Result<Auto, NoMemory>
    ensures count { IfOk result (λ made. length made ≡ length auto.now) }
    ensures bare { IfOk result (λ made. (s : StateView) → IsState auto.now s → moves_at made s ≡ no_moves (moves_at auto.now s).last) }
{
    let mut made = Auto::new(alloc);
    for number in 0..auto.len() {
        made.add_state(auto.is_last(auto.state(number)))?;
    }
    Ok(made)
}

/// Gives the same state of an automaton with as many states its moves on an element, too.
fn copy_labels(made: &mut Auto, auto: &Auto, state: State) -> Result<(), NoMemory>
    requires state { IsState auto.now state }
    requires count { length made.old ≡ length auto.now }
    ensures { OnOk result (IsChange made.old made.new state (with_labels (moves_at auto.now state).labels (moves_at made.old state))) }
{
    for step in auto.label_moves(state) {
        made.add_label_move(state, step.class.share()?, step.content, step.rest)?;
    }
    Ok(())
}

/// The same of its moves on a text.
fn copy_texts(made: &mut Auto, auto: &Auto, state: State) -> Result<(), NoMemory>
    requires state { IsState auto.now state }
    requires count { length made.old ≡ length auto.now }
    ensures { OnOk result (IsChange made.old made.new state (with_texts (moves_at auto.now state).texts (moves_at made.old state))) }
{
    for step in auto.text_moves(state) {
        made.add_text_move(state, step.words.share()?, step.rest)?;
    }
    Ok(())
}

/// An automaton with the same states and moves. Fails only where memory is refused.
pub fn copied(alloc: Global, auto: &Auto) -> Result<Auto, NoMemory>
    ensures { IfOk result (λ made. made ≡ auto.now) }
{
    let mut made = bare(alloc, auto)?;
    for number in 0..auto.len() {
        let state = auto.state(number);
        copy_labels(&mut made, auto, state)?;
        copy_texts(&mut made, auto, state)?;
    }
    Ok(made)
}

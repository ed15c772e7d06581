//! States that accept every document.

ghost use Rattle.std.specs.Prelude.{◌≡◌, ◌+◌, true, length, IfOk, OnOk};
ghost use Rattle.xd_doc.specs.Document.{Document};
ghost use Rattle.xd_auto.specs.Automaton.{Extends, accepts};
ghost use Rattle.xd_auto.specs.Universal.{IsUniversal};

use crate::auto::{Auto, State};
use std::alloc::Global;
use xd_doc::{Class, NoMemory, Words};

/// Adds a state that accepts every document, by one move on an element and one on a text, each back
/// to itself.
///
/// Fails only where memory is refused. The automaton keeps its states, and may have one more.
pub fn add_universal(alloc: Global, auto: &mut Auto) -> Result<State, NoMemory>
    ensures universal { IfOk result (IsUniversal auto.new) }
    ensures accepted { IfOk result (λ state. (d : Document) → accepts auto.new d state ≡ true) }
    ensures count { OnOk result (length auto.new ≡ length auto.old + 1) }
    ensures extends { Extends auto.old auto.new }
{
    let labels = Class::new(alloc, Vec::new(alloc), true)?;
    let texts = Words::new(alloc, Vec::new(alloc), true)?;
    let state = auto.add_state(true)?;
    auto.add_label_move(state, labels, state, state)?;
    auto.add_text_move(state, texts, state)?;
    Ok(state)
}

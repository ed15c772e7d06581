//! States that must refuse.

ghost use Rattle.std.specs.Prelude.{◌≡◌, length, IfOk};
ghost use Rattle.xd_doc.specs.Document.{Document};
ghost use Rattle.xd_auto.specs.declared.auto.State.{State};
ghost use Rattle.xd_auto.specs.Automaton.{accepts};
ghost use Rattle.xd_boole.specs.Meaning.{TellSame};
ghost use Rattle.xd_boole.specs.Universal.{MarkUniversal};

use crate::merging::merged;
use crate::universal::universal_states;
use std::alloc::Global;
use xd_auto::Auto;
use xd_doc::NoMemory;

/// What is taken away: states of an automaton, and of each whether it is known to accept
/// everything.
#[derive(Drop)]
pub struct Taken {
    pub auto: Auto,
    pub universal: Vec<bool>,
}

/// The states of an automaton as what is taken away: those that are like each other are made one.
/// Fails only where memory is refused.
pub fn taken_from(alloc: Global, part: &Auto) -> Result<Taken, NoMemory>
    ensures count { IfOk result (λ taken. length taken.auto ≡ length part.now) }
    ensures same { IfOk result (λ taken. (d : Document) (s : State) → accepts taken.auto d s ≡ accepts part.now d s) }
    ensures moves { IfOk result (λ taken. TellSame part.now taken.auto) }
    ensures universal { IfOk result (λ taken. MarkUniversal taken.auto taken.universal.items) }
{
    let auto = merged(alloc, part)?;
    let universal = universal_states(alloc, &auto)?;
    Ok(Taken { auto, universal })
}

//! What a walk over expressions has found.

ghost use Rattle.std.specs.Prelude.{◌≡◌, [], ◌∷◌, ◌++◌, OnOk};
ghost use Rattle.xd_check_steps.specs.Known.{IsKnown};

use crate::known::Known;
use crate::lines::FoundLine;
use std::alloc::Global;
use std::mem;
use xd_auto::{Auto, State};
use xd_base::Place;
use xd_doc::{NoMemory, Store};
use xd_syntax::ExprId;

/// A match that was met, and a state of the walk's automaton for its scrutinee.
#[derive(Clone, Copy)]
pub struct MetMatch {
    /// The match.
    pub expr: ExprId,
    /// The place of the match.
    pub place: Place,
    /// The state that accepts what the scrutinee may be where the match stands.
    pub state: State,
}

/// What a walk over expressions has found: what it knows of the states, and the lines and the
/// matches so far. A match stands before those in its scrutinee.
#[derive(Drop)]
pub struct Findings {
    pub known: Known,
    pub lines: Vec<FoundLine>,
    pub met: Vec<MetMatch>,
}

impl Findings {
    /// Nothing is found yet.
    pub fn new(alloc: Global, auto: &Auto, store: &Store) -> Self
        ensures known { IsKnown auto.now store.now result.known }
        ensures lines { result.lines.items ≡ [] }
        ensures met { result.met.items ≡ [] }
    {
        Self {
            known: Known::new(alloc, auto, store),
            lines: Vec::new(alloc),
            met: Vec::new(alloc),
        }
    }
}

/// Puts earlier matches and then this one before those that were met inside its scrutinee.
///
/// After `NoMemory` nothing is said of the list.
pub fn meet_before(
    earlier: Vec<MetMatch>,
    found: MetMatch,
    inside: &mut Vec<MetMatch>,
) -> Result<(), NoMemory>
    ensures { OnOk result (inside.new.items ≡ earlier.items ++ found ∷ inside.old.items) }
{
    let mut met = mem::replace(inside, earlier);
    inside.push(found)?;
    inside.append(&mut met)?;
    Ok(())
}

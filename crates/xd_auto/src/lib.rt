//! Tree automata over documents: acceptance, and operations that are exact on what states accept.
#![tactic(auto)]

mod auto;
mod key;
mod kind;
mod known;
mod leading;
mod marks;
mod membership;
mod universal;

pub use auto::{Auto, LabelMove, Move, State, TextMove, trim};
pub use key::StateKey;
pub use kind::MoveKind;
pub use leading::{Ends, Leads};
pub use membership::{Answers, Scratch, accepts_kept, member};
pub use universal::add_universal;

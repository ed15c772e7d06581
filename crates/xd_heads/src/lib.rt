//! Heads of types, and types as states of automata.
#![tactic(auto)]

mod compile;
mod lister;
mod listing;
mod states;
mod typed;
mod types;

pub use lister::{HeadLister, NumberedHead, numbers_tell};
pub use listing::{Head, HeadKind, heads};
pub use types::{Cells, compile_type, mirrors_stay};

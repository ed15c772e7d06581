//! The type of a state of an automaton, where types for the contents are known.
#![tactic(auto)]

mod bundles;
mod places;
mod reduce;
mod rounds;
mod rows;
mod solve;
mod states;
mod summands;
mod sums;
mod weights;

pub use places::{Level, level_of};
pub use states::state_type;

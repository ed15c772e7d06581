//! What variables may be, over points of a state, a pattern and states that refuse.
#![tactic(auto)]

mod alike;
mod blocks;
mod free;
mod given;
mod marks;
mod outline;
mod owner;
mod projecting;
mod tells;
mod union;

pub use alike::alike_states;
pub use given::{bindings, first_bindings};
pub use owner::PatternVariables;
pub use projecting::project;
pub use tells::TellsVariables;

//! Programs without faults: what is known of their names and types, and types that are added to
//! them.
#![tactic(auto)]

mod adopt;
mod empty;
mod graph;
mod known;
mod sound;
mod type_names;
mod waiting;

pub use graph::Graph;
pub use known::KnownTypes;
pub use sound::{Checked, SoundProgram, parameter_of_main};
pub use type_names::TypeNames;

//! Points: what a state of an automaton and a state of a pattern accept together, and earlier
//! states refuse.
#![tactic(auto)]

mod automata;
pub mod laws;
mod moves;
mod operations;
mod patterns;
mod placing;
mod points;
mod steps;
mod table;

pub use operations::{minus, product};
pub use patterns::PatternStates;
pub use points::PointParts;
pub use table::PointTable;

//! A state of an automaton as definitions of types.
#![tactic(auto)]

mod bodies;
mod contents;
mod flags;
mod plan;
mod states;
mod uses;
mod walk;

pub use states::show;

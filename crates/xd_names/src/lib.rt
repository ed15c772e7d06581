//! Faults of names, of numbers of arguments, and of variables that aren't linear.
#![tactic(auto)]

mod arities;
mod duplicates;
mod expressions;
mod linear;
mod names;
mod program;
mod scope;
mod types;
mod words;

pub use program::resolve;

//! What the variables of a program's clauses may be.
#![tactic(auto)]

mod binders;
pub mod laws;
mod reader;
mod variables;

pub use variables::{Bound, BoundVariable, Ways, bound_variables};

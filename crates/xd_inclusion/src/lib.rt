//! Inclusion of types: a proof text, or a least document that separates them.
#![tactic(auto)]

mod compare;
mod states;

pub use compare::{Inclusion, compare_types};

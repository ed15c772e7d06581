//! Definitions of types that show a set of documents, and their names.
#![tactic(auto)]

mod definitions;
mod names;
#[cfg(test)]
mod tests;

pub use definitions::{Shown, none_around};
pub use names::free_names;

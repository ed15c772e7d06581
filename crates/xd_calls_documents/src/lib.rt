//! Calls about documents, automata and lines of faults: what the calls work on, and where each is
//! made.
#![tactic(auto)]

mod automata;
mod classes;
mod documents;
mod fixture;
mod named;
mod reports;

pub use crate::fixture::DocumentFixture;

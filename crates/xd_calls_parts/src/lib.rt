//! Calls of the parts that other calls are made of: types that are made once, and sets and cases of
//! states.
#![tactic(auto)]

mod fixture;
mod pool;
mod solved;
mod states;

pub use crate::fixture::PartFixture;

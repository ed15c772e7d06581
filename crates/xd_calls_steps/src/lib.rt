//! Calls of the steps that commands share: what they read from a shelf, and the outputs that end
//! them.
#![tactic(auto)]

mod fixture;
mod loads;
mod outputs;

pub use crate::fixture::StepFixture;

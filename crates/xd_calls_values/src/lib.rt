//! Calls about what a program that the check accepts means on documents.
#![tactic(auto)]

mod fixture;
mod values;

pub use crate::fixture::ValueFixture;

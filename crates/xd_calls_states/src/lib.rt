//! Calls about types, their states and the inclusion of these.
#![tactic(auto)]

mod fixture;
mod inclusions;
mod named;
mod states;
mod streams;
mod types;

pub use crate::fixture::StateFixture;

//! Calls about the clauses of a match: what comes to them, and what their variables may be.
#![tactic(auto)]

mod clauses;
mod fixture;
mod patterns;
mod tracks;

pub use crate::fixture::ClauseFixture;

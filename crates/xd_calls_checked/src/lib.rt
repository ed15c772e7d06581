//! Calls of the check, and about the matches of programs that it accepts.
#![tactic(auto)]

mod fixture;
mod matches;
mod programs;

pub use crate::fixture::CheckedFixture;
pub use crate::programs::checked_of;

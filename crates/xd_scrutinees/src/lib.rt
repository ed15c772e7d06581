//! What the scrutinees of a program's matches may be.
#![tactic(auto)]

mod matches;

pub use matches::{MatchStates, Scrutinee, met_matches, scrutinees};
pub use xd_check_steps::MetMatch;

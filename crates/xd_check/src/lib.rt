//! What the expressions of a program may be, and all its faults of matches, arguments and results.
//!
//! Calls fail only where memory is refused.
#![tactic(auto)]

mod checker;
mod expressions;
mod outcome;

pub use checker::Checker;
pub use outcome::{CheckOutcome, check};

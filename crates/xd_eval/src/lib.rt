//! Evaluation of accepted programs on fuel, by a machine with a stack of its own.
#![tactic(auto)]

mod entering;
mod evaluation;
mod frame;
mod functions;
mod joins;
mod machine;
mod matching;
mod resuming;

pub use evaluation::{Outcome, evaluate, evaluate_with};
pub use matching::Matching;

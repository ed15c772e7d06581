//! Proofs of inclusions between types, checked.
#![tactic(auto)]

mod atoms;
mod cases;
mod check;
mod checker;
mod heads;
mod leaves;
mod path;
mod verdict;
mod walk;

pub use checker::accepts;
pub use verdict::{ProofVerdict, Reason};

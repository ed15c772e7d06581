//! Proofs of inclusions between types, as they are kept once they are read.
#![tactic(auto)]

mod atoms;
mod cases;
mod cutting;
mod keywords;
pub mod laws;
mod numbers;
mod proof;
mod quotes;
mod steps;

pub use cases::{ReadCase, read_case};
pub use cutting::{Lines, before_mark, cut_lines, split_words};
pub use keywords::{behind_word, read_numbered};
pub use numbers::read_number;
pub use proof::{Proof, ProofGoal};
pub use steps::Step;
pub use xd_rules::Atom;

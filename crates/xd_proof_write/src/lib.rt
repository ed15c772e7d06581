//! Proofs of inclusions, written: the second format of proof texts, and the line of a claim.
#![tactic(auto)]

mod claim;
mod laws;
mod lines;
mod numbers;
mod second;

pub use claim::claim_line;
pub use laws::second_texts_read_back;
pub use second::second_text;

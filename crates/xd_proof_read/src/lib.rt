//! Proof texts, in both formats, read whole.
#![tactic(auto)]

mod error;
mod formats;
mod goals;
mod naming;
mod read;
mod said;
mod stages;

pub use error::ProofError;
pub use read::read_proof;

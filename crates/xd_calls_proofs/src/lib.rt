//! Calls that make proofs of inclusions.
#![tactic(auto)]

mod fixture;
mod made;
mod states;

pub use crate::fixture::ProofFixture;

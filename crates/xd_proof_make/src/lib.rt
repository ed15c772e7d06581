//! Proofs of inclusions, made from a table of goals.
#![tactic(auto)]

mod cases;
mod goals;
mod make;
mod places;
mod reach;
mod states;
mod steps;
mod text;

pub use make::proof_of;
pub use text::proof_text;

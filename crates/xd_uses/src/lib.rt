//! Chains of calls of the libraries, as callers write them: from texts to programs, decisions, claims,
//! membership and values.
#![tactic(auto)]

mod claims;
mod documents;
mod programs;
#[cfg(test)]
mod tests;
mod types;
mod values;

pub use crate::claims::{proved_claim, upgraded};
pub use crate::documents::{fits, fits_type};
pub use crate::programs::sound_program;
pub use crate::types::compare_texts;
pub use crate::values::{Value, is_input, value_of};

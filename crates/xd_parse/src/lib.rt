//! Programs and types from bytes.
#![tactic(auto)]

mod definitions;
mod expressions;
mod joining;
pub mod laws;
mod parse;

pub use parse::{ParseError, parse_program, parse_type};

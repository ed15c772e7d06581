//! Calls about what programs are read from and read into: texts, tokens, names, programs and types.
#![tactic(auto)]

mod fixture;
mod lexing;
mod naming;
mod outside;
mod programs;

pub use crate::fixture::ProgramFixture;

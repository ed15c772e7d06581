//! First matches: the patterns of a program, each compiled once, and what they bind.
#![tactic(auto)]

mod binding;
mod compiled;
mod front;
mod matcher;
mod matchers;
mod meanings;
mod tails;

pub use matchers::{Matchers, first_way};

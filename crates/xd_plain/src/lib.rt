//! Slow and short programs that compute the definitions: reference implementations.
#![tactic(auto)]

mod document;
mod evaluate;
mod fits;
mod program;
mod tree;
mod ways;

pub use document::PlainDocument;
pub use evaluate::{NoValue, Valued, meaning, value};
pub use fits::{Split, all_splits, fits_within};
pub use program::{
    PlainArguments, PlainClauses, PlainExpression, PlainFunction, PlainParameter, PlainProgram,
};
pub use tree::{PlainDefinition, PlainTree, body_of};
pub use ways::{PlainBinding, PlainWay, first_within, ways_within};

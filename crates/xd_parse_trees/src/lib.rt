//! Types and patterns from tokens.
#![tactic(auto)]

mod classes;
mod cursor;
mod nodes;
mod parts;
mod patterns;
mod queue;
mod trees;
mod types;

pub use cursor::{Cursor, Quoted, Word};
pub use patterns::read_pattern_seq;
pub use queue::{join, queue_of};
pub use types::read_type;

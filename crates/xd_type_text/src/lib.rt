//! The canonical text of a type.
#![tactic(auto)]

mod classes;
mod level;
mod waiting;
mod write;

pub use write::type_text;

//! Sets of documents as texts that define types: what variables may be, in blocks.
#![tactic(auto)]

mod blocks;
mod definitions;
mod shown;

pub use blocks::variable_blocks;
pub use definitions::type_names;
pub use shown::shown_text;

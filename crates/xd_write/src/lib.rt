//! The canonical text of a document.
#![tactic(auto)]

mod text;
mod write;

pub use text::write_text;
pub use write::write_document;

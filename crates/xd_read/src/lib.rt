//! Reading of documents.
#![tactic(auto)]

mod error;
mod laws;
mod moves;
mod parts;
mod read;
mod reader;

pub use error::ReadError;
pub use laws::reading_laws;
pub use read::read_document;

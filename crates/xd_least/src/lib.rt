//! Least documents of states.
#![tactic(auto)]

mod document;
mod finding;
mod known;
mod least;
mod line;
mod sizes;

pub use document::LeastDocument;
pub use known::LeastInhabitants;
pub use least::{least_inhabitant, least_inhabitants};
pub use sizes::document_size;

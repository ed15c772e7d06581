//! Documents: labels, texts, classes of labels, and the store that keeps documents as linked nodes.
#![tactic(auto)]

mod class;
mod error;
mod label;
mod link;
mod names;
mod store;
mod text;
mod words;

pub use class::Class;
pub use error::NoMemory;
pub use label::Label;
pub use store::{Item, Seq, Store};
pub use text::Text;
pub use words::Words;

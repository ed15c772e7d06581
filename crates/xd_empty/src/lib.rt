//! Whether states accept any document, and such documents.
#![tactic(auto)]

mod finding;
mod inhabit;
mod known;
mod names;
mod part;
mod uses;

pub use inhabit::{inhabitant, inhabitants};
pub use known::Inhabitants;
pub use names::{some_label, some_text};
pub use part::{inhabited, inhabited_part, kept_part};
pub use uses::{Use, Uses};

//! What is shown of inclusions: tables of goals, least documents, and lines of proof texts.
#![tactic(auto)]

mod cases;
mod least;
mod named;
mod tables;

pub use crate::cases::{show_cut_lines, show_read_case, show_split_words};
pub use crate::least::{show_apart, show_learned, show_least, show_sizes};
pub use crate::named::NamedState;
pub use crate::tables::{show_decided, show_moved, show_questions};

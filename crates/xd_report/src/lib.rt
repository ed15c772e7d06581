//! The lines of reports: faults and warnings as text.
#![tactic(auto)]

mod kind;
mod line;
mod texts;

pub use line::{fault_line, warning_line};
pub use texts::{write_place_front, write_texts};
pub use xd_type_text::type_text;

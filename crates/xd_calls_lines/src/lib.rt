//! Calls that stand one a line, and the run that writes them again with what came after each.
#![tactic(auto)]

mod call;
mod error;
mod lines;
mod spelled;

pub use crate::call::Call;
pub use crate::error::CallError;
pub use crate::lines::{Fixture, NamedFixture, run};
pub use crate::spelled::{
    class, label, show_answer, show_answer_on, show_class, show_place, show_words, words,
};

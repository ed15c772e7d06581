//! The grammar of programs and types, and the first fault of a text.
#![tactic(auto)]

mod fault;
mod grammar;
pub mod laws;
mod machine;
mod text;

pub use fault::spelled_tokens;
pub use grammar::{Nonterminal, Sort, Symbol, Terminal};
pub use machine::{Course, Reading, course_at, same};
pub use text::{TextError, TextFault, terminal};

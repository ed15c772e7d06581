//! The steps that commands share: each reads a text from the shelf, as a program, a document or a
//! proof, or ends the command with an output.
#![tactic(auto)]

mod document;
pub mod laws;
mod output;
mod program;
mod proof;
mod report;
mod status;
mod text;

pub use document::{load_bytes, load_document};
pub use output::{Output, Stop, put_all};
pub use program::{load_program, sound_program};
pub use proof::load_proof;
pub use report::report_lines;
pub use status::Status;

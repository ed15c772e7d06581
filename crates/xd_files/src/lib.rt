//! The shelf of files, the sink over a stream, and the words and the exit status of a process.
#![tactic(auto)]

mod file_shelf;
mod process;
mod stream_sink;
#[cfg(test)]
mod tests;

pub use file_shelf::FileShelf;
pub use process::{command_words, exit_code};
pub use stream_sink::StreamSink;

//! Commands on programs: `check`, `types`, `precise`, `run` and `sample`.
#![tactic(auto)]

mod command;

pub use command::check::check;
pub use command::run::run;
pub use command::sample::{SAMPLE_LIMIT, sample, sample_document};
pub use command::types::types;

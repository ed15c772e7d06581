//! What calls about programs share: programs and types that are read and shown, and states for
//! types and what is asked of these.
#![tactic(auto)]

mod case;
mod members;
mod reading;
mod states;
mod trees;
mod verdicts;

pub use crate::case::Case;
pub use crate::members::show_members;
pub use crate::reading::{
    Programs, read_type_into, show_read_program, show_read_type, show_resolved, show_soundness,
    show_type_line,
};
pub use crate::states::{find_type, program_of, state_at, state_of, type_of};
pub use crate::trees::{show_pattern, show_program};
pub use crate::verdicts::{show_both_ways, show_verdict};

//! What comes to the clauses of a match, and what their variables may be.
#![tactic(auto)]

mod begins;
mod behind;
mod cases;
mod compiled;
mod laws;
mod numbered;
mod owner;

pub use behind::Remaining;
pub use cases::{
    Arrival, accepted_document, apart, arriving, case_types, given_nothing, live, uncovered,
};
pub use compiled::CompiledPatterns;
pub use laws::patterns_tell_variables;
pub use numbered::NumberedPattern;

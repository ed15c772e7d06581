//! What the check of a program is made of: its functions' signatures and its clauses' patterns,
//! variables in scope, states for what expressions may be, and lines.
//!
//! Calls fail only where memory is refused. The automaton keeps its states then, and may have more.
#![tactic(auto)]

mod clauses;
mod collect;
mod findings;
mod known;
mod lines;
mod signatures;
mod states;
mod variables;

pub use clauses::{
    CompiledClause, CompiledMatch, MatchClauses, MatchPatterns, bring_in, pass_found, pass_on,
    see_uncovered,
};
pub use collect::patterns_of;
pub use findings::{Findings, MetMatch, meet_before};
pub use known::Known;
pub use lines::{Finding, FoundLine, Told, sort_lines, tell};
pub use signatures::{Signature, Signatures, declared_types};
pub use states::{join_states, misfit, text_state, unite_states, variable_state};
pub use variables::{Variable, Variables};

//! Patterns as states of an automaton whose moves stand in order of preference.
#![tactic(auto)]

mod chains;
mod compile;
mod compiled;
mod compiler;
mod expand;
mod laws;
mod mark_table;
mod marked;
mod named;
mod pieces;
mod plain;
mod sources;
mod start;
mod variables;

pub use compiled::CompiledProgram;
pub use compiler::{PatternCompiler, compilers_stay};
pub use laws::compiled_states_stay;
pub use marked::{Marked, compile_pattern};

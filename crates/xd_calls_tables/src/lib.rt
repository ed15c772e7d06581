//! Calls about tokens, tables, graphs and lists.
#![tactic(auto)]

mod shown;
mod tables;
mod tokens;

pub use tables::table_calls;
pub use tokens::token_calls;

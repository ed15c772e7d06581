//! Types put together, short, that mean the same whatever names stand for.
#![tactic(auto)]

mod alts;
mod classes;
mod ends;
mod law;
mod pool;
mod same;
mod seqs;
mod stars;
mod texts;

pub use alts::{alt, alt_of_all};
pub use law::names_settle;
pub use pool::{Pool, name_type, node, size_of};
pub use seqs::seq;
pub use stars::{any_type, star};
pub use texts::words_type;

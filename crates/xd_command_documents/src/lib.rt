//! Commands on the documents of a type: `fits`, `stream` and `least`.
#![tactic(auto)]

mod command;
mod membership;

pub use command::fits::fits;
pub use command::least::least;
pub use command::stream::{PIECE_LIMIT, stream};
pub use membership::{acceptor, accepts};

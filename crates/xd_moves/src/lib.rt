//! The moves of a continuation: by which elements and texts a document of it can begin.
#![tactic(auto)]

mod cells;
mod codes;
mod contents;
mod expansion;
mod first_uses;
mod firsts;
mod lists;
mod piece;
mod sources;
mod stand_ins;

pub use cells::{Cell, Continuations};
pub use contents::content;
pub use expansion::{Found, expand, is_empty};
pub use first_uses::FirstUses;
pub use firsts::FirstPieces;
pub use piece::Piece;
pub use sources::Sources;
pub use stand_ins::{StandIns, Themselves};

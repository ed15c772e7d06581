//! Interned continuations.

use crate::piece::Piece;
use xd_continuations::{Interned, Link};

/// A piece, and the number of the continuation after it.
pub type Cell = Link<Piece>;

/// Continuations by their numbers, as lists of pieces.
pub type Continuations = Interned<Piece>;

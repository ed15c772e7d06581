//! Pieces that stand for others in continuations.

ghost use Rattle.std.specs.Prelude.{◌≡◌, ◌<◌, List, length};
ghost use Rattle.xd_syntax.specs.Table.{Row};
ghost use Rattle.xd_moves.specs.Pieces.{AreFirst, IsFirst, piece_tree};
ghost use Rattle.xd_moves.specs.declared.firsts.FirstPieces.{FirstPieces};
ghost use Rattle.xd_moves.specs.declared.piece.Piece.{Piece};
ghost use Rattle.xd_moves.specs.declared.first_uses.FirstUses.{FirstUses};

use crate::first_uses::FirstUses;
use crate::firsts::FirstPieces;
use crate::piece::Piece;
use xd_syntax::Types;

/// Which piece stands for a piece in continuations: one of the same type, so that more
/// continuations are one.
pub trait StandIns {
    /// They are those of these types.
    ghost serve: { List Row → Self → Type 0 };

    /// The piece stands for some.
    ghost chosen: { List Row → Self → Piece → Type 0 };

    /// The piece that stands for this one.
    fn stand_in(&self, types: &Types, piece: Piece) -> Piece
        requires there { piece.node < length types.now }
        requires serve { serve types.now self.now }
        ensures there { result.node < length types.now }
        ensures tree { piece_tree types.now result ≡ piece_tree types.now piece }
        ensures chosen { chosen types.now self.now result };
}

/// Each piece stands for itself.
#[derive(Clone, Copy)]
pub struct Themselves;

impl StandIns for Themselves {
    ghost serve = { λ types themselves. Unit {0} };

    ghost chosen = { λ types themselves piece. Unit {0} };

    fn stand_in(&self, _types: &Types, piece: Piece) -> Piece {
        piece
    }
}

/// All uses of a name share their continuations.
impl StandIns for FirstUses {
    ghost serve = { λ types uses. Unit {0} };

    ghost chosen = { λ types uses piece. Unit {0} };

    fn stand_in(&self, types: &Types, piece: Piece) -> Piece {
        if piece.is_turns {
            return piece;
        }
        Piece {
            node: self.first(types, piece.node),
            is_turns: false,
        }
    }
}

/// Equal pieces share their continuations.
impl StandIns for FirstPieces {
    ghost serve = { AreFirst };

    ghost chosen = { IsFirst };

    fn stand_in(&self, _types: &Types, piece: Piece) -> Piece {
        self.of(piece)
    }
}

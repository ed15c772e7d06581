//! Pieces.

ghost use Rattle.std.proofs.Common.{arith};
ghost use Rattle.std.proofs.lemmas.Bool.Decides.{nat_tests};

use xd_continuations::Internable;

/// A node of a type, or the star of the repetition that the node is.
#[derive(Clone, Copy, Debug, PartialEq, Eq, Hash)]
pub struct Piece {
    pub node: usize,
    pub is_turns: bool,
}

impl Internable for Piece {
    ghost exact = { λ p q h. Prim.grind (arith, nat_tests) };
}

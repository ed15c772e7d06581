//! Interned lists: what stands ahead of a state, and the marks of its pieces.

ghost use Rattle.std.proofs.Common.{arith};
ghost use Rattle.std.proofs.lemmas.Bool.Decides.{nat_tests};

use xd_continuations::{Internable, Interned};

/// A part of a pattern or of a type, in the binders of some variables.
///
/// It is the node of this number in the table of patterns or in that of types; or of the sequence
/// that the node is the parts from this number on; or the star of the repetition that the node is.
#[derive(Clone, Copy, PartialEq, Eq, Hash)]
pub(crate) struct Piece {
    pub of_pattern: bool,
    pub node: usize,
    pub from: usize,
    pub is_turns: bool,
    /// The number of the list of these variables.
    pub marks: usize,
}

impl Internable for Piece {
    ghost exact = { λ p q h. Prim.grind (arith, nat_tests) };
}

/// Lists of pieces.
pub(crate) type Cells = Interned<Piece>;

/// Lists of variables, by their numbers.
pub(crate) type Marks = Interned<usize>;

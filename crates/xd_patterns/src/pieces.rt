//! What a piece is, with its parts as pieces.

ghost use Rattle.std.specs.Prelude.{◌≡◌, ◌+◌, ◌-◌, ◌≤◌, get_or, length, map, true};
ghost use Rattle.xd_patterns.specs.Pieces.{IsPieceOf, Sees, node_piece, rest_piece};

use crate::chains::Piece;
use xd_doc::{Class, Label, Words};
use xd_syntax::{FormView, Nodes, PatternId, Patterns, TypeId, Types};

/// A table of nodes whose ids are numbers.
pub(crate) trait NumberedNodes: Nodes {
    fn id(node: usize) -> Self::Id
        ensures { Self.at result ≡ node };

    fn number(id: Self::Id) -> usize
        ensures { result ≡ Self.at id };
}

impl NumberedNodes for Types {
    fn id(node: usize) -> TypeId {
        TypeId::of(node)
    }

    fn number(id: TypeId) -> usize {
        id.at()
    }
}

impl NumberedNodes for Patterns {
    fn id(node: usize) -> PatternId {
        PatternId::of(node)
    }

    fn number(id: PatternId) -> usize {
        id.at()
    }
}

/// What a piece is. A sequence or an alternative is seen as its first part and the others.
#[derive(Clone, Copy)]
pub(crate) enum View<'a> {
    Empty,
    Text,
    Words(&'a Words),
    Name(&'a Label),
    Elem(&'a Class, Piece),
    Seq(Piece, Piece),
    Alt(Piece, Piece),
    /// What is repeated.
    Star(Piece),
    /// What is repeated, and its repetition by any number of turns.
    Plus(Piece, Piece),
    Opt(Piece),
    /// What the variable of the node stands for.
    Val(Piece),
}

/// A node of the table that the piece is of, with its marks.
fn node_like(piece: Piece, node: usize) -> Piece
    ensures { result ≡ node_piece piece.of_pattern node piece.marks }
{
    Piece {
        of_pattern: piece.of_pattern,
        node,
        from: 0,
        is_turns: false,
        marks: piece.marks,
    }
}

/// The same for what is in an element.
fn content_like(piece: Piece, node: usize) -> Piece
    ensures { result ≡ node_piece piece.of_pattern node 0 }
{
    Piece {
        of_pattern: piece.of_pattern,
        node,
        from: 0,
        is_turns: false,
        marks: 0,
    }
}

/// The parts after the first of those that the piece has, where the node has so many, the last of
/// them with this number.
fn others(piece: Piece, count: usize, last: usize) -> Piece
    requires { piece.from + 2 ≤ count }
    ensures { result ≡ rest_piece piece count last }
{
    if piece.from + 2 == count {
        return node_like(piece, last);
    }
    Piece {
        from: piece.from + 1,
        ..piece
    }
}

/// The first of the parts that the piece has, where its node has all these, and the others.
fn first_and_others<N: NumberedNodes>(piece: Piece, parts: &[N::Id]) -> (Piece, Piece)
    requires { piece.from + 2 ≤ length parts.now }
    ensures first { result.0 ≡ node_piece piece.of_pattern (get_or (map N.at parts.now) piece.from 0) piece.marks }
    ensures others { result.1 ≡ rest_piece piece (length parts.now) (get_or (map N.at parts.now) (length parts.now - 1) 0) }
{
    let count = parts.len();
    let first = N::number(parts[piece.from]);
    let last = N::number(parts[count - 1]);
    (node_like(piece, first), others(piece, count, last))
}

/// The star of the repetition that the node of the piece is.
fn turns(piece: Piece) -> Piece
    ensures { result ≡ record piece { is_turns = true } }
{
    Piece {
        is_turns: true,
        ..piece
    }
}

/// What a piece of a type or of a pattern is, whose nodes these are.
pub(crate) fn view_node<N: NumberedNodes>(nodes: &N, piece: Piece) -> View<'_>
    requires table { piece.of_pattern ≡ N.binders }
    requires piece { IsPieceOf (N.rows nodes.now) piece }
    ensures { Sees (N.rows nodes.now) piece result }
{
    let node = nodes.view(N::id(piece.node));
    match node.form {
        FormView::Empty => View::Empty,
        FormView::Text => View::Text,
        FormView::Words(words) => View::Words(words),
        FormView::Name(name) => View::Name(name),
        FormView::Elem(class, part) => View::Elem(class, content_like(piece, N::number(part))),
        FormView::Seq(parts) => {
            let (first, others) = first_and_others::<N>(piece, parts);
            View::Seq(first, others)
        }
        FormView::Alt(parts) => {
            let (first, others) = first_and_others::<N>(piece, parts);
            View::Alt(first, others)
        }
        FormView::Star(part) => View::Star(node_like(piece, N::number(part))),
        FormView::Plus(part) => {
            if piece.is_turns {
                View::Star(node_like(piece, N::number(part)))
            } else {
                View::Plus(node_like(piece, N::number(part)), turns(piece))
            }
        }
        FormView::Opt(part) => View::Opt(node_like(piece, N::number(part))),
        FormView::Val(_, _, part) => View::Val(node_like(piece, N::number(part))),
    }
}

//! Kinds of moves.

/// A move on an element, or on a text. The moves of a state are numbered from 0 for each kind.
#[derive(Clone, Copy, Debug, PartialEq, Eq, PartialOrd, Ord)]
pub enum MoveKind {
    /// On an element.
    Label,
    /// On a text.
    Text,
}

//! Automata whose moves belong to variables.

use xd_auto::{Auto, MoveKind, State};
use xd_doc::Label;

/// The move of this kind and number of the state belongs to the variable: the item that it takes is
/// an item of the variable. Moves of a kind are numbered from 0, and variables too.
#[derive(Clone, Copy, Debug, PartialEq, Eq, PartialOrd, Ord)]
pub struct Track {
    pub state: State,
    pub kind: MoveKind,
    pub number: usize,
    pub variable: usize,
}

/// A state of an automaton, and which moves belong to which variables.
#[derive(Debug, Drop)]
pub struct Tracks {
    pub auto: Auto,
    pub start: State,
    pub variables: Vec<Label>,
    pub marks: Vec<Track>,
}

/// A variable, and what it may be: the documents that the state accepts.
#[derive(Debug, Drop)]
pub struct Binding {
    pub variable: Label,
    pub auto: Auto,
    pub state: State,
}

/// A variable, and what it may be: the documents that the state accepts, of an automaton that is
/// kept elsewhere.
#[derive(Debug, Drop)]
pub struct Given {
    pub variable: Label,
    pub state: State,
}

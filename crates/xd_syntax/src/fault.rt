//! Faults and warnings.

use xd_base::Place;
use xd_doc::{Label, Seq, Text};

/// What is wrong with a program, or with the words of a command.
///
/// The documents belong to a store that the fault is handed with.
#[derive(Debug, Drop)]
pub enum FaultKind {
    /// Fault 1: the text isn't UTF-8.
    NotUtf8,
    /// Fault 2: a token that no program continues.
    Syntax,
    /// Fault 3: a token that is nested too deep.
    TooDeep,
    /// Fault 4: a name that is defined before, or is predefined.
    DuplicateName(Label),
    /// Fault 5: a type's name that isn't defined.
    UnknownType(Label),
    /// Fault 6: a function's name that isn't defined.
    UnknownFunction(Label),
    /// Fault 7: a variable that isn't bound.
    UnknownVariable(Label),
    /// Fault 8: a call of a function, the number of arguments given, and that wanted.
    Arity(Label, u64, u64),
    /// Fault 9: a variable that isn't linear.
    NotLinear(Label),
    /// Fault 10: a type that recurs outside tail position.
    NotTail(Label),
    /// Fault 11: a type that recurs unguarded.
    Unguarded(Label),
    /// Fault 12: a match, and a document that it may be given and that no clause takes.
    NotExhaustive(Seq),
    /// Fault 13: an argument, and a document that it may be and that doesn't fit the parameter's
    /// type.
    Argument(Seq),
    /// Fault 14: a function's body, and a document that it may be and that doesn't fit the result's
    /// type.
    Result(Seq),
    /// Fault 15: a type's name, as a word of a command, that isn't defined.
    NoSuchName(Text),
    /// Fault 16: no function `main` with one parameter.
    NoMain,
}

/// A fault. One that speaks of a command, as of a type that it names or of `main`, has no place.
#[derive(Debug, Drop)]
pub struct Fault {
    pub place: Option<Place>,
    pub kind: FaultKind,
}

/// A clause that is never reached, at the first token of its pattern, but for parentheses around
/// it.
#[derive(Clone, Copy, Debug, PartialEq, Eq)]
pub struct Warning {
    pub place: Place,
}

//! The types of a program, as they are expanded.

use xd_continuations::TypeBodies;
use xd_syntax::{TypeDef, Types};

/// The types of a program with its definitions, the nodes that their names stand for, and for each
/// node whether it can be empty.
#[derive(Clone, Copy)]
pub struct Sources<'a> {
    pub types: &'a Types,
    pub defs: &'a [TypeDef],
    pub bodies: &'a TypeBodies,
    pub marks: &'a [bool],
}

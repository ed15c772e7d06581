//! The program that pieces are of.

use xd_continuations::TypeBodies;
use xd_syntax::{Patterns, TypeDef, Types};

/// The types and patterns of a program with its definitions, and the nodes that their names stand
/// for.
#[derive(Clone, Copy)]
pub(crate) struct Sources<'a> {
    pub types: &'a Types,
    pub patterns: &'a Patterns,
    pub defs: &'a [TypeDef],
    pub bodies: &'a TypeBodies,
}

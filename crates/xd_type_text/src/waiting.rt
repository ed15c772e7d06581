//! What is still to be written.

use crate::level::{Joined, Level};
use xd_syntax::TypeId;

/// A piece of a type's text that is still to be written.
#[derive(Clone, Copy)]
pub enum Waiting<'a> {
    Part(Level, TypeId),
    Parts(Joined, &'a [TypeId]),
    Mark(u8),
}

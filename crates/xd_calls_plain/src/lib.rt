//! Calls of the slow programs, about programs and types that are read.
#![tactic(auto)]

mod documents;
mod fixture;
mod plain;
mod plain_calls;

pub use crate::documents::plain_document;
pub use crate::fixture::PlainFixture;
pub use crate::plain::plain_program;

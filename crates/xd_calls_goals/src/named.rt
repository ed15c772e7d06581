//! States that have names.

use xd_auto::State;

/// A type's name, and a state for it.
#[derive(Drop)]
pub struct NamedState<'a> {
    pub name: &'a str,
    pub state: State,
}

//! Why a shelf or a sink refused.

use thiserror::Error;

/// Why a text was not fetched.
#[derive(Clone, Copy, Debug, PartialEq, Eq, Error)]
pub enum FetchError {
    /// The shelf had a fault, which it counted.
    #[error("the shelf failed")]
    Failed,
    /// The shelf tells what it holds, and holds no text of this name.
    #[error("no text of this name")]
    Missing,
    /// There was not enough memory for the text.
    #[error("out of memory")]
    NoMemory,
}

/// Why bytes were not taken.
#[derive(Clone, Copy, Debug, PartialEq, Eq, Error)]
pub enum PutError {
    /// The sink had a fault, which it counted.
    #[error("the sink failed")]
    Failed,
}

/// There was not enough memory for a shelf or a sink in memory.
#[derive(Clone, Copy, Debug, PartialEq, Eq, Error)]
#[error("out of memory")]
pub struct NoRoom;

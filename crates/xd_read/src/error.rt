//! Why a document isn't read.

ghost use Rattle.std.specs.Prelude.{◌≡◌};
ghost use Rattle.xd_read.specs.declared.error.ReadError.TheVariants.{NoMemory as OutOfMemory};

use thiserror::Error;
use xd_base::Place;
use xd_doc::NoMemory;

/// Why a document isn't read.
#[derive(Clone, Copy, Debug, PartialEq, Eq, Error)]
pub enum ReadError {
    /// The bytes spell no document. The place is that of the first bytes that aren't UTF-8, else of
    /// the first token that no document continues.
    #[error("malformed document")]
    Malformed(Place),
    #[error("out of memory")]
    NoMemory,
}

impl From<NoMemory> for ReadError {
    ghost from_gives = { λ _ e. e ≡ OutOfMemory };

    fn from(_error: NoMemory) -> Self {
        Self::NoMemory
    }
}

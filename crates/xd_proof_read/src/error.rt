//! Why a proof isn't read.

ghost use Rattle.std.specs.Prelude.{◌≡◌};
ghost use Rattle.xd_proof_read.specs.declared.error.ProofError.TheVariants.{NoMemory as OutOfMemory};

use std::alloc::AllocFailed;
use thiserror::Error;
use xd_doc::NoMemory;

/// Why a proof isn't read.
#[derive(Clone, Copy, Debug, PartialEq, Eq, Error)]
pub enum ProofError {
    /// The bytes are a proof text of neither format. The number is that of the first line with
    /// which none goes on, from 1.
    #[error("line {0} has not the form of a proof")]
    Form(u64),
    #[error("out of memory")]
    NoMemory,
}

impl From<NoMemory> for ProofError {
    ghost from_gives = { λ _ e. e ≡ OutOfMemory };

    fn from(_error: NoMemory) -> Self {
        Self::NoMemory
    }
}

impl<T: Drop> From<AllocFailed<T>> for ProofError {
    ghost from_gives = { λ _ e. e ≡ OutOfMemory };

    fn from(_error: AllocFailed<T>) -> Self {
        Self::NoMemory
    }
}

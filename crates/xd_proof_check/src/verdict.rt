//! Verdicts on proofs.

/// Why a line of a proof is refused.
#[derive(Clone, Copy, Debug, PartialEq, Eq)]
pub enum Reason {
    /// It hasn't the form of its place, or names a type that isn't defined.
    Form,
    /// The line on the empty document, or that it is missing.
    Empty,
    /// Another case than the one that is wanted there, or that it is missing.
    Case,
    /// A split of a right head that doesn't match or is split on already, or another step than the
    /// one that a text may have.
    Split,
    /// A leaf whose goal doesn't settle it.
    Leaf,
}

/// Whether a proof is consistent; if not, its first bad line and what is wrong there.
#[derive(Clone, Copy, Debug, PartialEq, Eq)]
pub enum ProofVerdict {
    /// Each goal keeps the rules.
    Accepted,
    /// The number of the first bad line, from 1, and the reason.
    Refused(u64, Reason),
}

//! Laws of the definitions, each the contract of a function that does nothing.

ghost use Rattle.xd_rec.specs.Soundness.{FaultsAreOne};

/// A program has one list of faults of recursion at most, and so it is sound exactly where
/// `well_formed` finds none.
pub fn faults_are_one()
    ensures { FaultsAreOne }
{}

//! Laws, each the contract of a function that does nothing.

ghost use Rattle.xd_variables.specs.Laws.{SeenVariablesAreOne};

/// A program has one list of variables of its clauses.
pub fn variables_are_one()
    ensures { SeenVariablesAreOne }
{}

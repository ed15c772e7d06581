//! The law of names, as the contract of a function that does nothing.

ghost use Rattle.xd_same_types.specs.Names.{NamesSettle};

/// Where names stand for what their definitions give, what fits by the definitions is what fits by
/// the meanings.
///
/// It does nothing: its contract is the law. Definitions may use, outside of labels, only names
/// whose own definitions use none there.
pub fn names_settle()
    ensures { NamesSettle }
{}

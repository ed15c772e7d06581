//! Laws, each the contract of a function that does nothing.

ghost use Rattle.xd_clauses.specs.Laws.{CompiledKeepTogether, CompiledTell};

/// In the automaton of a pattern the items of a variable stand together, and runs give it just what
/// whole ways bind it to.
pub fn patterns_tell_variables()
    ensures together { CompiledKeepTogether }
    ensures given { CompiledTell }
{}

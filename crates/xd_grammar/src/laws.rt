//! A law of the definitions, as the contract of a function that does nothing.

ghost use Rattle.xd_grammar.specs.Erasing.{LongestMatchOnlyChooses};

/// Which tokens begin a symbol is the same by the productions alone.
pub fn longest_match_only_chooses()
    ensures { LongestMatchOnlyChooses }
{}

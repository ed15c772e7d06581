//! Laws of the definitions, as contracts of functions that do nothing.

ghost use Rattle.xd_parse.specs.Laws.{TextsMeanOneThing, FirstFaultsAreOne};

/// A text has one syntax tree at most, however deep it nests.
pub fn texts_mean_one_thing()
    ensures { TextsMeanOneThing }
{}

/// A text that isn't UTF-8, that no text goes on as, or that nests too deep has one such fault, its
/// first, and is the text of no program and of no type.
pub fn first_faults_are_one()
    ensures { FirstFaultsAreOne }
{}

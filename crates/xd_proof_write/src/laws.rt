//! Laws of second texts, as the contract of a function that does nothing.

ghost use Rattle.xd_proof_write.specs.Laws.{SecondTextsReadBack, SameTypesAreEqual};

/// The second text of goals is a proof text of just these goals.
pub fn second_texts_read_back()
    ensures read { SecondTextsReadBack }
    ensures same { SameTypesAreEqual }
{}

//! Laws of the tokens of a text, in the words of a grammar.

ghost use Rattle.xd_lex.specs.Reading.{TokensAreRead, OneLast};

/// What holds of the tokens of each text. Gaps and tokens join to the text, each in its spelling; a
/// word takes as many characters as there are; each token has the place where it begins; the last
/// token, and no other, is `End` or `Broken`.
#[tactic(auto, using(crate::proofs::ReadLemmas::tokens_are_read, crate::proofs::ReadLemmas::one_last))]
pub fn lexing_laws()
    ensures read { TokensAreRead }
    ensures one_last { OneLast }
{}

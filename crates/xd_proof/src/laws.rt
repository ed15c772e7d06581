//! Laws of proof texts, each the contract of a function that does nothing.

ghost use Rattle.std.specs.Prelude.{ℕ};
ghost use Rattle.xd_syntax.specs.Tree.{Tree};
ghost use Rattle.xd_proof.specs.Forest.{TreesAreCounted};
ghost use Rattle.xd_proof.specs.Laws.{CourseReads, CourseGoesOn, CutsAreOne, FrontsBegin, FirstBadLineIsOne, FirstFormatBegins, TitlesBegin, WordsAreOne, CasesAreOne, PartsAreOne, ProofTextsAreOne};

/// The course of the lines of goals, in both formats.
pub fn courses_follow_goals()
    ensures types { CourseReads Tree }
    ensures numbers { CourseReads ℕ }
    ensures types_go_on { CourseGoesOn Tree }
    ensures numbers_go_on { CourseGoesOn ℕ }
{}

/// A text has one cut into lines, a line one list of words, and a text at most one first bad line.
pub fn first_bad_lines_are_one()
    ensures cuts { CutsAreOne }
    ensures words { WordsAreOne }
    ensures fronts { FrontsBegin }
    ensures one { FirstBadLineIsOne }
{}

/// Lines begin a proof text of the first format exactly where their parts may follow one another.
pub fn lines_begin_texts()
    ensures titles { TitlesBegin }
    ensures first_format { FirstFormatBegins }
{}

/// A line spells one part at most, and a text one list of goals.
pub fn proof_texts_are_one()
    ensures cases { CasesAreOne }
    ensures parts { PartsAreOne }
    ensures texts { ProofTextsAreOne }
{}

/// The words of choice trees are read by a count of the trees to come.
pub fn trees_are_counted()
    ensures { TreesAreCounted }
{}

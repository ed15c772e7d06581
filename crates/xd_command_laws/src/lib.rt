//! Laws of the commands' answers, as the contracts of functions that do nothing.
#![tactic(auto)]

ghost use Rattle.xd_command_laws.specs.OneAnswer.{AnswersAreOne, CountsHideAnswers, OutcomesAreOne};
ghost use Rattle.xd_command_laws.specs.ReadBack.{BlocksReadBack, DifferencesReadBack};
ghost use Rattle.xd_command_laws.specs.SayingYes.{SayYesAlike};

/// Where the shelf tells what it holds, the same words have one answer, but for what the
/// definitions leave open: which proof text is written, which document of its size a separation, a
/// fault or `least` carries, and how definitions of types show a set of documents. The count of the
/// shelf's faults licenses status 3, and nothing else. Where no count rose, a call that finds
/// memory writes its answer whole.
pub fn answers_are_one()
    ensures answers { AnswersAreOne }
    ensures counts { CountsHideAnswers }
    ensures outcomes { OutcomesAreOne }
{}

/// The definitions of types that `minus`, `types` and `precise` write are a program, however deep
/// they nest, of which just the documents fit the first type that they are to show.
pub fn shown_types_read_back()
    ensures differences { DifferencesReadBack }
    ensures blocks { BlocksReadBack }
{}

/// Of the same texts `stream` says yes exactly where `fits` does, whatever the pieces.
pub fn stream_agrees_with_fits()
    ensures { SayYesAlike }
{}

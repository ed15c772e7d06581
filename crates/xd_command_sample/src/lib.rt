//! Laws of the telephone program, each the contract of a function that does nothing.
#![tactic(auto)]

ghost use Rattle.xd_command_sample.specs.Laws.{NothingIsReported, TelephonesAreListed, TextIsRead};

use xd_laws::samples_have_lines;

/// The text is that of the program, which has no fault of names or of recursion.
pub fn text_is_read()
    ensures { TextIsRead }
{}

/// `check` has nothing to say of the program.
pub fn nothing_is_reported()
    ensures { NothingIsReported }
{
    samples_have_lines();
}

/// What the program makes of persons, and by how many calls.
pub fn telephones_are_listed()
    ensures { TelephonesAreListed }
{}

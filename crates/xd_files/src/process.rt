//! The two ends of a process: the words that it is called with, and its exit status.

ghost use Rattle.std.specs.Prelude.{◌≡◌, ◌≢◌, [], IfOk, IfErr, MatchOption};
ghost use Rattle.std.specs.IoError.{error_kind};
ghost use Rattle.std.specs.Process.{exit_status};

use std::alloc::Global;
use std::io::{self, ErrorKind};
use std::process::ExitCode;

/// The words that a command is called with, or `None` where there was no memory for them.
///
/// A word that isn't UTF-8 is no word of any form of a command, and neither are no words at all: so
/// there are none then.
pub fn command_words(alloc: Global, given: io::Result<Vec<String>>) -> Option<Vec<String>>
    ensures given { IfOk given (λ words. result ≡ Some words) }
    ensures invalid { IfErr given (λ e. error_kind e ≡ ErrorKind.InvalidData → MatchOption result ⊥ (λ words. words.items ≡ [])) }
    ensures no_memory { IfErr given (λ e. error_kind e ≢ ErrorKind.InvalidData → result ≡ None) }
{
    match given {
        Ok(words) => Some(words),
        Err(error) => match error.kind() {
            ErrorKind::InvalidData => Some(Vec::new(alloc)),
            _ => None,
        },
    }
}

/// The exit status of this code.
pub fn exit_code(code: u8) -> ExitCode
    ensures { exit_status result ≡ code }
{
    ExitCode::from(code)
}

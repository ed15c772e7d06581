//! The program that the calls of a case are about.

use std::alloc::Global;
use xd_calls_lines::CallError;

/// The text of the program.
#[derive(Drop)]
pub struct Case {
    alloc: Global,
    program: String,
}

impl Case {
    /// With no program yet.
    pub fn new(alloc: Global) -> Case {
        Case {
            alloc,
            program: String::new(alloc),
        }
    }

    /// Takes a call's text as the program, where it has one.
    pub fn take(&mut self, text: &str) -> Result<(), CallError> {
        if !text.is_empty() {
            self.program = String::from_str(self.alloc, text)?;
        }
        Ok(())
    }

    /// The text that was taken last, or an empty one.
    pub fn program(&self) -> &str {
        self.program.as_str()
    }
}

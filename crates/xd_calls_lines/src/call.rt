//! A line that makes a call.

use crate::error::CallError;
use std::alloc::Global;
use std::str::FromStr;

/// A call: its name, what stands after that, and its text.
#[derive(Clone, Copy)]
pub struct Call<'a> {
    pub alloc: Global,
    pub name: &'a str,
    pub behind: &'a str,
    pub text: &'a str,
}

impl<'a> Call<'a> {
    /// The call of a line, `NAME WORDS`.
    pub fn new(alloc: Global, line: &'a str, text: &'a str) -> Call<'a> {
        let (name, behind) = line.split_once(' ').unwrap_or((line, ""));
        Call {
            alloc,
            name,
            behind,
            text,
        }
    }

    /// The call that stands after a subject, as `SUBJECT NAME WORDS`.
    pub fn of_subject(&self) -> Call<'a> {
        Call::new(self.alloc, self.behind, self.text)
    }

    /// The same call with another text.
    pub fn about<'b>(&'b self, text: &'b str) -> Call<'b> {
        Call {
            alloc: self.alloc,
            name: self.name,
            behind: self.behind,
            text,
        }
    }

    /// The word of this number, from 0, after the name.
    pub fn word(&self, number: usize) -> Result<&'a str, CallError> {
        let word = self.behind.split_whitespace().nth(number);
        word.ok_or(CallError::Missing)
    }

    /// That word as a number.
    pub fn number(&self, number: usize) -> Result<u64, CallError> {
        Ok(u64::from_str(self.word(number)?)?)
    }

    /// That word as a size.
    pub fn size(&self, number: usize) -> Result<usize, CallError> {
        Ok(usize::from_str(self.word(number)?)?)
    }
}

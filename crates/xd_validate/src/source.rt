//! Where documents come from, in pieces.

ghost use Rattle.std.specs.Prelude.{◌≡◌, ◌≤◌, ◌<◌, ◌⊎◌, ℕ, List, Option, None, length, take, IfOk, OnOk, OnErr};
ghost use Rattle.xd_base.specs.Outside.{HasRisen, IsLacking};
ghost use Rattle.xd_validate.specs.Reading.{GivesNext, IsOpened};

use std::fs;
use std::io::{self, Read};
use std::rt::Files;

/// A document can't be opened, or not read further.
#[derive(Clone, Copy, Debug, PartialEq, Eq)]
pub struct Unreadable;

/// Documents that are read in pieces, each by its name, one at a time.
pub trait Source {
    /// The bytes of each name, or `None` where the source doesn't tell what it holds.
    ghost holds: { Self → Option (List ℕ → Option (List ℕ)) };
    /// What is left of the open document, or `None` where the source doesn't tell.
    ghost remaining: { Self → Option (List ℕ) };
    /// How many faults it had. The count stays at the last value of its type.
    ghost faults: { Self → ℕ };

    /// Opens the document of this name, in place of the one before.
    ///
    /// Where nobody is told what the source holds, a document that isn't there is a fault like any
    /// other.
    fn open(&mut self, name: &str) -> Result<(), Unreadable>
        ensures opened { OnOk result (IsOpened (holds self.old) name.now (remaining self.new)) }
        ensures failed { OnErr result (HasRisen (faults self.old) (faults self.new) ⊎ IsLacking (holds self.old) name.now) }
        ensures same { holds self.new ≡ holds self.old }
        ensures never_falls { faults self.old ≤ faults self.new };

    /// Reads the next bytes of the open document to the front of the buffer, and says how many.
    /// None come only at the document's end.
    fn read(&mut self, buffer: &mut [u8]) -> Result<usize, Unreadable>
        requires { 0 < length buffer.old }
        ensures bound { IfOk result (λ n. n ≤ length buffer.new) }
        ensures given { IfOk result (λ n. GivesNext (remaining self.old) (remaining self.new) (take n buffer.new)) }
        ensures failed { OnErr result (HasRisen (faults self.old) (faults self.new)) }
        ensures same { holds self.new ≡ holds self.old }
        ensures never_falls { faults self.old ≤ faults self.new };
}

/// The name of the standard input.
const STANDARD_INPUT: &str = "-";

/// What is open.
#[derive(Drop)]
enum Opened<F> {
    Nothing,
    StandardInput,
    File(F),
}

/// Files, each under its path, and the standard input under `-`. It doesn't tell what they hold.
#[derive(Drop)]
pub struct FileSource<'a, R: Files, I: Read> {
    rt: &'a R,
    input: I,
    opened: Opened<R::File>,
    faults: u64,
}

impl<'a, R: Files, I: Read> FileSource<'a, R, I> {
    /// A source of the files of this runtime and of this standard input. It has had no fault yet.
    pub fn new(rt: &'a R, input: I) -> Self
        ensures { result.faults ≡ 0 }
    {
        Self {
            rt,
            input,
            opened: Opened::Nothing,
            faults: 0,
        }
    }
}

/// The next bytes of a reader.
fn read_next<R: Read>(reader: &mut R, buffer: &mut [u8]) -> io::Result<usize>
    requires { 0 < length buffer.old }
    ensures bound { IfOk result (λ n. n ≤ length buffer.new) }
    ensures given { IfOk result (λ n. GivesNext (R.remaining reader.old) (R.remaining reader.new) (take n buffer.new)) }
{
    reader.read(buffer)
}

impl<R: Files, I: Read> Source for FileSource<'_, R, I> {
    ghost use Rattle.std.specs.Prelude.{None};

    ghost holds = { λ _. None };

    ghost remaining = { λ _. None };

    ghost faults = { λ s. s.faults };

    fn open(&mut self, name: &str) -> Result<(), Unreadable> {
        if name == STANDARD_INPUT {
            self.opened = Opened::StandardInput;
            return Ok(());
        }
        match fs::open(self.rt, name) {
            Ok(file) => {
                self.opened = Opened::File(file);
                Ok(())
            }
            Err(_) => {
                self.opened = Opened::Nothing;
                self.faults = self.faults.saturating_add(1);
                Err(Unreadable)
            }
        }
    }

    fn read(&mut self, buffer: &mut [u8]) -> Result<usize, Unreadable> {
        let read = match &mut self.opened {
            Opened::Nothing => Ok(0),
            Opened::StandardInput => read_next(&mut self.input, buffer),
            Opened::File(file) => read_next(file, buffer),
        };
        match read {
            Ok(n) => Ok(n),
            Err(_) => {
                self.faults = self.faults.saturating_add(1);
                Err(Unreadable)
            }
        }
    }
}

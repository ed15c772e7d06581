//! The shelf of files.

ghost use Rattle.std.specs.Prelude.{◌≡◌, ◌≤◌, ◌<◌, ◌^◌, None, length, IfOk, IsErrOf};
ghost use Rattle.xd_base.specs.Outside.{HasRisen};
ghost use Rattle.xd_files.specs.Front.{GivesFirst};

use std::alloc::Global;
use std::fs::File;
use std::io::Read;
use std::rt::Files;
use std::{fs, io};
use xd_base::{FetchError, Shelf};

/// How many bytes are asked of a file at a time.
const PIECE: usize = 65536;

/// Files, each under its path. It doesn't tell what it holds.
#[derive(Drop)]
pub struct FileShelf<'a, R: Files> {
    rt: &'a R,
    faults: u64,
}

impl<'a, R: Files> FileShelf<'a, R> {
    /// A shelf that reads the files of this runtime. It has had no fault yet.
    pub fn new(rt: &'a R) -> Self
        ensures { result.faults ≡ 0 }
    {
        Self { rt, faults: 0 }
    }
}

/// Why a file was not read.
#[derive(Debug, PartialEq, Drop)]
pub(crate) enum ReadFault {
    Io,
    NoMemory,
}

/// The first `most` bytes of what the reader gives, or all that it gives where that is less.
///
/// Each turn takes a byte, or is the last.
pub(crate) fn front<R: Read>(
    alloc: Global,
    reader: &mut R,
    most: usize,
) -> Result<Vec<u8>, ReadFault>
    ensures length { IfOk result (λ text. length text.items ≤ most) }
    ensures first { IfOk result (λ text. GivesFirst (R.remaining reader.old) (R.remaining reader.new) most text.items) }
{
    let mut text = Vec::new(alloc);
    let mut piece = [0; PIECE];
    'pieces: while text.len() < most {
        let wanted = (most - text.len()).min(PIECE);
        match reader.read(&mut piece[..wanted]) {
            Ok(0) => break,
            Ok(n) => match text.extend_from_slice(&piece[..n]) {
                Ok(()) => {}
                Err(_) => return Err(ReadFault::NoMemory),
            },
            Err(_) => return Err(ReadFault::Io),
        }
    }
    Ok(text)
}

impl<R: Files> Shelf for FileShelf<'_, R> {
    ghost use Rattle.std.specs.Prelude.{None};

    ghost holds = { λ _. None };

    ghost faults = { λ s. s.faults };

    fn fetch(&mut self, alloc: Global, name: &str, most: usize) -> Result<Vec<u8>, FetchError> {
        let _faults = self.faults;
        let read = match fs::open(self.rt, name) {
            Ok(file) => {
                let mut file = file;
                front(alloc, &mut file, most)
            }
            Err(_) => Err(ReadFault::Io),
        };
        match read {
            Ok(text) => Ok(text),
            Err(ReadFault::NoMemory) => Err(FetchError::NoMemory),
            Err(ReadFault::Io) => {
                self.faults = self.faults.saturating_add(1);
                Err(FetchError::Failed)
            }
        }
    }
}

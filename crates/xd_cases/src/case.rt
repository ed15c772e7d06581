//! A case: the texts that the shelf holds, and how the shelf and the sink behave.

use crate::error::CaseError;
use std::alloc::Global;
use xd_base::{MemoryShelf, MemorySink};

/// A text and its name.
#[derive(Drop)]
pub struct File<'a> {
    pub name: &'a str,
    pub text: Vec<u8>,
}

/// What the runs of a case are given.
#[derive(Drop)]
pub struct Case<'a> {
    alloc: Global,
    pub files: Vec<File<'a>>,
    pub shelf_fails: Vec<u64>,
    pub sink_fails: Vec<u64>,
    pub room: usize,
    pub piece: usize,
}

impl<'a> Case<'a> {
    /// A case without texts, whose shelf and sink don't fail.
    pub fn new(alloc: Global) -> Case<'a> {
        Case {
            alloc,
            files: Vec::new(alloc),
            shelf_fails: Vec::new(alloc),
            sink_fails: Vec::new(alloc),
            room: 1_000_000,
            piece: 1_000,
        }
    }

    /// Begins a text, in place of an earlier one of its name.
    pub fn begin(&mut self, name: &'a str) -> Result<(), CaseError> {
        self.files.retain(|file| file.name != name);
        let text = Vec::new(self.alloc);
        self.files.push(File { name, text })?;
        Ok(())
    }

    /// The same, with a first line where one is given.
    pub fn begin_with(&mut self, name: &'a str, line: Option<&str>) -> Result<(), CaseError> {
        self.begin(name)?;
        match line {
            Some(line) => self.add_line(line),
            None => Ok(()),
        }
    }

    /// Adds a line to the newest text. A line feed goes before it, unless it is the first.
    pub fn add_line(&mut self, line: &str) -> Result<(), CaseError> {
        let Some(file) = self.files.last_mut() else {
            return Err(CaseError::NoFile);
        };
        if !file.text.is_empty() {
            file.text.push(b'\n')?;
        }
        file.text.extend_from_slice(line.as_bytes())?;
        Ok(())
    }

    /// Adds bytes to the newest text, so many times.
    pub fn add(&mut self, times: usize, bytes: &[u8]) -> Result<(), CaseError> {
        let Some(file) = self.files.last_mut() else {
            return Err(CaseError::NoFile);
        };
        for _ in 0..times {
            file.text.extend_from_slice(bytes)?;
        }
        Ok(())
    }

    /// The text of this name.
    pub fn text(&self, name: &str) -> Result<&[u8], CaseError> {
        for file in &self.files {
            if file.name == name {
                return Ok(&file.text);
            }
        }
        Err(CaseError::UnknownFile)
    }

    /// The shelf of a run.
    pub fn shelf(&self) -> Result<MemoryShelf, CaseError> {
        let mut shelf = MemoryShelf::new(self.alloc);
        for file in &self.files {
            shelf.add(file.name, &file.text)?;
        }
        for call in &self.shelf_fails {
            shelf.fail_at(*call)?;
        }
        Ok(shelf)
    }

    /// The sink of a run, with this room.
    pub fn sink(&self, room: usize) -> Result<MemorySink, CaseError> {
        if self.piece == 0 {
            return Err(CaseError::EmptyPiece);
        }
        let mut sink = MemorySink::new(self.alloc, room, self.piece)?;
        for call in &self.sink_fails {
            sink.fail_at(*call)?;
        }
        Ok(sink)
    }
}

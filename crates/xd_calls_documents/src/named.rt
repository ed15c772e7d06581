//! What has a name: documents of a store and states of an automaton, by their numbers.

ghost use Rattle.std.specs.Prelude.{IfOk};
ghost use Rattle.xd_doc.specs.StoredSeq.{BelongsTo};
ghost use Rattle.xd_auto.specs.Automaton.{IsState};

use std::alloc::Global;
use xd_auto::{Auto, State};
use xd_calls_lines::CallError;
use xd_doc::{Seq, Store};

#[derive(Drop)]
struct Named {
    name: String,
    place: Option<usize>,
}

/// Names and the places that they stand for.
#[derive(Drop)]
pub struct Names {
    alloc: Global,
    rows: Vec<Named>,
}

impl Names {
    /// With no name.
    pub fn new(alloc: Global) -> Names {
        Names {
            alloc,
            rows: Vec::new(alloc),
        }
    }

    /// Gives a name, anew where it stood for something else.
    pub fn give(&mut self, name: &str, place: Option<usize>) -> Result<(), CallError> {
        let name = String::from_str(self.alloc, name)?;
        self.rows.push(Named { name, place })?;
        Ok(())
    }

    fn place(&self, name: &str) -> Result<Option<usize>, CallError> {
        match self.rows.iter().rev().find(|row| row.name.as_str() == name) {
            Some(row) => Ok(row.place),
            None => Err(CallError::Unknown),
        }
    }
}

/// The document of this name; `()` is the empty one.
pub fn document(store: &Store, names: &Names, name: &str) -> Result<Seq, CallError>
    ensures { IfOk result (BelongsTo store.now) }
{
    if name == "()" {
        return Ok(Seq::empty());
    }
    document_at(store, names.place(name)?)
}

/// The document that begins at this place.
pub fn document_at(store: &Store, place: Option<usize>) -> Result<Seq, CallError>
    ensures { IfOk result (BelongsTo store.now) }
{
    match place {
        None => Ok(Seq::empty()),
        Some(number) if number < store.len() => Ok(store.at(number)),
        Some(_) => Err(CallError::Unknown),
    }
}

/// The state of this name.
pub fn state(auto: &Auto, names: &Names, name: &str) -> Result<State, CallError>
    ensures { IfOk result (IsState auto.now) }
{
    match names.place(name)? {
        Some(number) if number < auto.len() => Ok(auto.state(number)),
        _ => Err(CallError::Unknown),
    }
}

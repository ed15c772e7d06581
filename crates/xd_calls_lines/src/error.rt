//! Why a line of the calls is refused.

use std::alloc::AllocError;
use std::io;
use std::num::ParseIntError;
use thiserror::Error;
use xd_base::{FetchError, NoRoom};
use xd_doc::NoMemory;
use xd_lex::LexError;
use xd_read::ReadError;

/// Why a line of the calls is refused.
#[derive(Debug, Drop, Error)]
pub enum CallError {
    #[error("no fixture is chosen")]
    Fixture,
    #[error("no such call")]
    Call,
    #[error("a word is missing")]
    Missing,
    #[error("nothing has this name")]
    Unknown,
    #[error("a label is a word")]
    Label,
    #[error("the words don't suit the call")]
    Words,
    #[error("a program that can't be read")]
    Malformed,
    #[error("not a number: {0}")]
    Number(#[from] ParseIntError),
    #[error("cannot write: {0}")]
    Output(#[from] io::Error),
    #[error(transparent)]
    Document(#[from] ReadError),
    #[error(transparent)]
    Tokens(#[from] LexError),
    #[error(transparent)]
    Shelf(#[from] FetchError),
    #[error(transparent)]
    Room(#[from] NoRoom),
    #[error(transparent)]
    Memory(#[from] NoMemory),
    #[error("out of memory")]
    Allocation(#[from(alloc)] AllocError),
}

//! Why a line of the cases is refused.

use hex::FromHexError;
use std::alloc::AllocError;
use std::io;
use std::num::ParseIntError;
use thiserror::Error;
use xd_base::NoRoom;
use xd_doc::NoMemory;

/// Why a line of the cases is refused.
#[derive(Debug, Drop, Error)]
pub enum CaseError {
    #[error("no directive begins so")]
    Directive,
    #[error("a piece of a text stands between two quotes")]
    Quotes,
    #[error("a part of a text comes before its file")]
    NoFile,
    #[error("no such file stands above")]
    UnknownFile,
    #[error("a sink takes pieces of at least one byte")]
    EmptyPiece,
    #[error("not a number: {0}")]
    Number(#[from] ParseIntError),
    #[error("not hexadecimal: {0}")]
    Hexadecimal(#[from] FromHexError),
    #[error("cannot write: {0}")]
    Output(#[from] io::Error),
    #[error("out of memory")]
    Memory(#[from(alloc)] AllocError),
}

impl From<NoMemory> for CaseError {
    fn from(_error: NoMemory) -> Self {
        Self::Memory(AllocError)
    }
}

impl From<NoRoom> for CaseError {
    fn from(_error: NoRoom) -> Self {
        Self::Memory(AllocError)
    }
}

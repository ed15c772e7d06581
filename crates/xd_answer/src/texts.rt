//! A shelf of texts that the caller holds.

ghost use Rattle.std.specs.Prelude.{◌≡◌, ◌<◌, ◌≤◌, ◌^◌, Some, length, map, IfOk, IsErrOf};
ghost use Rattle.std.specs.Option.{option_copied};
ghost use Rattle.xd_answer.specs.Answered.{held_text};
ghost use Rattle.xd_base.specs.MemoryShelf.{text_of};
ghost use Rattle.xd_base.specs.Outside.{HasRisen, IsLacking};
ghost use Rattle.xd_base.specs.Transfers.{GivesFront};

use std::alloc::Global;
use xd_base::{FetchError, Shelf};

/// A text, and the name that words may have for it.
#[repr(C)]
#[derive(Drop)]
pub struct Text<'a> {
    pub name: &'a [u8],
    pub bytes: &'a [u8],
}

/// The texts as a shelf, which tells what it holds and never has a fault.
#[derive(Drop)]
pub struct Texts<'a> {
    texts: &'a [Text<'a>],
}

impl<'a> Texts<'a> {
    pub fn new(texts: &'a [Text<'a>]) -> Texts<'a>
        ensures { result.texts.now ≡ texts.now }
    {
        Texts { texts }
    }
}

/// The first text of this name.
fn find<'a>(texts: &'a [Text<'a>], name: &str) -> Option<&'a [u8]>
    ensures { option_copied result ≡ text_of (map held_text texts.now) name.now }
{
    match texts {
        [] => None,
        [first, more @ ..] => {
            if name.as_bytes() == first.name {
                Some(first.bytes)
            } else {
                find(more, name)
            }
        }
    }
}

impl<'a> Shelf for Texts<'a> {
    ghost use Rattle.std.specs.Prelude.{Some, map};
    ghost use Rattle.xd_answer.specs.Answered.{held_text};
    ghost use Rattle.xd_base.specs.MemoryShelf.{text_of};

    ghost holds = { λ s. Some (text_of (map held_text s.texts.now)) };

    ghost faults = { λ s. 0 };

    fn fetch(&mut self, alloc: Global, name: &str, most: usize) -> Result<Vec<u8>, FetchError> {
        match find(self.texts, name) {
            None => Err(FetchError::Missing),
            Some(text) => {
                let length = text.len().min(most);
                match Vec::from_slice(alloc, &text[..length]) {
                    Ok(front) => Ok(front),
                    Err(_) => Err(FetchError::NoMemory),
                }
            }
        }
    }
}

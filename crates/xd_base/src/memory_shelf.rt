//! A shelf in memory.

ghost use Rattle.std.specs.Prelude.{◌≡◌, ℕ, ◌<◌, ◌≤◌, ◌^◌, List, Some, None, Contains, length, IfOk, OnErr, OnOk, IsErrOf, ◌↔◌, [], ◌∷◌, ◌++◌, if◌then◌else◌, map};
ghost use Rattle.std.specs.Option.{option_copied};
ghost use Rattle.std.specs.Str.{bytes_eq};
ghost use Rattle.xd_base.specs.Outside.{HasRisen, IsLacking};
ghost use Rattle.xd_base.specs.Transfers.{GivesFront, next_count};
ghost use Rattle.xd_base.specs.MemoryShelf.{text_of, held_of, fetched};

use crate::count::next_count;
use crate::error::{FetchError, NoRoom};
use crate::outside::Shelf;
use std::alloc::Global;
use std::collections::BTreeMap;
use std::marker::Model;

/// A shelf in memory, for tests. It tells what it holds.
///
/// Calls of `fetch` are numbered from 1, and those that [`MemoryShelf::fail_at`] names fail.
#[derive(Drop)]
pub struct MemoryShelf {
    texts: BTreeMap<String, Vec<u8>>,
    failing: Vec<u64>,
    calls: u64,
    faults: u64,
}

impl Model for MemoryShelf {
    ghost use Rattle.std.specs.Prelude.{map};
    ghost use Rattle.xd_base.specs.MemoryShelf.{ShelfState, held_of};

    ghost Value = { ShelfState };

    ghost view = { λ s. record { texts = map held_of s.texts.entries; failing = s.failing.items; calls = s.calls; faults = s.faults } };
}

impl MemoryShelf {
    /// A shelf without texts. It takes no memory.
    pub fn new(alloc: Global) -> MemoryShelf
        ensures { result ≡ record { texts = []; failing = []; calls = 0; faults = 0 } }
    {
        MemoryShelf {
            texts: BTreeMap::new(alloc),
            failing: Vec::new(alloc),
            calls: 0,
            faults: 0,
        }
    }

    /// Puts a text onto the shelf, in place of an earlier one of the same name. `NoRoom` where
    /// memory is refused; then the shelf is as it was.
    pub fn add(&mut self, name: &str, bytes: &[u8]) -> Result<(), NoRoom>
        ensures held { OnOk result ((n : List ℕ) → text_of self.new.texts n ≡ (if bytes_eq name.now n then Some bytes.now else text_of self.old.texts n)) }
        ensures others { self.new ≡ record self.old { texts = self.new.texts } }
        ensures err { OnErr result (self.new ≡ self.old) }
    {
        let alloc = *self.failing.allocator();
        let Ok(key) = String::from_str(alloc, name) else {
            return Err(NoRoom);
        };
        let Ok(text) = Vec::from_slice(alloc, bytes) else {
            return Err(NoRoom);
        };
        match self.texts.insert(key, text) {
            Ok(_) => Ok(()),
            Err(_) => Err(NoRoom),
        }
    }

    /// Makes the call of `fetch` with this number fail, counted from 1 since the shelf was made.
    /// `NoRoom` where memory is refused; then the shelf is as it was.
    pub fn fail_at(&mut self, call: u64) -> Result<(), NoRoom>
        ensures ok { OnOk result (self.new ≡ record self.old { failing = self.old.failing ++ call ∷ [] }) }
        ensures err { OnErr result (self.new ≡ self.old) }
    {
        match self.failing.push(call) {
            Ok(()) => Ok(()),
            Err(_) => Err(NoRoom),
        }
    }
}

fn text_at<'a>(texts: &'a BTreeMap<String, Vec<u8>>, name: &str) -> Option<&'a [u8]>
    ensures { option_copied result ≡ text_of (map held_of texts.now.entries) name.now }
{
    match texts.get(name) {
        None => None,
        Some(text) => Some(text.as_slice()),
    }
}

impl Shelf for MemoryShelf {
    ghost use Rattle.std.specs.Prelude.{Some};
    ghost use Rattle.xd_base.specs.MemoryShelf.{text_of};

    ghost holds = { λ s. Some (text_of s.texts) };

    ghost faults = { λ s. s.faults };

    fn fetch(&mut self, alloc: Global, name: &str, most: usize) -> Result<Vec<u8>, FetchError>
        requires { 1 ≤ most }
        ensures length { IfOk result (λ text. length text.items ≤ most) }
        ensures front { IfOk result (λ text. GivesFront (Some (text_of self.old.texts)) name.now most text.items) }
        ensures failed { IsErrOf result FetchError.Failed → HasRisen self.old.faults self.new.faults }
        ensures missing { IsErrOf result FetchError.Missing → IsLacking (Some (text_of self.old.texts)) name.now }
        ensures missing_count { IsErrOf result FetchError.Missing → self.new.faults ≡ self.old.faults }

        ensures same { Some (text_of self.new.texts) ≡ Some (text_of self.old.texts) }
        ensures never_falls { self.old.faults ≤ self.new.faults }
        ensures bounded { self.new.faults < 2 ^ 64 }

        // Exactly the listed calls fail, and exactly the others that ask for a text that isn't held
        // miss it.
        ensures fails { IsErrOf result FetchError.Failed ↔ Contains self.old.failing (next_count self.old.calls) }
        ensures lacks { ¬ (Contains self.old.failing (next_count self.old.calls)) → text_of self.old.texts name.now ≡ None → IsErrOf result FetchError.Missing }
        ensures after { self.new ≡ fetched self.old result }
    {
        let _faults = self.faults;
        self.calls = next_count(self.calls);
        if self.failing.contains(&self.calls) {
            self.faults = next_count(self.faults);
            return Err(FetchError::Failed);
        }
        match text_at(&self.texts, name) {
            None => Err(FetchError::Missing),
            Some(text) => {
                let length = text.len().min(most);
                match Vec::from_slice(alloc, &text[..length]) {
                    Ok(front) => Ok(front),
                    Err(_) => Err(FetchError::NoMemory),
                }
            }
        }
    }
}

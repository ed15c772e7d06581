//! A sink that keeps what is written.

ghost use Rattle.std.specs.Prelude.{◌≡◌, ◌<◌, ◌≤◌, ◌^◌, Some, [], IfOk, OnErr};
ghost use Rattle.xd_base.specs.Outside.{HasRisen};
ghost use Rattle.xd_base.specs.Transfers.{HasTaken};

use std::alloc::Global;
use xd_base::{PutError, Sink};

/// What is written, and how often there was no memory for more.
#[derive(Drop)]
pub struct Written {
    bytes: Vec<u8>,
    faults: u64,
}

impl Written {
    pub fn new(alloc: Global) -> Written
        ensures { result.bytes.items ≡ [] }
    {
        Written {
            bytes: Vec::new(alloc),
            faults: 0,
        }
    }

    /// What is written.
    pub fn into_bytes(self) -> Vec<u8>
        ensures { result.items ≡ self.bytes.items }
    {
        self.bytes
    }
}

impl Sink for Written {
    ghost use Rattle.std.specs.Prelude.{Some};

    ghost written = { λ s. Some s.bytes.items };

    ghost faults = { λ s. s.faults };

    fn put(&mut self, bytes: &[u8]) -> Result<usize, PutError> {
        let faults = self.faults;
        match self.bytes.extend_from_slice(bytes) {
            Ok(()) => Ok(bytes.len()),
            Err(_) => {
                self.faults = faults.saturating_add(1);
                Err(PutError::Failed)
            }
        }
    }
}

//! A sink in memory.

ghost use Rattle.std.specs.Prelude.{◌≡◌, ◌<◌, ◌≤◌, ◌^◌, ◌-◌, Some, Contains, length, take, IfOk, OnErr, OnOk, IsErr, ◌↔◌, ◌⊎◌, min, [], ◌∷◌, ◌++◌};
ghost use Rattle.xd_base.specs.Outside.{HasRisen};
ghost use Rattle.xd_base.specs.Transfers.{HasTaken, next_count};

use crate::count::next_count;
use crate::error::{NoRoom, PutError};
use crate::outside::Sink;
use std::alloc::Global;
use std::marker::Model;

/// A sink in memory, for tests. It tells what is written.
///
/// Calls of `put` are numbered from 1, and those that [`MemorySink::fail_at`] names fail.
#[derive(Drop)]
pub struct MemorySink {
    bytes: Vec<u8>,
    room: usize,
    piece: usize,
    failing: Vec<u64>,
    calls: u64,
    faults: u64,
}

impl Model for MemorySink {
    ghost use Rattle.std.specs.Prelude.{◌≡◌, ◌≤◌, ◌+◌, vec_capacity, vec_len};
    ghost use Rattle.xd_base.specs.MemorySink.{SinkState};

    ghost Value = { SinkState };

    ghost view = { λ s. record { written = s.bytes.items; room = s.room; piece = s.piece; failing = s.failing.items; calls = s.calls; faults = s.faults } };

    ghost invariant = { λ s. (1 ≤ s.piece) × (vec_len s.bytes + s.room ≤ vec_capacity s.bytes) };
}

impl MemorySink {
    /// An empty sink with room for so many bytes, which takes at most `piece` bytes in a call, one
    /// at least. `NoRoom` where there is no memory for the room.
    pub fn new(alloc: Global, room: usize, piece: usize) -> Result<MemorySink, NoRoom>
        requires { 1 ≤ piece }
        ensures { IfOk result (λ sink. sink ≡ record { written = []; room = room; piece = piece; failing = []; calls = 0; faults = 0 }) }
    {
        match Vec::with_capacity(alloc, room) {
            Ok(bytes) => Ok(MemorySink {
                bytes,
                room,
                piece,
                failing: Vec::new(alloc),
                calls: 0,
                faults: 0,
            }),
            Err(_) => Err(NoRoom),
        }
    }

    /// Makes the call of `put` with this number fail, counted from 1 since the sink was made.
    /// `NoRoom` where memory is refused; then the sink is as it was.
    pub fn fail_at(&mut self, call: u64) -> Result<(), NoRoom>
        ensures ok { OnOk result (self.new ≡ record self.old { failing = self.old.failing ++ call ∷ [] }) }
        ensures err { OnErr result (self.new ≡ self.old) }
    {
        match self.failing.push(call) {
            Ok(()) => Ok(()),
            Err(_) => Err(NoRoom),
        }
    }

    /// What is written.
    pub fn written(&self) -> &[u8]
        ensures { result.now ≡ self.now.written }
    {
        self.bytes.as_slice()
    }
}

impl Sink for MemorySink {
    ghost use Rattle.std.specs.Prelude.{Some};

    ghost written = { λ s. Some s.written };

    ghost faults = { λ s. s.faults };

    fn put(&mut self, bytes: &[u8]) -> Result<usize, PutError>
        ensures taken { IfOk result (λ n. HasTaken (Some self.old.written) (Some self.new.written) bytes.now n) }
        ensures failed { OnErr result (HasRisen self.old.faults self.new.faults) }
        ensures unchanged { OnErr result (Some self.new.written ≡ Some self.old.written) }

        ensures never_falls { self.old.faults ≤ self.new.faults }
        ensures bounded { self.new.faults < 2 ^ 64 }

        // Exactly the listed calls fail, and those that find the room full and have a byte to put.
        ensures fails { IsErr result ↔ (Contains self.old.failing (next_count self.old.calls) ⊎ ((self.old.room ≡ 0) × (0 < length bytes.now))) }
        ensures least { IfOk result (λ n. n ≡ min (min (length bytes.now) self.old.piece) self.old.room) }
        ensures after_ok { IfOk result (λ n. self.new ≡ record self.old { written = self.old.written ++ take n bytes.now; room = self.old.room - n; calls = next_count self.old.calls }) }
        ensures after_err { OnErr result (self.new ≡ record self.old { calls = next_count self.old.calls; faults = next_count self.old.faults }) }
    {
        self.calls = next_count(self.calls);
        if self.failing.contains(&self.calls) || (self.room == 0 && !bytes.is_empty()) {
            self.faults = next_count(self.faults);
            return Err(PutError::Failed);
        }
        let length = bytes.len().min(self.piece).min(self.room);
        self.bytes.extend_from_slice(&bytes[..length]).unwrap();
        self.room -= length;
        Ok(length)
    }
}

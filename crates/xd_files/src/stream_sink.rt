//! The sink over a stream.

ghost use Rattle.std.specs.Prelude.{◌≡◌, ◌<◌, ◌≤◌, length, take, IfOk, OnErr};
ghost use Rattle.std.specs.Io.KnownBytes.{Appends};
ghost use Rattle.xd_files.specs.Front.{GrowsByFront};

use std::io::{self, ErrorKind, Write};
use xd_base::{PutError, Sink};

/// A stream, as the standard output. It doesn't tell what is written.
#[derive(Drop)]
pub struct StreamSink<W: Write> {
    stream: W,
    faults: u64,
}

impl<W: Write> StreamSink<W> {
    /// A sink that writes to this stream, and flushes it. It has had no fault yet.
    pub fn new(stream: W) -> Self
        ensures { result.faults ≡ 0 }
    {
        Self { stream, faults: 0 }
    }
}

/// How many bytes the stream takes of these and flushes. To take none, though there are some, is a
/// fault.
fn write_some<W: Write>(stream: &mut W, bytes: &[u8]) -> io::Result<usize>
    ensures count { IfOk result (λ n. (n ≤ length bytes.now) × (0 < length bytes.now → 0 < n)) }
    ensures taken { IfOk result (λ n. Appends (W.contents stream.old) (W.contents stream.new) (take n bytes.now)) }
    ensures failed { OnErr result (GrowsByFront (W.contents stream.old) (W.contents stream.new) bytes.now) }
{
    let taken = stream.write(bytes)?;
    if taken == 0 && !bytes.is_empty() {
        return Err(io::Error::from(ErrorKind::WriteZero));
    }
    stream.flush()?;
    Ok(taken)
}

impl<W: Write> Sink for StreamSink<W> {
    ghost use Rattle.std.specs.Prelude.{None};

    ghost written = { λ _. None };

    ghost faults = { λ s. s.faults };

    fn put(&mut self, bytes: &[u8]) -> Result<usize, PutError> {
        let _faults = self.faults;
        match write_some(&mut self.stream, bytes) {
            Ok(n) => Ok(n),
            Err(_) => {
                self.faults = self.faults.saturating_add(1);
                Err(PutError::Failed)
            }
        }
    }
}

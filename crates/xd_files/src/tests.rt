//! The shelf of files and the sink over a stream, once each.

use crate::file_shelf::{FileShelf, ReadFault, front};
use crate::stream_sink::StreamSink;
use std::io::{ErrorKind, Read, Write};
use std::test::Fail;
use std::{fs, io};
use xd_base::{FetchError, PutError, Shelf, Sink};

/// A reader whose every call is interrupted.
#[derive(Drop)]
struct Interrupted;

impl Read for Interrupted {
    fn read(&mut self, _bytes: &mut [u8]) -> io::Result<usize> {
        Err(io::Error::from(ErrorKind::Interrupted))
    }
}

#[test]
fn files_are_fetched_up_to_a_length(rt: HostRuntime) -> Result<(), Fail> {
    fs::write(&rt, "fetched.tmp", "type A = a[]")?;
    let mut shelf = FileShelf::new(&rt);
    let start = shelf.fetch(rt.alloc(), "fetched.tmp", 4);
    let whole = shelf.fetch(rt.alloc(), "fetched.tmp", 100);
    let missing = shelf.fetch(rt.alloc(), "no such file.tmp", 100);
    fs::remove_file(&rt, "fetched.tmp")?;
    assert_eq!(rt; start?.as_slice(), b"type".as_slice());
    assert_eq!(rt; whole?.as_slice(), b"type A = a[]".as_slice());
    assert_eq!(rt; missing.err(), Some(FetchError::Failed));
    assert_eq!(rt;
        front(rt.alloc(), &mut Interrupted, 4).err(),
        Some(ReadFault::Io)
    );
    Ok(())
}

/// A stream that takes two bytes at a time, is interrupted once its room is full, and flushes so
/// many times.
#[derive(Drop)]
struct Narrow {
    room: usize,
    flushes: u64,
}

impl Write for Narrow {
    fn write(&mut self, bytes: &[u8]) -> io::Result<usize> {
        let taken = bytes.len().min(2);
        if self.room < taken {
            return Err(io::Error::from(ErrorKind::Interrupted));
        }
        self.room -= taken;
        Ok(taken)
    }

    fn flush(&mut self) -> io::Result<()> {
        if self.flushes == 0 {
            return Err(io::Error::from(ErrorKind::StorageFull));
        }
        self.flushes -= 1;
        Ok(())
    }
}

#[test]
fn a_stream_takes_pieces_until_it_fails(rt: HostRuntime) {
    let mut sink = StreamSink::new(Narrow {
        room: 3,
        flushes: 1,
    });
    assert_eq!(rt; sink.put(b"yes\n"), Ok(2));
    assert_eq!(rt; sink.put(b"s\n"), Err(PutError::Failed));
    assert_eq!(rt; sink.put(b"s"), Err(PutError::Failed));
}

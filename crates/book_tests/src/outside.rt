//! The adapters over files, readers and writers.

use pb_outside::{
    Files, OutError, Sink, Source, StreamSink, StreamSource, SystemFiles, read_up_to,
};
use std::alloc::Global;
use std::io::{Read, Write};
use std::test::Fail;
use std::{fs, io, process};

// Whether the file holds just these bytes, which is found at a limit of their number, and not at one less.
fn holds<F: Files>(
    alloc: Global,
    files: &mut F,
    name: &str,
    want: &[u8],
) -> Result<bool, OutError> {
    match files.read(alloc, name, want.len())? {
        Some(bytes) => Ok(bytes.as_slice() == want),
        None => Ok(false),
    }
}

#[test]
fn a_file_of_the_system_is_written_and_read(rt: HostRuntime) -> Result<(), Fail> {
    let name = format!(in rt.alloc(); "/tmp/book_tests-{}", process::id(rt.process()))?;
    write_pieces(&rt, name.as_str())?;
    let mut files = SystemFiles::new(&rt);
    assert!(rt; holds(rt.alloc(), &mut files, name.as_str(), b"abcde")?);
    assert!(rt; !holds(rt.alloc(), &mut files, name.as_str(), b"abcd")?);
    fs::remove_file(&rt, name.as_str())?;
    assert!(rt; holds(rt.alloc(), &mut files, name.as_str(), b"abcde").is_err());
    assert_eq!(rt; files.faults(), 1);
    Ok(())
}

// Writes two pieces into a new file.
fn write_pieces(rt: &HostRuntime, name: &str) -> Result<(), Fail> {
    let mut sink = StreamSink::new(fs::File::create(rt, name)?);
    put_pieces(&mut sink)
}

fn put_pieces<S: Sink>(sink: &mut S) -> Result<(), Fail> {
    sink.write(b"abc")?;
    sink.write(b"de")?;
    Ok(())
}

// A reader that gives two bytes and then fails.
#[derive(Drop)]
struct Torn {
    given: bool,
}

impl Read for Torn {
    fn read(&mut self, buf: &mut [u8]) -> io::Result<usize> {
        if self.given || buf.len() < 2 {
            return Err(io::Error::from(io::ErrorKind::Other));
        }
        self.given = true;
        buf[0] = b'a';
        buf[1] = b'b';
        Ok(2)
    }
}

#[test]
fn a_fault_behind_two_bytes_is_told(rt: HostRuntime) {
    let mut torn = StreamSource::new(Torn { given: false });
    assert!(rt; matches!(read_up_to(rt.alloc(), &mut torn, 9), Err(OutError::Failed)));
    assert_eq!(rt; torn.read_faults(), 1);
}

// A writer that takes one byte a call, and whose flush may fail.
#[derive(Drop)]
struct Slow<'a> {
    taken: &'a mut Vec<u8>,
    flushes: bool,
}

impl Write for Slow<'_> {
    fn write(&mut self, buf: &[u8]) -> io::Result<usize> {
        let Some(first) = buf.first() else {
            return Ok(0);
        };
        self.taken.push(*first)?;
        Ok(1)
    }

    fn flush(&mut self) -> io::Result<()> {
        if self.flushes {
            Ok(())
        } else {
            Err(io::Error::from(io::ErrorKind::Other))
        }
    }
}

// What a write of three bytes answers, and how many faults there are then.
fn write_slowly(taken: &mut Vec<u8>, flushes: bool) -> (bool, u64) {
    let mut slow = StreamSink::new(Slow { taken, flushes });
    let done = slow.write(b"abc").is_ok();
    (done, slow.write_faults())
}

#[test]
fn a_piece_is_written_byte_by_byte_and_a_failed_flush_is_told(rt: HostRuntime) {
    let mut taken = Vec::new(rt.alloc());
    assert_eq!(rt; write_slowly(&mut taken, true), (true, 0));
    assert_eq!(rt; taken.as_slice(), b"abc".as_slice());
    assert_eq!(rt; write_slowly(&mut taken, false), (false, 1));
    assert_eq!(rt; taken.as_slice(), b"abcabc".as_slice());
}

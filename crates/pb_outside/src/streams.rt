//! Adapters over readers and writers: standard input and output, opened files and connections. They tell what the reader
//! or the writer tells, and those of the system tell nothing.
ghost use Rattle.std.specs.Prelude.{◌≡◌, ◌+◌, ◌≤◌, ◌++◌, [], None, drop, false, length};
ghost use Rattle.pb_outside.specs.Source.{no_input};
ghost use Rattle.pb_outside.specs.Sink.{no_output};

use crate::{Ends, FaultCount, OutError, Sink, Source};
use std::io::{IoSlice, Read, Write};

// How many bytes one read asks for at most.
const CHUNK: usize = 8_192;

/// A source over a reader. Each error of the reader is a fault.
#[derive(Drop)]
pub struct StreamSource<R: Read> {
    reader: R,
    // What each read is made into. It is cleared once.
    chunk: [u8; CHUNK],
    faults: FaultCount,
}

impl<R: Read> StreamSource<R> {
    /// No fault so far.
    pub fn new(reader: R) -> StreamSource<R>
        ensures left { (⟦<StreamSource<R> as Ends>⟧.input result).left ≡ R.remaining reader }
        ensures faults { (⟦<StreamSource<R> as Ends>⟧.input result).faults.count ≡ 0 }
    {
        StreamSource {
            reader,
            chunk: [0; CHUNK],
            faults: FaultCount::new(),
        }
    }
}

impl<R: Read> Ends for StreamSource<R> {
    ghost input = { λ s.
        record { left = R.remaining s.reader; faults = record { count = s.faults; faultless = false } } };

    ghost output = { λ _. no_output };

    ghost names = { λ _. [] };
}

impl<R: Read> Source for StreamSource<R> {
    fn read(&mut self, into: &mut Vec<u8>, max: usize) -> Result<usize, OutError> {
        let most = max.min(CHUNK);
        into.reserve(most)?;
        let chunk = &mut self.chunk[..];
        match self.reader.read(&mut chunk[..most]) {
            Ok(count) => {
                // There is room, so no byte that was read is lost.
                if into.extend_from_slice(&chunk[..count]).is_err() {
                    unreachable!();
                }
                Ok(count)
            }
            Err(_) => self.faults.fail(),
        }
    }

    fn read_faults(&self) -> u64 {
        self.faults.faults()
    }
}

/// What is left of two pieces, one behind the other, behind so many bytes of both.
pub fn behind<'a>(first: &'a [u8], second: &'a [u8], count: usize) -> (&'a [u8], &'a [u8])
    requires { count ≤ length first.now + length second.now }
    ensures { result.0.now ++ result.1.now ≡ drop count (first.now ++ second.now) }
{
    if count < first.len() {
        (&first[count..], second)
    } else {
        (&[], &second[count - first.len()..])
    }
}

/// A sink over a writer. Each error of the writer is a fault, and so is a write that takes nothing.
#[derive(Drop)]
pub struct StreamSink<W: Write> {
    writer: W,
    faults: FaultCount,
}

impl<W: Write> StreamSink<W> {
    /// No fault so far.
    pub fn new(writer: W) -> StreamSink<W>
        ensures taken { (⟦<StreamSink<W> as Ends>⟧.output result).taken ≡ W.contents writer }
        ensures faults { (⟦<StreamSink<W> as Ends>⟧.output result).faults ≡ 0 }
    {
        StreamSink {
            writer,
            faults: FaultCount::new(),
        }
    }
}

impl<W: Write> Ends for StreamSink<W> {
    ghost input = { λ _. no_input };

    ghost output = { λ s. record { taken = W.contents s.writer; room = None; faults = s.faults } };

    ghost names = { λ _. [] };
}

impl<W: Write> Sink for StreamSink<W> {
    fn write(&mut self, piece: &[u8]) -> Result<(), OutError> {
        let mut rest = piece;
        while !rest.is_empty() {
            match self.writer.write(rest) {
                Ok(0) => return self.faults.fail(),
                Ok(count) => rest = &rest[count..],
                Err(_) => return self.faults.fail(),
            }
        }
        if self.writer.flush().is_err() {
            return self.faults.fail();
        }
        Ok(())
    }

    fn write_both(&mut self, first: &[u8], second: &[u8]) -> Result<(), OutError> {
        let (mut front, mut rest) = (first, second);
        while !front.is_empty() || !rest.is_empty() {
            match self
                .writer
                .write_vectored(&[IoSlice::new(front), IoSlice::new(rest)])
            {
                Ok(0) => return self.faults.fail(),
                Ok(count) => (front, rest) = behind(front, rest, count),
                Err(_) => return self.faults.fail(),
            }
        }
        if self.writer.flush().is_err() {
            return self.faults.fail();
        }
        Ok(())
    }

    fn write_faults(&self) -> u64 {
        self.faults.faults()
    }
}

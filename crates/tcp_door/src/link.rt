//! Connections over TCP.
ghost use Rattle.std.specs.Prelude.{◌≡◌, ◌≢◌, ◌≤◌, ◌++◌, [], true, IfOk, OnOk, OnErr};
ghost use Rattle.pb_outside.specs.Sink.{TakesFront, TakesPiece};
ghost use Rattle.pb_outside.specs.Faults.{Rose};
ghost use Rattle.pb_outside.specs.Source.{Appends, ReadsPiece};
ghost use Rattle.pb_door.specs.LinkTold.{IsUnwritten, link_told};
ghost use Rattle.tcp_door.specs.Untold.{untold};

use crate::patience::{Progress, before_read, bound_waits, end_connection, is_late, write_whole};
use crate::watch::Watch;
use crate::write_both::WriteBoth;
use pb_outside::{Ends, FaultCount, Link, OutError, Sink, Source, StreamSource};
use std::net::TcpStream;
use std::time::Clock;

/// A connection over TCP. It tells how often reading and writing have failed, and none of its bytes. A peer that sends
/// nothing for 30 seconds, takes nothing for as long, or takes more than 120 seconds for the head and the body of one
/// message, is a fault of this connection.
#[derive(Drop)]
pub struct TcpLink<W: Watch + Drop> {
    stream: TcpStream,
    watch: W,
    progress: Progress,
    read_faults: FaultCount,
    write_faults: FaultCount,
}

impl<W: Watch + Drop> TcpLink<W> {
    /// A connection that was just made.
    pub(crate) fn new(stream: TcpStream, watch: W) -> TcpLink<W>
        ensures { let input = ⟦<TcpLink<W> as Ends>⟧.input result in
            link_told input (⟦<TcpLink<W> as Ends>⟧.output result) ≡ untold 0 0 }
    {
        // Without it a short response may wait for the peer to confirm the one before. Where it can't be set nothing
        // else changes.
        let _set = stream.set_nodelay(true);
        bound_waits(&stream);
        TcpLink {
            stream,
            watch,
            progress: Progress::Awaited,
            read_faults: FaultCount::new(),
            write_faults: FaultCount::new(),
        }
    }

    /// Ends the connection so that the peer gets all that was written.
    pub(crate) fn close(self) {
        let TcpLink {
            stream,
            watch,
            progress: _,
            read_faults: _,
            write_faults: _,
        } = self;
        end_connection(stream, &watch);
    }
}

impl<W: Watch + Drop> Ends for TcpLink<W> {
    ghost use Rattle.std.specs.Prelude.{None, false};

    ghost input = { λ l.
        record { left = None; faults = record { count = l.read_faults; faultless = false } } };

    ghost output = { λ l. record { taken = None; room = None; faults = l.write_faults } };

    ghost names = { λ _. [] };
}

impl<W: Watch + Drop> Source for TcpLink<W> {
    fn read(&mut self, into: &mut Vec<u8>, max: usize) -> Result<usize, OutError> {
        self.progress = before_read(&self.watch, self.progress);
        let late = is_late(&self.watch, self.progress);
        let mut source = StreamSource::new(&self.stream);
        let count = read_in_time(late, &mut source, &mut self.read_faults, into, max)?;
        if matches!(self.progress, Progress::Awaited) {
            self.progress = Progress::Begun;
        }
        Ok(count)
    }

    fn read_faults(&self) -> u64 {
        self.read_faults.faults()
    }
}

// Reads from a source, unless it is too late. Both a fault of the source and being late are faults of the connection, and
// never the end of what comes.
fn read_in_time<S: Source>(
    late: bool,
    source: &mut S,
    faults: &mut FaultCount,
    into: &mut Vec<u8>,
    max: usize,
) -> Result<usize, OutError>
    requires { 1 ≤ max }
    ensures late { late ≡ true → result ≡ Err OutError.Failed }
    ensures at_most { IfOk result (λ count. count ≤ max) }
    ensures appends { IfOk result (λ count. Appends count into.old.items into.new.items) }
    ensures told { let left = (S.input source.old).left in
        let left' = (S.input source.new).left in
        IfOk result (λ count. ReadsPiece count left left' into.old.items into.new.items) }
    ensures stays { OnOk result (faults.new ≡ faults.old) }
    ensures unchanged { OnErr result (into.new.items ≡ into.old.items) }
    ensures rose { result ≡ Err OutError.Failed → Rose faults.old faults.new }
    ensures never_falls { faults.old ≤ faults.new }
{
    if late {
        return faults.fail();
    }
    match source.read(into, max) {
        Err(OutError::Failed) => faults.fail(),
        Err(OutError::Memory) => Err(OutError::Memory),
        Ok(count) => Ok(count),
    }
}

impl<W: Watch + Drop> Sink for TcpLink<W> {
    fn write(&mut self, piece: &[u8]) -> Result<(), OutError> {
        self.progress = Progress::Awaited;
        let mut stream = &self.stream;
        write_in_time(&mut stream, &self.watch, &mut self.write_faults, &[], piece)
    }

    fn write_both(&mut self, first: &[u8], second: &[u8]) -> Result<(), OutError> {
        self.progress = Progress::Awaited;
        let mut stream = &self.stream;
        write_in_time(
            &mut stream,
            &self.watch,
            &mut self.write_faults,
            first,
            second,
        )?;
        self.watch.note_answered();
        Ok(())
    }

    fn write_faults(&self) -> u64 {
        self.write_faults.faults()
    }
}

// Writes two pieces whole, one behind the other. Where the stream refused a part of them, or where they took too long, that is
// a fault of the connection, and never the end of what was due.
fn write_in_time<S: WriteBoth, C: Clock>(
    stream: &mut S,
    clock: &C,
    faults: &mut FaultCount,
    first: &[u8],
    second: &[u8],
) -> Result<(), OutError>
    ensures whole { let piece = first.now ++ second.now in
        OnOk result (TakesPiece piece (S.contents stream.old) (S.contents stream.new)) }
    ensures cut { let piece = first.now ++ second.now in
        OnErr result (TakesFront piece (S.contents stream.old) (S.contents stream.new)) }
    ensures stays { OnOk result (faults.new ≡ faults.old) }
    ensures rose { OnErr result (Rose faults.old faults.new) }
    ensures no_memory { result ≢ Err OutError.Memory }
    ensures never_falls { faults.old ≤ faults.new }
{
    if write_whole(stream, clock, first, second) {
        return Ok(());
    }
    faults.fail()
}

impl<W: Watch + Drop> Link for TcpLink<W> {}

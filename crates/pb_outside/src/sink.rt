//! Where bytes go.
ghost use Rattle.std.specs.Prelude.{◌≡◌, ◌≢◌, ◌++◌, OnOk, OnErr};
ghost use Rattle.pb_outside.specs.Sink.{Takes, Refuses};

use crate::{Ends, OutError};

/// Bytes that go out: standard output, a connection, or bytes kept in memory.
pub trait Sink: Ends {
    /// Takes the whole piece. After an error it may have taken a front of it. This takes no memory.
    fn write(&mut self, piece: &[u8]) -> Result<(), OutError>
        ensures whole { OnOk result (Takes piece.now (Self.output self.old) (Self.output self.new)) }
        ensures cause { OnErr result (Refuses piece.now (Self.output self.old) (Self.output self.new)) }
        ensures no_memory { result ≢ Err OutError.Memory }
        ensures other_end { Self.input self.new ≡ Self.input self.old }
        ensures same_names { Self.names self.new ≡ Self.names self.old };

    /// Takes two pieces, one behind the other, by one write of both. After an error it may have taken a front of both
    /// together. This takes no memory.
    fn write_both(&mut self, first: &[u8], second: &[u8]) -> Result<(), OutError>
        ensures whole { let piece = first.now ++ second.now in
            OnOk result (Takes piece (Self.output self.old) (Self.output self.new)) }
        ensures cause { let piece = first.now ++ second.now in
            OnErr result (Refuses piece (Self.output self.old) (Self.output self.new)) }
        ensures no_memory { result ≢ Err OutError.Memory }
        ensures other_end { Self.input self.new ≡ Self.input self.old }
        ensures same_names { Self.names self.new ≡ Self.names self.old };

    /// How often writing has failed so far.
    fn write_faults(&self) -> u64
        ensures { result ≡ (Self.output self.now).faults };
}

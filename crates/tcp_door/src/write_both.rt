//! Writing two pieces by one call of the system.
ghost use Rattle.std.specs.Prelude.{◌++◌};
ghost use Rattle.std.specs.Io.{WritesAtMost};
ghost use Rattle.std.specs.Io.KnownBytes.{WriteAppends};

use std::io::{self, IoSlice};
use std::net::TcpStream;

/// A writer that takes two pieces, one behind the other, by one call.
pub(crate) trait WriteBoth {
    ghost use Rattle.std.specs.Prelude.{ℕ, List, Option};

    /// What it took so far, where it tells that.
    ghost contents: { Self → Option (List ℕ) };

    /// Takes a front of both, and says how many bytes that is.
    fn write_both(&mut self, first: &[u8], second: &[u8]) -> io::Result<usize>
        ensures bound { WritesAtMost result (first.now ++ second.now) }
        ensures bytes { let piece = first.now ++ second.now in
            WriteAppends (contents self.old) (contents self.new) result piece };
}

impl WriteBoth for &TcpStream {
    ghost use Rattle.std.specs.Prelude.{None};

    // A socket tells none of its bytes.
    ghost contents = { λ _. None };

    fn write_both(&mut self, first: &[u8], second: &[u8]) -> io::Result<usize> {
        let stream = *self;
        stream.write_vectored(&[IoSlice::new(first), IoSlice::new(second)])
    }
}

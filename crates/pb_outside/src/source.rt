//! Where bytes come from.
ghost use Rattle.std.specs.Prelude.{◌≡◌, ◌≤◌, IfOk, OnOk, OnErr};
ghost use Rattle.std.specs.Io.KnownBytes.{Keeps};
ghost use Rattle.pb_outside.specs.Faults.{Fails, IsLater};
ghost use Rattle.pb_outside.specs.Source.{Appends, ReadsPiece};

use crate::{Ends, OutError};

/// Bytes that come in piece by piece: standard input, a connection, or bytes in memory.
pub trait Source: Ends {
    /// Appends the next bytes, `max` of them at most, and answers how many. 0 is the end.
    fn read(&mut self, into: &mut Vec<u8>, max: usize) -> Result<usize, OutError>
        requires { 1 ≤ max }
        ensures at_most { IfOk result (λ count. count ≤ max) }
        ensures appends { IfOk result (λ count. Appends count into.old.items into.new.items) }
        ensures told { let left = (Self.input self.old).left in
            let left' = (Self.input self.new).left in
            IfOk result (λ count. ReadsPiece count left left' into.old.items into.new.items) }
        ensures stays { let before = (Self.input self.old).faults in
            let after = (Self.input self.new).faults in
            OnOk result (after.count ≡ before.count) }
        ensures unchanged { OnErr result (into.new.items ≡ into.old.items) }
        ensures kept { OnErr result (Keeps (Self.input self.old).left (Self.input self.new).left) }
        ensures cause { let before = (Self.input self.old).faults in
            let after = (Self.input self.new).faults in
            result ≡ Err OutError.Failed → Fails before after }
        ensures later { IsLater (Self.input self.old).faults (Self.input self.new).faults }
        ensures other_end { Self.output self.new ≡ Self.output self.old }
        ensures same_names { Self.names self.new ≡ Self.names self.old };

    /// How often reading has failed so far.
    fn read_faults(&self) -> u64
        ensures { result ≡ (Self.input self.now).faults.count };
}

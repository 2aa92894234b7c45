//! How a session ends.

use http_wire::ReadFault;

/// The link failed while something was written. Both counts of its faults are told.
#[derive(Clone, Copy, Debug, PartialEq, Eq)]
pub struct WriteFault {
    /// The count when the write began.
    pub before: u64,
    /// The count when it ended.
    pub after: u64,
}

impl From<WriteFault> for SessionEnd {
    ghost use Rattle.std.specs.Prelude.{◌≡◌};
    ghost use Rattle.session.specs.declared.end.SessionEnd.TheVariants.{WriteFault};

    ghost from_gives = { λ fault end. end ≡ WriteFault fault };

    fn from(fault: WriteFault) -> SessionEnd {
        SessionEnd::WriteFault(fault)
    }
}

/// How a session ends.
#[derive(Clone, Copy, Debug, PartialEq, Eq)]
pub enum SessionEnd {
    /// The link ended between two messages, or a message asked to close. All responses were written.
    Done,
    /// Something in the link was no message and was refused, or the link ended inside a body, which is left unanswered.
    Broken,
    /// Reading failed. What is due for all that was read was written.
    ReadFault(ReadFault),
    /// Writing failed. A front of what was due was taken.
    WriteFault(WriteFault),
    /// There was no memory to read on. All that was due was written, and then the response of want of memory.
    Memory,
}

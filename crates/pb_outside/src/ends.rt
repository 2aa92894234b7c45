//! What an object of the outside tells of its two ends.
ghost use Rattle.std.specs.Prelude.{List};
ghost use Rattle.std.specs.Borrow.{GName};
ghost use Rattle.pb_outside.specs.Source.{SourceTold};
ghost use Rattle.pb_outside.specs.Sink.{SinkTold};

/// The two ends of an object: bytes come in by one and go out by the other. An object that has one end tells nothing of
/// the other, and one that is both, as a connection, is read and written without a change to its other end.
pub trait Ends {
    /// What reads take from.
    ghost input: { Self → SourceTold };

    /// What writes add to.
    ghost output: { Self → SinkTold };

    /// Which references the object holds, in the order of its fields. No call changes them.
    ghost names: { Self → List GName };
}

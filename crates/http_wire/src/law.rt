//! The law of the items of a stream.
ghost use Rattle.std.specs.Prelude.{◌≡◌, ℕ, List};
ghost use Rattle.http_wire.specs.Items.{Last, Items};
ghost use Rattle.http_wire.specs.declared.message.Message.{Message};

/// A stream has one reading: which messages it has and how it stops is settled by its bytes alone. The call does nothing.
pub fn one_reading()
    ensures { (s : List ℕ) (messages others : List Message) (last end : Last)
        → Items s messages last → Items s others end → (messages ≡ others) × (last ≡ end) }
{}

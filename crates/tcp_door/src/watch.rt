//! What the ports of a door look at and tell beside their connections.

ghost use Rattle.std.specs.Prelude.{◌≡◌, Bool, true};

use std::time::Clock;

/// What the ports of a door look at and tell beside their connections: one for all of them. A contract says nothing of it.
pub trait Watch: Clock {
    /// Whether anything may stop it.
    ghost may_stop: { Bool };

    /// Whether the door gives no more connections. A port asks this before it takes one, and each second while it waits.
    fn is_stopped(&self) -> bool
        ensures { result ≡ true → Self.may_stop ≡ true };

    /// The door has begun to listen at this port of the machine.
    fn note_listening(&self, port: u16);

    /// A connection came.
    fn note_given(&self);

    /// Two pieces were written whole, as each response is. A `100 Continue` is one piece and isn't told.
    fn note_answered(&self);

    /// A connection ended. Reading or writing may have failed on it.
    fn note_ended(&self, failed: bool);

    /// A connection could not be taken now. The port tries again.
    fn note_refused(&self);
}

impl<W: Watch> Watch for &W {
    ghost may_stop = { W.may_stop };

    fn is_stopped(&self) -> bool {
        (**self).is_stopped()
    }

    fn note_listening(&self, port: u16) {
        (**self).note_listening(port);
    }

    fn note_given(&self) {
        (**self).note_given();
    }

    fn note_answered(&self) {
        (**self).note_answered();
    }

    fn note_ended(&self, failed: bool) {
        (**self).note_ended(failed);
    }

    fn note_refused(&self) {
        (**self).note_refused();
    }
}

//! What says that a clause is looked at when a literal becomes false.
ghost use Rattle.std.specs.Prelude.{◌≡◌, ◌<◌, ◌^◌};

use std::marker::Model;

/// An entry of a literal's list: a clause that watches the literal, and another literal of that clause. Where
/// that one is true, the clause has nothing to say.
#[derive(Clone, Copy)]
pub(crate) struct Watch {
    pub(crate) clause: u32,
    pub(crate) blocker: u32,
    /// The clause has no literals but the two.
    pub(crate) is_binary: bool,
}

/// An entry in 8 bytes, as the lists keep it. Contracts see the entry.
#[derive(Clone, Copy)]
pub(crate) struct ShortWatch {
    // Twice the place of the clause, plus one if it has two literals.
    place: u32,
    blocker: u32,
}

impl Model for ShortWatch {
    ghost use Rattle.std.specs.Prelude.{◌+◌, ◌*◌, ◌/◌, ◌%◌, ◌==◌, if◌then◌else◌};
    ghost use Rattle.propagate.specs.declared.watch.Watch.{Watch};
    ghost use Rattle.propagate.specs.Packing.{place_back};

    ghost Value = { Watch };

    ghost view = { λ w.
        record { clause = w.place / 2; blocker = w.blocker; is_binary = w.place % 2 == 1 } };

    ghost inverse = { λ e. record {
      place = 2 * e.clause + (if e.is_binary then 1 else 0);
      blocker = e.blocker;
    } };

    ghost inverse_ok = { λ a h i. record { place = place_back a.place i; blocker = a.blocker } };
}

impl ShortWatch {
    /// The entry in 8 bytes.
    #[inline(always)]
    pub(crate) fn of(watch: Watch) -> ShortWatch
        requires { watch.clause < 2 ^ 31 }
        ensures { result ≡ watch }
    {
        ShortWatch {
            place: 2 * watch.clause + u32::from(watch.is_binary),
            blocker: watch.blocker,
        }
    }

    /// What stands where no entry is.
    pub(crate) fn blank() -> ShortWatch {
        ShortWatch {
            place: 0,
            blocker: 0,
        }
    }

    /// The entry itself.
    #[inline(always)]
    pub(crate) fn watch(&self) -> Watch
        ensures value { result ≡ self.now }
        ensures small { result.clause < 2 ^ 31 }
    {
        Watch {
            clause: self.place / 2,
            blocker: self.blocker,
            is_binary: self.place % 2 == 1,
        }
    }
}

/// The two literals of a clause that it watches.
#[derive(Clone, Copy)]
pub(crate) struct Watched {
    pub(crate) first: u32,
    pub(crate) second: u32,
}

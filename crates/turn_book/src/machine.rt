//! What a machine is.
ghost use Rattle.turn_book.specs.Laws.{StaysValid, StaysFitting};

/// A value that changes by calls, one after the other. Its state is the value itself.
pub trait Machine {
    type Call;

    type Reply;

    /// Which states can come up.
    ghost valid: { Self → Type 0 };

    /// Which calls a state takes.
    ghost fits: { Self → Self.Call → Type 0 };

    /// The state before, the call, its reply and the state after.
    ghost legal: { Self → Self.Call → Self.Reply → Self → Type 0 };

    fn step(&mut self, call: Self::Call) -> Self::Reply
        requires state { valid self.old }
        requires call { fits self.old call }
        ensures { legal self.old call result self.new };

    /// A legal step leads from a valid state to a valid one.
    ghost stays_valid: { StaysValid valid fits legal };

    /// A call that fits a state fits it after a legal step too.
    ghost stays_fitting: { StaysFitting valid fits legal };
}

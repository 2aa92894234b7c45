//! Who makes steps of the desk.
ghost use Rattle.std.specs.Prelude.{◌≡◌};
ghost use Rattle.order_desk.specs.Fits.{Fits};
ghost use Rattle.order_desk.specs.Valid.{IsValid};
ghost use Rattle.answering.specs.Hand.{Takes};
ghost use Rattle.answering.specs.Told.{Tells};

use order_desk::{Answer, Event};

/// Makes steps of the desk, one at a time.
pub trait Turns {
    ghost use Rattle.answering.specs.Hand.{Hand};

    /// What the holder knows and may do.
    ghost hand: { Self → Hand };

    /// How many steps are left. The state that was seen is valid.
    fn left(&self) -> u64
        ensures left { result ≡ (hand self.now).left }
        ensures valid { IsValid (hand self.now).state.tables };

    /// The answer to an event. Where no step is left it says that the calls are used up, and nothing changes.
    fn step(&mut self, event: Event) -> Answer
        requires { Fits (hand self.old).state.tables event }
        ensures takes { Takes (hand self.old) event result (hand self.new) }
        ensures tells { Tells event result (hand self.new).state.tables }
        ensures valid { IsValid (hand self.new).state.tables };
}

/// What was seen of the desk is valid. The call does nothing.
pub fn valid_law<T: Turns>(turns: &T)
    ensures { IsValid (T.hand turns.now).state.tables }
{
    let _left = turns.left();
}

//! The desk as a machine that many call in turn.

use crate::{Answer, Desk, Event};
use keeper::Keeper;
use turn_book::Machine;

impl<P: Keeper> Machine for Desk<P> {
    type Call = Event;

    type Reply = Answer;

    ghost use Rattle.order_desk.specs.Fits.{Fits};
    ghost use Rattle.order_desk.specs.Lasting.{fits_last};
    ghost use Rattle.order_desk.specs.Turn.{IsTurn};
    ghost use Rattle.order_desk.specs.Valid.{IsValid};

    ghost valid = { λ s. IsValid s.tables };

    ghost fits = { λ s event. Fits s.tables event };

    ghost legal = { λ old event answer new. IsTurn old event answer new };

    fn step(&mut self, event: Event) -> Answer {
        Desk::step(self, event)
    }

    ghost stays_valid = { λ x c r y valid fits turn. turn.valid };

    ghost stays_fitting = { λ x c r y d valid fits turn also. fits_last x.tables y.tables d turn.grows also };
}

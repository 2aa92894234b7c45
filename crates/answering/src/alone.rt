//! The one who makes all steps of a desk.
ghost use Rattle.std.specs.Prelude.{◌≡◌};

use crate::turns::Turns;
use desk_words::{FullOf, Reply};
use keeper::Keeper;
use order_desk::{Answer, Desk, Event};
use std::marker::Model;

/// Holds a desk alone. So each step begins where the one before it ended, and no list of the steps is kept.
pub struct Alone<P: Keeper> {
    desk: Desk<P>,
    left: u64,
}

impl<P: Keeper> Model for Alone<P> {
    ghost use Rattle.answering.specs.Alone.{Holding, holding_code};

    ghost Value = { Holding };

    ghost coded = { holding_code };

    ghost view = { λ a. record { state = a.desk; left = a.left } };
}

impl<P: Keeper> Alone<P> {
    /// Takes a desk, for so many steps.
    pub fn new(desk: Desk<P>, left: u64) -> Alone<P>
        ensures { result ≡ record { state = desk; left = left } }
    {
        Alone { desk, left }
    }

    /// The desk, as it is after the steps made.
    pub fn into_desk(self) -> Desk<P>
        ensures { result ≡ self.state }
    {
        let Alone { desk, left: _ } = self;
        desk
    }
}

impl<P: Keeper> Turns for Alone<P> {
    ghost use Rattle.answering.specs.Alone.{hand_alone};

    ghost hand = { λ a. hand_alone a };

    fn left(&self) -> u64 {
        self.desk.valid_law();
        self.left
    }

    #[tactic(auto, using(crate::proofs::ToldLaws::tells_said, crate::proofs::ToldLaws::tells_step))]
    fn step(&mut self, event: Event) -> Answer {
        if self.left == 0 {
            self.desk.valid_law();
            return Answer::Say(Reply::Full(FullOf::Calls));
        }
        self.left -= 1;
        self.desk.step(event)
    }
}

//! One who makes steps of a desk in turn with others.
ghost use Rattle.std.specs.Prelude.{◌≡◌, None, Some};
ghost use Rattle.order_desk.specs.Fits.{Fits};
ghost use Rattle.answering.specs.Hand.{Takes};
ghost use Rattle.answering.specs.Seat.{IsSeated, hand_of, sitting};
ghost use Rattle.answering.specs.Told.{Tells};

use crate::turns::Turns;
use desk_words::{FullOf, Reply};
use keeper::Keeper;
use order_desk::{Answer, Desk, Event};
use std::marker::Model;
use std::mem;
use std::sync::Wait;
use turn_book::{Pass, TurnBook};

/// Makes steps of a desk that others step too, each in its turn, with the calls of a pass. A step waits until the turn comes. It
/// has no `Drop`: it ends in `into_pass`.
pub struct Seat<'b, R: Wait, P: Keeper> {
    rt: &'b R,
    book: &'b TurnBook<Desk<P>>,
    pass: Option<Pass<Desk<P>>>,
}

impl<'b, R: Wait, P: Keeper> Model for Seat<'b, R, P> {
    ghost use Rattle.std.specs.Coded.{codes};
    ghost use Rattle.std.specs.Prelude.{◌≡◌, Some};
    ghost use Rattle.release.specs.ReleaseCode.{release_code};
    ghost use Rattle.answering.specs.Seat.{IsSeated, Sitting, pass_of, sitting};

    ghost Value = { Sitting };

    ghost coded = { Prim.hlevel (codes, release_code) };

    ghost view = { λ s. sitting s.book.now (pass_of s.book.now s.pass) };

    ghost invariant = { λ s. (s.pass ≡ Some (pass_of s.book.now s.pass))
        × IsSeated (sitting s.book.now (pass_of s.book.now s.pass)) };
}

impl<'b, R: Wait, P: Keeper> Seat<'b, R, P> {
    /// Takes a pass of this book, for as many steps as it has calls left.
    pub fn new(rt: &'b R, book: &'b TurnBook<Desk<P>>, pass: Pass<Desk<P>>) -> Seat<'b, R, P>
        requires { IsSeated (sitting book.now pass) }
        ensures { result ≡ sitting book.now pass }
    {
        Seat {
            rt,
            book,
            pass: Some(pass),
        }
    }

    /// The pass, as it is after the steps made.
    pub fn into_pass(self) -> Pass<Desk<P>>
        ensures pass { result ≡ self.entry.pass }
        ensures seated { IsSeated self.entry }
    {
        let Seat {
            rt: _,
            book: _,
            pass,
        } = self;
        match pass {
            Some(pass) => pass,
            None => unreachable!(),
        }
    }
}

impl<'b, R: Wait, P: Keeper> Turns for Seat<'b, R, P> {
    ghost use Rattle.answering.specs.Seat.{hand_of};

    ghost hand = { λ s. hand_of s };

    fn left(&self) -> u64 {
        match &self.pass {
            Some(pass) => pass.left(),
            None => unreachable!(),
        }
    }

    fn step(&mut self, event: Event) -> Answer {
        match mem::replace(&mut self.pass, None) {
            Some(pass) => {
                let (answer, pass) = called(self.rt, self.book, pass, event);
                nothing(mem::replace(&mut self.pass, Some(pass)));
                answer
            }
            None => unreachable!(),
        }
    }
}

// One call of a pass, where it has one left.
#[tactic(auto, using(crate::proofs::ToldLaws::tells_said))]
fn called<R: Wait, P: Keeper>(
    rt: &R,
    book: &TurnBook<Desk<P>>,
    pass: Pass<Desk<P>>,
    event: Event,
) -> (Answer, Pass<Desk<P>>)
    requires seated { IsSeated (sitting book.now pass) }
    requires fits { Fits (hand_of (sitting book.now pass)).state.tables event }
    ensures takes { Takes (hand_of (sitting book.now pass)) event result.0
        (hand_of (sitting book.now result.1)) }
    ensures tells { Tells event result.0 (hand_of (sitting book.now result.1)).state.tables }
    ensures seated { IsSeated (sitting book.now result.1) }
{
    if pass.left() == 0 {
        return (Answer::Say(Reply::Full(FullOf::Calls)), pass);
    }
    book.call(rt, pass, event)
}

// What stood where the pass is put back.
fn nothing<P: Keeper>(held: Option<Pass<Desk<P>>>)
    requires { held ≡ None }
{
    match held {
        Some(_pass) => unreachable!(),
        None => {}
    }
}

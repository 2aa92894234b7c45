//! What each kind of step on the table tells the seat that makes it.
use crate::machine::Machine;
use crate::view::View;
use atomic_table::{Join, Play, Split};
use std::marker::{Brand, PhantomData};

/// The machine that the table opened with, for a proof to name.
pub trait Opens<M> {
    ghost use Rattle.std.specs.Prelude.{Option};

    ghost start: { Option M };
}

impl<M> Opens<M> for Brand {
    ghost use Rattle.std.specs.Prelude.{None};

    ghost start = { None };
}

/// A call and its reply, for a proof to name.
pub trait Noted<C, R> {
    ghost use Rattle.std.specs.Prelude.{Option};

    ghost call: { Option C };

    ghost reply: { Option R };
}

impl<C, R> Noted<C, R> for Brand {
    ghost use Rattle.std.specs.Prelude.{None};

    ghost call = { None };

    ghost reply = { None };
}

/// How many calls go to the second of two passes, for a proof to name.
pub trait Portion {
    ghost use Rattle.std.specs.Prelude.{ℕ};

    ghost given: { ℕ };
}

impl Portion for Brand {
    ghost given = { 0 };
}

pub struct Draw;

impl<M, C, R> Play<Option<M>, View<M, C, R>> for Draw {
    ghost use Rattle.turn_book.specs.Steps.{Draws};

    ghost then = { Draws };
}

pub struct Look<M, B> {
    opens: PhantomData<(M, B)>,
}

impl<M: Machine, B: Opens<M>> Play<Option<M>, View<M, M::Call, M::Reply>> for Look<M, B> {
    ghost use Rattle.turn_book.specs.History.{IsRun};
    ghost use Rattle.turn_book.specs.Steps.{Looks, TakesTurnFrom};

    ghost then = { Looks (TakesTurnFrom (IsRun M.fits M.legal M.valid) B.start) };
}

pub struct Count<N> {
    noted: PhantomData<N>,
}

impl<M, C, R, N: Noted<C, R>> Play<Option<M>, View<M, C, R>> for Count<N> {
    ghost use Rattle.turn_book.specs.Steps.{Counts};

    ghost then = { Counts (N.call, N.reply) };
}

pub struct PassOn;

impl<M, C, R> Play<Option<M>, View<M, C, R>> for PassOn {
    ghost use Rattle.turn_book.specs.Steps.{PassesOn};

    ghost then = { PassesOn };
}

pub struct Meet;

impl<M, C, R> Play<Option<M>, View<M, C, R>> for Meet {
    ghost use Rattle.turn_book.specs.Steps.{Meets};

    ghost then = { Meets };
}

pub struct Share<P> {
    portion: PhantomData<P>,
}

impl<M, C, R, P: Portion> Split<View<M, C, R>> for Share<P> {
    ghost use Rattle.turn_book.specs.Steps.{kept_of, share_of};

    ghost left = { kept_of P.given };

    ghost right = { share_of P.given };
}

pub struct Both;

impl<M, C, R> Join<View<M, C, R>> for Both {
    ghost use Rattle.turn_book.specs.Steps.{both_of, spent};

    ghost both = { both_of };

    ghost spent = { spent };
}

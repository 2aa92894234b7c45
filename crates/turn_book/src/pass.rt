//! The right to make calls.
ghost use Rattle.std.specs.Prelude.{◌≡◌, length};

use crate::machine::Machine;
use crate::view::View;
use atomic_table::Seat;
use std::marker::Model;

/// The right to make a number of calls at one turn book. It has no `Drop`: it ends in `TurnBook::join` or in
/// `TurnBook::close`. Contracts see its book, the history as far as it has seen it, the places there of its own calls,
/// from 0, and how many calls it has left. It holds no ticket, so nobody waits for it.
pub struct Pass<M: Machine> {
    pub(crate) seat: Seat<Option<M>, View<M, M::Call, M::Reply>>,
    pub(crate) left: u64,
    pub(crate) made: u64,
}

impl<M: Machine> Model for Pass<M> {
    ghost use Rattle.std.specs.Prelude.{◌≡◌, [], length};
    ghost use Rattle.turn_book.specs.Standing.{Standing};
    ghost use Rattle.turn_book.specs.declared.view.Stage.TheVariants.{Idle};

    ghost Value = { Standing M M.Call M.Reply };

    ghost view = { λ p. record {
      table = p.seat.table_id;
      seen = p.seat.me.0.seen;
      own = p.seat.me.0.own;
      left = p.left;
    } };

    ghost invariant = { λ p. (p.seat.me.1 ≡ [])
        × (p.seat.me.0.stage ≡ Idle)
        × (p.left ≡ p.seat.me.0.left)
        × (p.made ≡ length p.seat.me.0.own) };
}

impl<M: Machine> Pass<M> {
    /// How many calls may still be made.
    pub fn left(&self) -> u64
        ensures { result ≡ self.now.left }
    {
        self.left
    }

    /// How many calls were made.
    pub fn made(&self) -> u64
        ensures { result ≡ length self.now.own }
    {
        self.made
    }
}

//! Calls one after the other.
ghost use Rattle.std.specs.Prelude.{◌≡◌, ◌+◌, ◌-◌, ◌<◌, ◌≤◌, [], ◌∷◌, ◌++◌, length, IfOk, IfErr};
ghost use Rattle.turn_book.specs.History.{end_of, longer, StartsWith, AddsCall, AreAllBelow, IsHistory};
ghost use Rattle.turn_book.specs.Standing.{IsOpening};

use crate::machine::Machine;
use crate::pass::Pass;
use crate::plays::{Both, Draw, Meet};
use crate::slot::{from_one_slot, full, one_slot};
use crate::steps::{cut, take_turn, wait_turn};
use crate::view::{MACHINE, Opening, SERVING, TICKET, Turns, View};
use atomic_table::{Refused, Table};
use std::alloc::Global;
use std::marker::{Brand, Model};
use std::snapshot::Snapshot;
use std::sync::Wait;

/// A machine that threads call one after the other, in the order of their tickets. It has no `Drop`: it ends in `close`.
/// Contracts see which book it is, the machine that it was opened with, and how many calls it allows.
pub struct TurnBook<M: Machine> {
    table: Table<Option<M>, View<M, M::Call, M::Reply>, Opening<M>, Turns<M>, Global>,
}

impl<M: Machine> Model for TurnBook<M> {
    ghost use Rattle.std.specs.Prelude.{◌≡◌};
    ghost use Rattle.turn_book.specs.Standing.{Opened};

    ghost Value = { Opened M };

    ghost view = { λ b. record {
      table = b.table.shared.table_id;
      start = b.table.shared.key.start.value;
      limit = b.table.shared.key.limit;
    } };

    ghost invariant = { λ b. (b.table.shared.table_id.words ≡ 3) × (b.table.shared.table_id.slots ≡ 1) };
}

impl<M: Machine> TurnBook<M> {
    /// A book for `limit` calls in all, and the pass that has them. `Err` is want of memory: the machine comes back.
    pub fn new(alloc: Global, machine: M, limit: u64) -> Result<(TurnBook<M>, Pass<M>), M>
        requires machine { M.valid machine }
        requires limit { 1 ≤ limit }
        ensures ok { IfOk result (λ opened. IsOpening machine limit opened.0 opened.1) }
        ensures err { IfErr result (λ back. back ≡ machine) }
    {
        let opening = Opening {
            start: Snapshot::of(&machine),
            limit,
        };
        let slots = match one_slot(alloc, machine) {
            Ok(slots) => slots,
            Err(machine) => return Err(machine),
        };
        match Table::new(alloc, &[0, 0, 0], slots, &opening) {
            Ok((table, seat)) => Ok((
                TurnBook { table },
                Pass {
                    seat,
                    left: limit,
                    made: 0,
                },
            )),
            Err(Refused { slots }) => Err(from_one_slot(slots)),
        }
    }

    /// Makes one call at the machine, when its turn comes. It may wait for the turns of others, and sleeps where that takes long.
    /// The history that the new pass has seen begins with what the old one had, and ends with this call.
    pub fn call<R: Wait>(&self, rt: &R, pass: Pass<M>, call: M::Call) -> (M::Reply, Pass<M>)
        requires book { pass.table ≡ self.now.table }
        requires left { 0 < pass.left }
        requires call { M.fits (end_of self.now.start pass.seen) call }
        ensures book { result.1.table ≡ pass.table }
        ensures history { IsHistory M.fits M.legal self.now.start result.1.seen }
        ensures machine { M.valid (end_of self.now.start result.1.seen) }
        ensures entry { AddsCall pass.seen call result.0 result.1.seen }
        ensures place { result.1.own ≡ pass.own ++ (length result.1.seen - 1) ∷ [] }
        ensures left { result.1.left + 1 ≡ pass.left }
    {
        let Pass {
            mut seat,
            left,
            made,
        } = pass;
        let table = &self.table.shared;
        let ticket = table.fetch_add::<Draw>(&mut seat, TICKET, 1);
        wait_turn::<M, Brand, R>(rt, table, &mut seat, ticket);
        let reply = take_turn(table, &mut seat, call);
        let pass = Pass {
            seat,
            left: left - 1,
            made: made + 1,
        };
        (reply, pass)
    }

    /// Cuts `left` calls off a pass, for a second pass that has seen the same. The first pass keeps the rest, and the
    /// calls that it has made.
    pub fn split(&self, pass: Pass<M>, left: u64) -> (Pass<M>, Pass<M>)
        requires book { pass.table ≡ self.now.table }
        requires left { left ≤ pass.left }
        ensures books { (result.0.table ≡ pass.table) × (result.1.table ≡ pass.table) }
        ensures seen { (result.0.seen ≡ pass.seen) × (result.1.seen ≡ pass.seen) }
        ensures first { (result.0.own ≡ pass.own) × (result.0.left + left ≡ pass.left) }
        ensures second { (result.1.own ≡ []) × (result.1.left ≡ left) }
    {
        let Pass {
            mut seat,
            left: all,
            made,
        } = pass;
        let other = cut::<M, Brand>(&self.table.shared, &mut seat, left);
        let first = Pass {
            seat,
            left: all - left,
            made,
        };
        let second = Pass {
            seat: other,
            left,
            made: 0,
        };
        (first, second)
    }

    /// Makes one pass of two: it has seen what both have, and their calls left and made are added.
    pub fn join(&self, a: Pass<M>, b: Pass<M>) -> Pass<M>
        requires books { (a.table ≡ self.now.table) × (b.table ≡ self.now.table) }
        ensures book { result.table ≡ a.table }
        ensures longer { result.seen ≡ longer a.seen b.seen }
        ensures seen { StartsWith result.seen a.seen × StartsWith result.seen b.seen }
        ensures own { result.own ≡ a.own ++ b.own }
        ensures left { result.left ≡ a.left + b.left }
    {
        let Pass {
            mut seat,
            left,
            made,
        } = a;
        let Pass {
            seat: other,
            left: other_left,
            made: other_made,
        } = b;
        let table = &self.table.shared;
        table.join_seat::<Both>(&mut seat, other);
        table.load::<Meet>(&mut seat, SERVING);
        Pass {
            seat,
            left: left + other_left,
            made: made + other_made,
        }
    }

    /// The machine after the whole history, when no other pass has a call left or made: the pass has then seen all of
    /// the history, and each call in it is the pass's own.
    pub fn close(self, pass: Pass<M>) -> M
        requires book { pass.table ≡ self.table }
        requires counted { pass.left + length pass.own ≡ self.limit }
        ensures machine { result ≡ end_of self.start pass.seen }
        ensures valid { M.valid result }
        ensures history { IsHistory M.fits M.legal self.start pass.seen }
        ensures made { length pass.seen ≡ length pass.own }
        ensures own { AreAllBelow (length pass.seen) pass.own }
    {
        let TurnBook { table } = self;
        let Pass {
            seat,
            left: _,
            made: _,
        } = pass;
        let mut closed = table.close_with(seat);
        let held = closed.take(MACHINE);
        closed.free();
        full(held)
    }
}

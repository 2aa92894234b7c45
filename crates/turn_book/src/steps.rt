//! The steps of a call, between the ticket and the end of the turn.
ghost use Rattle.std.specs.Prelude.{◌≡◌, ◌≤◌, [], Some};
ghost use Rattle.turn_book.specs.History.{IsRun, entry};
ghost use Rattle.turn_book.specs.Steps.{IsAt, IsSameSeat, machine_at, Holds, TakesTurn, MakesCall, HoldsStep, has_counted, kept_of, share_of};
ghost use Rattle.turn_book.specs.declared.view.Stage.TheVariants.{Idle, Waits, Turn};

use crate::machine::Machine;
use crate::plays::{Count, Look, Noted, Opens, PassOn, Portion, Share};
use crate::slot::{empty, full};
use crate::view::{LENGTH, MACHINE, Opening, SERVING, TICKET, Turns, View};
use atomic_table::{Seat, Shared};
use std::hint::spin_loop;
use std::marker::Brand;
use std::snapshot::Snapshot;
use std::sync::Wait;

type TurnTable<M> = Shared<
    Option<M>,
    View<M, <M as Machine>::Call, <M as Machine>::Reply>,
    Opening<M>,
    Turns<M>,
>;

type TurnSeat<M> = Seat<Option<M>, View<M, <M as Machine>::Call, <M as Machine>::Reply>>;

// How often a seat that waits looks before it sleeps.
const LOOKS: u32 = 64;

// Looks at the ticket that is served, until it is this seat's. A turn is mostly short, so it first looks again at once, and then
// sleeps until the turn is passed on. Between the looks it doesn't give its processor away: its turn would come while other
// programs run in its place, and all who stand behind would wait for that.
pub(crate) fn wait_turn<M: Machine, B: Opens<M>, R: Wait>(
    rt: &R,
    table: &TurnTable<M>,
    seat: &mut TurnSeat<M>,
    ticket: u64,
)
    requires table { IsAt table.now.table_id seat.old.table_id }
    requires start { B.start ≡ Some table.now.key.start.value }
    requires ticket { (seat.old.me.0.stage ≡ Waits) × (seat.old.me.0.ticket ≡ ticket) }
    ensures seat { IsSameSeat seat.old seat.new }
    ensures turn { let is_run = IsRun M.fits M.legal M.valid in
        TakesTurn is_run table.now.key.start.value seat.old.me seat.new.me }
{
    let mut looks = 0;
    for _ in rt.forever() {
        let serving = table.load::<Look<M, B>>(seat, SERVING);
        if serving == ticket {
            return;
        }
        if looks < LOOKS {
            looks += 1;
            spin_loop();
        } else {
            table.park(rt, SERVING, low_half(serving));
        }
    }
    unreachable!()
}

// The bits of a word by which threads sleep on it.
fn low_half(word: u64) -> u32 {
    (word % 4_294_967_296) as u32
}

// Wakes those who sleep, where a ticket beyond the one that was served has been drawn. Who draws one later finds the turn
// passed on when it looks, and so doesn't sleep on the old ticket.
fn wake_waiting<M: Machine>(table: &TurnTable<M>, served: u64)
    requires { table.now.table_id.words ≡ 3 }
{
    if table.peek(TICKET) > served.saturating_add(1) {
        table.wake_all(SERVING);
    }
}

// The machine's step, out of the table and back into it, and the end of the turn. Those who wait are woken.
pub(crate) fn take_turn<M: Machine>(
    table: &TurnTable<M>,
    seat: &mut TurnSeat<M>,
    call: M::Call,
) -> M::Reply
    requires table { IsAt table.now.table_id seat.old.table_id }
    requires turn { seat.old.me.0.stage ≡ Turn }
    requires machine { Holds seat.old.me (machine_at table.now.key.start.value seat.old.me) }
    requires valid { M.valid (machine_at table.now.key.start.value seat.old.me) }
    requires call { M.fits (machine_at table.now.key.start.value seat.old.me) call }
    ensures seat { IsSameSeat seat.old seat.new }
    ensures call { let before = machine_at table.now.key.start.value seat.old.me in
        MakesCall (M.legal before) call result seat.old.me seat.new.me }
{
    let mut machine = full(table.exchange(seat, MACHINE, None));
    let asked = Snapshot::of(&call);
    let reply = machine.step(call);
    let said = Snapshot::of(&reply);
    empty(table.exchange(seat, MACHINE, Some(machine)));
    count::<M, Brand>(table, seat, &asked, &said);
    let served = table.fetch_add::<PassOn>(seat, SERVING, 1);
    wake_waiting::<M>(table, served);
    reply
}

// Puts the call with its reply into the history.
fn count<M: Machine, N: Noted<M::Call, M::Reply>>(
    table: &TurnTable<M>,
    seat: &mut TurnSeat<M>,
    asked: &Snapshot<M::Call>,
    said: &Snapshot<M::Reply>,
)
    requires table { IsAt table.now.table_id seat.old.table_id }
    requires noted { (N.call ≡ Some asked.now.value) × (N.reply ≡ Some said.now.value) }
    requires turn { seat.old.me.0.stage ≡ Turn }
    requires step { HoldsStep M.fits M.legal table.now.key.start.value
        (asked.now.value, said.now.value) seat.old.me }
    ensures seat { IsSameSeat seat.old seat.new }
    ensures counted { (y : M) → Holds seat.old.me y
        → let last = entry asked.now.value said.now.value y in
        seat.new.me ≡ (has_counted last seat.old.me.0, seat.old.me.1) }
{
    table.fetch_add::<Count<N>>(seat, LENGTH, 1);
}

// A second seat, which has `left` of the first one's calls.
pub(crate) fn cut<M: Machine, P: Portion>(
    table: &TurnTable<M>,
    seat: &mut TurnSeat<M>,
    left: u64,
) -> TurnSeat<M>
    requires table { IsAt table.now.table_id seat.old.table_id }
    requires portion { P.given ≡ left }
    requires left { left ≤ seat.old.me.0.left }
    requires idle { seat.old.me.0.stage ≡ Idle }
    ensures seat { IsSameSeat seat.old seat.new }
    ensures first { seat.new.me ≡ (kept_of left seat.old.me.0, seat.old.me.1) }
    ensures second { (result.table_id ≡ seat.old.table_id) × (result.me ≡ (share_of left seat.old.me.0, [])) }
{
    table.split_seat::<Share<P>>(seat)
}

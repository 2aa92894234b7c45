//! The messages of one link, answered in order.
ghost use Rattle.std.specs.Prelude.{◌≡◌, OnOk, IfErr};
ghost use Rattle.answering.specs.LaterHand.{IsLaterHand};
ghost use Rattle.session.specs.Dealing.{HasDealt};
ghost use Rattle.session.specs.Session.{IsSession, told};
ghost use Rattle.session.specs.Steps.{GoesOn, seen};

use crate::answer::answer;
use crate::end::SessionEnd;
use crate::receive::next_message;
use crate::respond::respond;
use crate::write::give_up;
use answering::{Gate, Turns, valid_law};
use http_api::Routes;
use http_wire::Wire;
use pb_base::Memory;
use pb_outside::Link;
use std::alloc::Global;

/// Answers the messages of a link in order, until it ends, a message asks to close, or something goes wrong. The link has the
/// responses, and the desk the effect of each call that was answered.
pub fn session<L: Link, T: Turns, G: Gate>(
    alloc: Global,
    link: &mut L,
    turns: &mut T,
    gate: &G,
) -> SessionEnd
    // Each exchange is one in the words of the trade.
    ensures dealt { let before = told (L.input link.old) (L.output link.old) in
        let after = told (L.input link.new) (L.output link.new) in
        HasDealt result (T.hand turns.old) before after (T.hand turns.new) }
    // Whatever the link tells.
    ensures steps { IsLaterHand (T.hand turns.old) (T.hand turns.new) }
    ensures same_names { L.names link.new ≡ L.names link.old }
{
    match Routes::new(alloc) {
        Ok(routes) => session_by(alloc, &routes, link, turns, gate),
        Err(Memory) => {
            valid_law(turns);
            give_up(link)
        }
    }
}

/// Does what `session` does, by paths that were read before: who serves many links reads them once.
pub fn session_by<L: Link, T: Turns, G: Gate>(
    alloc: Global,
    routes: &Routes,
    link: &mut L,
    turns: &mut T,
    gate: &G,
) -> SessionEnd
    ensures dealt { let before = told (L.input link.old) (L.output link.old) in
        let after = told (L.input link.new) (L.output link.new) in
        HasDealt result (T.hand turns.old) before after (T.hand turns.new) }
    ensures steps { IsLaterHand (T.hand turns.old) (T.hand turns.new) }
    ensures same_names { L.names link.new ≡ L.names link.old }
{
    valid_law(turns);
    serve(alloc, routes, link, turns, gate)
}

// The messages, by what is read and written for them.
fn serve<L: Link, T: Turns, G: Gate>(
    alloc: Global,
    routes: &Routes,
    link: &mut L,
    turns: &mut T,
    gate: &G,
) -> SessionEnd
    ensures serves { let before = told (L.input link.old) (L.output link.old) in
        let after = told (L.input link.new) (L.output link.new) in
        IsSession result (T.hand turns.old) before after (T.hand turns.new) }
    ensures same_names { L.names link.new ≡ L.names link.old }
{
    let mut wire = Wire::new(alloc);
    // No link has so many messages.
    for _ in 0..u64::MAX {
        if let Err(end) = exchange(alloc, routes, &mut wire, link, turns, gate) {
            return end;
        }
    }
    give_up(link)
}

// Answers the next message, or ends the session.
fn exchange<L: Link, T: Turns, G: Gate>(
    alloc: Global,
    routes: &Routes,
    wire: &mut Wire,
    link: &mut L,
    turns: &mut T,
    gate: &G,
) -> Result<(), SessionEnd>
    ensures goes_on { let before = seen wire.old (L.input link.old) (L.output link.old) in
        let after = seen wire.new (L.input link.new) (L.output link.new) in
        OnOk result (GoesOn (T.hand turns.old) before (T.hand turns.new) after) }
    ensures ended { let before = seen wire.old (L.input link.old) (L.output link.old) in
        let after = told (L.input link.new) (L.output link.new) in
        IfErr result (λ end. IsSession end (T.hand turns.old) before after (T.hand turns.new)) }
    ensures same_names { L.names link.new ≡ L.names link.old }
{
    let message = next_message(alloc, wire, link)?;
    let made = answer(alloc, routes, turns, gate, &message);
    respond(link, &message.head, made)
}

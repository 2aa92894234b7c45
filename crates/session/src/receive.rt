//! Reading the next message of a link.
ghost use Rattle.std.specs.Prelude.{◌≡◌, IfOk, IfErr, OnOk};
ghost use Rattle.pb_outside.specs.Sink.{Takes};
ghost use Rattle.http_api.specs.Response.{bad_response};
ghost use Rattle.session.specs.Responses.{interim};
ghost use Rattle.session.specs.Session.{WriteFails, told};
ghost use Rattle.session.specs.Steps.{EndsBehind, EndsRefused, EndsUnanswered, EndsUnread, Receives, ReceivesBehind, ReceivesHead, seen};

use crate::end::{SessionEnd, WriteFault};
use crate::write::{end_with, give_up, write};
use http_api::{bad_response, memory_response};
use http_wire::{BodyStep, Head, HeadStep, Message, ReadFault, Refusal, Wire};
use pb_base::{Fail, Memory};
use pb_outside::Link;
use std::alloc::Global;

/// The next message with its body. The interim response is written before that where it is awaited.
pub(crate) fn next_message<L: Link>(
    alloc: Global,
    wire: &mut Wire,
    link: &mut L,
) -> Result<Message, SessionEnd>
    ensures received { let before = seen wire.old (L.input link.old) (L.output link.old) in
        let after = seen wire.new (L.input link.new) (L.output link.new) in
        IfOk result (λ m. Receives m before after) }
    ensures ended { let before = seen wire.old (L.input link.old) (L.output link.old) in
        let after = told (L.input link.new) (L.output link.new) in
        IfErr result (λ end. EndsUnanswered end before after) }
    ensures same_names { L.names link.new ≡ L.names link.old }
{
    let head = next_head(alloc, wire, link)?;
    write_interim(link, &head)?;
    read_body(wire, link, head)
}

// The next head. What is no head is refused.
fn next_head<L: Link>(alloc: Global, wire: &mut Wire, link: &mut L) -> Result<Head, SessionEnd>
    ensures received { let before = seen wire.old (L.input link.old) (L.output link.old) in
        let after = seen wire.new (L.input link.new) (L.output link.new) in
        IfOk result (λ head. ReceivesHead head before after) }
    ensures ended { let before = seen wire.old (L.input link.old) (L.output link.old) in
        let after = told (L.input link.new) (L.output link.new) in
        IfErr result (λ end. EndsUnanswered end before after) }
    ensures same_names { L.names link.new ≡ L.names link.old }
{
    match wire.next_head(link) {
        Ok(HeadStep::Head(head)) => Ok(head),
        Ok(HeadStep::End) => Err(SessionEnd::Done),
        Ok(HeadStep::Bad(refusal)) => Err(refuse(alloc, link, refusal)),
        Err(fail) => Err(end_unread(link, fail)),
    }
}

// The message that has this head, which awaits nothing more.
fn read_body<L: Link>(wire: &mut Wire, link: &mut L, head: Head) -> Result<Message, SessionEnd>
    ensures received { let before = seen wire.old (L.input link.old) (L.output link.old) in
        let after = seen wire.new (L.input link.new) (L.output link.new) in
        IfOk result (λ m. ReceivesBehind head m before after) }
    ensures ended { let before = seen wire.old (L.input link.old) (L.output link.old) in
        let after = told (L.input link.new) (L.output link.new) in
        IfErr result (λ end. EndsBehind head end before after) }
    ensures same_names { L.names link.new ≡ L.names link.old }
{
    match wire.body(link, head) {
        Ok(BodyStep::Message(message)) => Ok(message),
        Ok(BodyStep::Cut) => Err(SessionEnd::Broken),
        Err(fail) => Err(end_unread(link, fail)),
    }
}

fn write_interim<L: Link>(link: &mut L, head: &Head) -> Result<(), WriteFault>
    ensures whole { OnOk result (Takes (interim head.now) (L.output link.old) (L.output link.new)) }
    ensures cut { IfErr result (WriteFails (interim head.now) (L.output link.old) (L.output link.new)) }
    ensures other_end { L.input link.new ≡ L.input link.old }
    ensures same_names { L.names link.new ≡ L.names link.old }
{
    if head.expects {
        return write(link, b"HTTP/1.1 100 Continue\r\n\r\n");
    }
    Ok(())
}

// How a session ends that can't read on.
fn end_unread<L: Link>(link: &mut L, fail: Fail<ReadFault>) -> SessionEnd
    ensures ends { EndsUnread fail result (L.output link.old) (L.output link.new) }
    ensures other_end { L.input link.new ≡ L.input link.old }
    ensures same_names { L.names link.new ≡ L.names link.old }
{
    match fail {
        Fail::Refused(fault) => SessionEnd::ReadFault(fault),
        Fail::Memory => give_up(link),
    }
}

// Refuses what is no head. Nothing is read after it.
fn refuse<L: Link>(alloc: Global, link: &mut L, refusal: Refusal) -> SessionEnd
    ensures ends { EndsRefused refusal result (L.output link.old) (L.output link.new) }
    ensures other_end { L.input link.new ≡ L.input link.old }
    ensures same_names { L.names link.new ≡ L.names link.old }
{
    match bad_response(alloc, refusal) {
        Ok(response) => end_with(link, response.as_slice(), SessionEnd::Broken),
        Err(Memory) => end_with(link, memory_response(true, false), SessionEnd::Broken),
    }
}

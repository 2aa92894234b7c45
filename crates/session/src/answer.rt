//! What one message is answered.
ghost use Rattle.std.specs.Prelude.{◌≡◌, ◌≤◌, IfOk, length};
ghost use Rattle.std.specs.Str.{bytes_eq};
ghost use Rattle.pb_base.specs.declared.limits.TheConstants.{MOST_TEXT_BYTES};
ghost use Rattle.http_api.specs.Response.{CanDeny, IsDeniedResponse};
ghost use Rattle.answering.specs.Answers.{IsCall};
ghost use Rattle.session.specs.Responses.{AnswersAsked, AnswersMessage, is_bare};
ghost use Rattle.session.specs.Steps.{text_of};

use answering::{Gate, Turns, answer_call};
use desk_words::Call;
use http_api::{Denied, Response, Routes, response_of};
use http_wire::{Head, Message};
use pb_base::{Fail, Memory};
use std::alloc::Global;

/// Answers a message. Its effect stands also where there is no memory for the response.
pub(crate) fn answer<T: Turns, G: Gate>(
    alloc: Global,
    routes: &Routes,
    turns: &mut T,
    gate: &G,
    message: &Message,
) -> Result<Response, Memory>
    requires { length message.now.body ≤ MOST_TEXT_BYTES }
    ensures { let text = text_of message.now.head result in
        AnswersMessage message.now (T.hand turns.old) text (T.hand turns.new) }
{
    match routes.call_of(alloc, message) {
        Ok(call) => answer_asked(alloc, turns, gate, call, &message.head),
        Err(Fail::Refused(denied)) => deny(alloc, routes, denied, &message.head),
        Err(Fail::Memory) => Err(Memory),
    }
}

fn answer_asked<T: Turns, G: Gate>(
    alloc: Global,
    turns: &mut T,
    gate: &G,
    call: Call,
    head: &Head,
) -> Result<Response, Memory>
    requires { IsCall call.what }
    ensures { let text = text_of head.now result in
        AnswersAsked (Ok call) head.now (T.hand turns.old) text (T.hand turns.new) }
{
    let reply = answer_call(alloc, turns, gate, call);
    response_of(alloc, reply, head.close, is_bare(head))
}

fn deny(alloc: Global, routes: &Routes, denied: Denied, head: &Head) -> Result<Response, Memory>
    requires { CanDeny denied head.now.target }
    ensures { IfOk result (IsDeniedResponse denied head.now.target head.now.close (is_bare head.now)) }
{
    let target = head.target.as_slice();
    match routes.denied_response(alloc, denied, target, head.close, is_bare(head)) {
        Ok(bytes) => Ok(Response::whole(alloc, bytes)),
        Err(Memory) => Err(Memory),
    }
}

/// Whether the response to a message has no body, as that to HEAD.
pub(crate) fn is_bare(head: &Head) -> bool
    ensures { result ≡ is_bare head.now }
{
    head.method.as_slice() == b"HEAD".as_slice()
}

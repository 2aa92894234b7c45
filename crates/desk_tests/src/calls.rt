//! One message, which needs no routes of its own.

use desk_words::{Call, What};
use http_api::{Denied, call_of, denied_response};
use http_wire::{Head, Message};
use pb_base::{Body, Fail as Refusal, Id, Memory};
use std::alloc::Global;
use std::test::Fail;

// The message with this method and this target, of caller ANNA and without a body.
fn message(alloc: Global, method: &[u8], target: &[u8]) -> Result<Message, Fail> {
    let method = method.to_vec(alloc)?;
    let target = target.to_vec(alloc)?;
    Ok(Message {
        head: Head {
            method: Body::of(method),
            target: Body::of(target),
            version: 1,
            close: false,
            length: 0,
            expects: false,
            caller: Id::of(b"ANNA"),
        },
        body: Body::of(Vec::new(alloc)),
    })
}

// What a call asks for: the budget of a check, the number of a book.
fn number_of(call: &Call) -> u32 {
    match &call.what {
        What::Check { budget, .. } => *budget,
        What::ReadBook { book } => *book,
        _ => 0,
    }
}

// The number that a message asks for, or None where its path leads nowhere.
fn asked(alloc: Global, message: &Message) -> Result<Option<u32>, Fail> {
    match call_of(alloc, message) {
        Ok(call) => Ok(Some(number_of(&call))),
        Err(Refusal::Refused(Denied::NoPath)) => Ok(None),
        Err(Refusal::Refused(_)) => Err("a call or no path".into()),
        Err(Refusal::Memory) => Err("ample memory".into()),
    }
}

fn asked_by(alloc: Global, method: &[u8], target: &[u8]) -> Result<Option<u32>, Fail> {
    let message = message(alloc, method, target)?;
    asked(alloc, &message)
}

#[test]
fn a_message_asks_for_a_call(rt: HostRuntime) -> Result<(), Fail> {
    let alloc = rt.alloc();
    assert_eq!(rt; asked_by(alloc, b"GET", b"/books/4")?, Some(4));
    assert_eq!(rt; asked_by(alloc, b"GET", b"/books/x")?, None);
    assert_eq!(rt; asked_by(alloc, b"POST", b"/drafts/T/check")?, Some(10_000));
    Ok(())
}

fn lost(alloc: Global) -> Result<Body, Memory> {
    denied_response(alloc, Denied::NoPath, b"/books/x", true, false)
}

#[test]
fn what_leads_nowhere_is_answered_so(rt: HostRuntime) -> Result<(), Fail> {
    let alloc = rt.alloc();
    let response = lost(alloc)?;
    assert_eq!(rt;
        response.as_slice(),
        b"HTTP/1.1 404 Not Found\r\nContent-Type: text/plain\r\nContent-Length: 13\r\nConnection: close\r\n\r\nno such path\n".as_slice()
    );
    Ok(())
}

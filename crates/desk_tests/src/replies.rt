//! Replies that no run comes to: want of memory, and what is full behind many calls or orders.

use desk_words::{FullOf, Reply};
use http_api::{Response, memory_response, response_of};
use pb_base::Memory;
use std::alloc::Global;
use std::test::Fail;

fn full_response(alloc: Global, what: FullOf, close: bool, bare: bool) -> Result<Response, Memory> {
    response_of(alloc, Reply::Full(what), close, bare)
}

#[test]
fn a_desk_that_is_full_says_of_what(rt: HostRuntime) -> Result<(), Fail> {
    let alloc = rt.alloc();
    let orders = full_response(alloc, FullOf::Orders, false, false)?;
    assert_eq!(rt;
        orders.pieces().0,
        b"HTTP/1.1 507 Insufficient Storage\r\nContent-Type: text/plain\r\nContent-Length: 12\r\n\r\nfull orders\n".as_slice()
    );
    Ok(())
}

#[test]
fn a_run_whose_calls_are_used_up_says_so(rt: HostRuntime) -> Result<(), Fail> {
    let alloc = rt.alloc();
    let calls = full_response(alloc, FullOf::Calls, true, true)?;
    assert_eq!(rt;
        calls.pieces().0,
        b"HTTP/1.1 507 Insufficient Storage\r\nContent-Type: text/plain\r\nContent-Length: 11\r\nConnection: close\r\n\r\n".as_slice()
    );
    Ok(())
}

#[test]
fn want_of_memory_has_its_response_ready(rt: HostRuntime) {
    assert_eq!(rt;
        memory_response(false, false),
        b"HTTP/1.1 500 Internal Server Error\r\nContent-Type: text/plain\r\nContent-Length: 15\r\n\r\nwant of memory\n".as_slice()
    );
    assert_eq!(rt;
        memory_response(true, true),
        b"HTTP/1.1 500 Internal Server Error\r\nContent-Type: text/plain\r\nContent-Length: 15\r\nConnection: close\r\n\r\n".as_slice()
    );
}

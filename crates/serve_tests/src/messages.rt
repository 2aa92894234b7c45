//! What is sent and what comes back.

/// ANNA puts a draft and releases it, as book 1.
pub(crate) const RELEASE: &[u8] =
    b"PUT /drafts/T HTTP/1.1\r\nHost: localhost\r\nX-Caller: ANNA\r\nContent-Length: 121\r\n\r\nbook,T,1,9\ncode,M1,engine one\nconstruct,C1,*,M1,,\nmodule,MOT,motor\nposition,P1,MOT,mandatory,,\nvariant,V1,P1,A100,1,M1,,\nPOST /drafts/T/release HTTP/1.1\r\nHost: localhost\r\nX-Caller: ANNA\r\nContent-Length: 14\r\n\r\n{\"revision\":1}";

pub(crate) const ORDER_OF_HALL1: &[u8] =
    b"PUT /orders/7 HTTP/1.1\r\nHost: localhost\r\nX-Caller: HALL1\r\nContent-Length: 33\r\n\r\n{\"book\":1,\"day\":1,\"codes\":[\"M1\"]}";

pub(crate) const ORDER_OF_HALL2: &[u8] =
    b"PUT /orders/7 HTTP/1.1\r\nHost: localhost\r\nX-Caller: HALL2\r\nContent-Length: 33\r\n\r\n{\"book\":1,\"day\":1,\"codes\":[\"M1\"]}";

/// ANNA has her draft checked, withdraws book 1, and has the draft checked again.
pub(crate) const WITHDRAWAL: &[u8] =
    b"POST /drafts/T/check HTTP/1.1\r\nHost: localhost\r\nX-Caller: ANNA\r\nContent-Length: 0\r\n\r\nPOST /books/1/withdraw HTTP/1.1\r\nHost: localhost\r\nX-Caller: ANNA\r\nContent-Length: 0\r\n\r\nPOST /drafts/T/check HTTP/1.1\r\nHost: localhost\r\nX-Caller: ANNA\r\nContent-Length: 0\r\n\r\n";

pub(crate) const PLACED: &[u8] =
    b"HTTP/1.1 201 Created\r\nContent-Type: text/plain\r\nContent-Length: 32\r\n\r\naccepted\ncodes M1\nMOT,P1,A100,1\n";

pub(crate) const GONE: &[u8] =
    b"HTTP/1.1 410 Gone\r\nContent-Type: text/plain\r\nContent-Length: 12\r\n\r\nwithdrawn 1\n";

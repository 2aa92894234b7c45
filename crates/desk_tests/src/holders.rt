//! A holder with too few steps.

use crate::setting::{link_of, started};
use answering::{Alone, NoGate};
use session::session;
use std::test::Fail;

const TWO_READS: &[u8] =
    b"GET /drafts/T HTTP/1.1\r\nHost: localhost\r\nX-Caller: ANNA\r\n\r\nGET /drafts/T HTTP/1.1\r\nHost: localhost\r\nX-Caller: ANNA\r\n\r\n";

const ONE_ANSWERED: &[u8] =
    b"HTTP/1.1 404 Not Found\r\nContent-Type: text/plain\r\nContent-Length: 14\r\n\r\nno such draft\nHTTP/1.1 507 Insufficient Storage\r\nContent-Type: text/plain\r\nContent-Length: 11\r\n\r\nfull calls\n";

#[test]
fn the_call_behind_the_last_step_is_answered_507(rt: HostRuntime) -> Result<(), Fail> {
    let alloc = rt.alloc();
    let mut link = link_of(alloc, TWO_READS)?;
    let mut turns = Alone::new(started(&rt, alloc), 1);
    let _end = session(alloc, &mut link, &mut turns, &NoGate);
    let _keeper = turns.into_desk().finish();
    assert_eq!(rt; link.taken(), ONE_ANSWERED);
    Ok(())
}

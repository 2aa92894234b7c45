//! How often the gate at the judging is passed.

use crate::setting::{link_of, started};
use answering::{Alone, Gate};
use keeper::MemoryKeeper;
use pb_base::Id;
use session::session;
use std::alloc::Global;
use std::process::Abort;
use std::sync::atomic::{AtomicU64, Ordering};
use std::test::Fail;

// Counts who passes it.
#[derive(Drop)]
struct CountingGate {
    judged: AtomicU64,
}

impl Gate for CountingGate {
    fn judging(&self, _: &Id) {
        self.judged.fetch_add(1, Ordering::SeqCst);
    }
}

// A request, and how often the gate is passed for it.
struct Asked {
    request: &'static [u8],
    judged: u64,
}

const ASKED: &[Asked] = &[
    Asked {
        request: b"PUT /drafts/T HTTP/1.1\r\nHost: localhost\r\nX-Caller: ANNA\r\nContent-Length: 33\r\n\r\nbook,T,1,1000\ncode,M1,engine one\n",
        judged: 0,
    },
    Asked {
        request: b"POST /drafts/T/check HTTP/1.1\r\nHost: localhost\r\nX-Caller: BOB\r\n\r\n",
        judged: 0,
    },
    Asked {
        request: b"POST /drafts/T/check HTTP/1.1\r\nHost: localhost\r\nX-Caller: ANNA\r\n\r\n",
        judged: 1,
    },
    Asked {
        request: b"PUT /orders/7 HTTP/1.1\r\nHost: localhost\r\nX-Caller: HALL1\r\nContent-Length: 33\r\n\r\n{\"book\":1,\"day\":1,\"codes\":[\"M1\"]}",
        judged: 0,
    },
    Asked {
        request: b"POST /drafts/T/release HTTP/1.1\r\nHost: localhost\r\nX-Caller: ANNA\r\nContent-Length: 14\r\n\r\n{\"revision\":1}",
        judged: 1,
    },
    Asked {
        request: b"POST /drafts/T/release HTTP/1.1\r\nHost: localhost\r\nX-Caller: ANNA\r\nContent-Length: 14\r\n\r\n{\"revision\":1}",
        judged: 0,
    },
    // Once where it is judged, and once more where it is told again.
    Asked {
        request: b"PUT /orders/7 HTTP/1.1\r\nHost: localhost\r\nX-Caller: HALL1\r\nContent-Length: 33\r\n\r\n{\"book\":1,\"day\":1,\"codes\":[\"M1\"]}",
        judged: 1,
    },
    Asked {
        request: b"PUT /orders/7 HTTP/1.1\r\nHost: localhost\r\nX-Caller: HALL1\r\nContent-Length: 33\r\n\r\n{\"book\":1,\"day\":1,\"codes\":[\"M1\"]}",
        judged: 1,
    },
    Asked {
        request: b"PUT /orders/7 HTTP/1.1\r\nHost: localhost\r\nX-Caller: HALL1\r\nContent-Length: 33\r\n\r\n{\"book\":1,\"day\":2,\"codes\":[\"M1\"]}",
        judged: 0,
    },
    Asked {
        request: b"GET /orders/7 HTTP/1.1\r\nHost: localhost\r\nX-Caller: HALL1\r\n\r\n",
        judged: 0,
    },
    Asked {
        request: b"POST /books/1/withdraw HTTP/1.1\r\nHost: localhost\r\nX-Caller: ANNA\r\n\r\n",
        judged: 0,
    },
    Asked {
        request: b"PUT /orders/8 HTTP/1.1\r\nHost: localhost\r\nX-Caller: HALL1\r\nContent-Length: 33\r\n\r\n{\"book\":1,\"day\":1,\"codes\":[\"M1\"]}",
        judged: 0,
    },
];

// Sends one request, and gives how often the gate was passed for it.
fn judged_for(alloc: Global, turns: &mut Alone<MemoryKeeper>, request: &[u8]) -> Result<u64, Fail> {
    let gate = CountingGate {
        judged: AtomicU64::new(0),
    };
    let mut link = link_of(alloc, request)?;
    let _end = session(alloc, &mut link, turns, &gate);
    Ok(gate.judged.load(Ordering::SeqCst))
}

fn ask_all<A: Abort>(rt: &A, alloc: Global, turns: &mut Alone<MemoryKeeper>) -> Result<(), Fail> {
    for (place, asked) in ASKED.iter().enumerate() {
        let judged = judged_for(alloc, turns, asked.request)?;
        assert!(rt; judged == asked.judged, "request {place}: {judged}");
    }
    Ok(())
}

#[test]
fn the_gate_is_passed_once_for_each_judging(rt: HostRuntime) -> Result<(), Fail> {
    let alloc = rt.alloc();
    let mut turns = Alone::new(started(&rt, alloc), 100);
    let asked = ask_all(&rt, alloc, &mut turns);
    let _keeper = turns.into_desk().finish();
    asked
}

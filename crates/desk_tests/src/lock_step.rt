//! A link that gives what comes next only when all that is due before it was taken.
ghost use Rattle.std.specs.Prelude.{[]};

use crate::setting::started;
use answering::{Alone, NoGate};
use pb_outside::{Ends, Link, OutError, Sink, Source};
use session::{SessionEnd, session};
use std::alloc::Global;
use std::test::Fail;

// What comes by the link, and what has to be taken before it is read on.
struct Piece {
    comes: &'static [u8],
    due: &'static [u8],
}

const PIECES: &[Piece] = &[
    Piece {
        comes: b"PUT /drafts/T HTTP/1.1\r\nHost: localhost\r\nX-Caller: ANNA\r\nContent-Length: 33\r\nExpect: 100-continue\r\n\r\n",
        due: b"HTTP/1.1 100 Continue\r\n\r\n",
    },
    Piece {
        comes: b"book,T,1,1000\ncode,M1,engine one\n",
        due: b"HTTP/1.1 201 Created\r\nContent-Type: text/plain\r\nContent-Length: 9\r\n\r\nkept T 1\n",
    },
    Piece {
        comes: b"GET /drafts/T/owner HTTP/1.1\r\nHost: localhost\r\nX-Caller: BOB\r\n\r\n",
        due: b"HTTP/1.1 200 OK\r\nContent-Type: text/plain\r\nContent-Length: 22\r\n\r\nowner ANNA revision 1\n",
    },
    Piece {
        comes: b"GET /drafts/U HTTP/1.1\r\nHost: localhost\r\nX-Caller: BOB\r\n\r\n",
        due: b"HTTP/1.1 404 Not Found\r\nContent-Type: text/plain\r\nContent-Length: 14\r\n\r\nno such draft\n",
    },
];

// A link by which the pieces come. It tells nothing.
#[derive(Drop)]
struct LockStep {
    place: usize,
    due: &'static [u8],
    // What was taken since the last piece came.
    taken: Vec<u8>,
    // Whether each read so far found just what was due.
    in_step: bool,
}

impl LockStep {
    fn new(alloc: Global) -> LockStep {
        LockStep {
            place: 0,
            due: b"",
            taken: Vec::new(alloc),
            in_step: true,
        }
    }
}

impl Ends for LockStep {
    ghost use Rattle.pb_outside.specs.Sink.{no_output};
    ghost use Rattle.pb_outside.specs.Source.{no_input};

    ghost input = { λ _. no_input };

    ghost output = { λ _. no_output };

    ghost names = { λ _. [] };
}

impl Source for LockStep {
    fn read(&mut self, into: &mut Vec<u8>, max: usize) -> Result<usize, OutError> {
        if self.taken.as_slice() != self.due {
            self.in_step = false;
        }
        self.taken.clear();
        self.due = b"";
        let Some(piece) = PIECES.get(self.place) else {
            return Ok(0);
        };
        // Each piece is read at once.
        if piece.comes.len() > max {
            self.in_step = false;
            return Ok(0);
        }
        into.extend_from_slice(piece.comes)?;
        self.due = piece.due;
        self.place += 1;
        Ok(piece.comes.len())
    }

    fn read_faults(&self) -> u64 {
        0
    }
}

impl Sink for LockStep {
    fn write(&mut self, piece: &[u8]) -> Result<(), OutError> {
        if self.taken.extend_from_slice(piece).is_err() {
            self.in_step = false;
        }
        Ok(())
    }

    fn write_both(&mut self, first: &[u8], second: &[u8]) -> Result<(), OutError> {
        self.write(first)?;
        self.write(second)
    }

    fn write_faults(&self) -> u64 {
        0
    }
}

impl Link for LockStep {}

#[test]
fn all_that_is_due_is_written_before_more_is_read(rt: HostRuntime) -> Result<(), Fail> {
    let alloc = rt.alloc();
    let mut link = LockStep::new(alloc);
    let mut turns = Alone::new(started(&rt, alloc), 100);
    let end = session(alloc, &mut link, &mut turns, &NoGate);
    let _keeper = turns.into_desk().finish();
    assert_eq!(rt; end, SessionEnd::Done);
    assert_eq!(rt; link.place, PIECES.len());
    assert!(rt; link.in_step);
    Ok(())
}

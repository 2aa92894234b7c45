//! A run of a case, and what came out of it.

use crate::case::Case;
use crate::door::put_links;
use crate::escape::put_shown;
use crate::note_line::put_note;
use crate::outside::{Outside, bytes_left, outside_of};
use crate::rows::{put_rows_line, rows_of};
use crate::run_words::words_of;
use answering::NoGate;
use commands::{Note, RunEnd, RunStatus, run_given};
use keeper::{Keeper, MemoryKeeper, Rows};
use pb_base::{Memory, Text};
use pb_door::Door;
use pb_outside::{Files, Sink, Source};
use std::alloc::Global;
use std::sync::Wait;
use std::thread::Threads;

// How a message is answered that ends inside its head.
const BAD_REQUEST: &[u8] =
    b"HTTP/1.1 400 Bad Request\r\nContent-Type: text/plain\r\nContent-Length: 12\r\nConnection: close\r\n\r\nbad request\n";

/// What came out of a run: its status, how often its keeper failed, the rows of the store, and how what it was handed is left.
#[derive(Drop)]
pub struct Outcome {
    status: RunStatus,
    keeper_faults: u64,
    rows: Rows,
    outside: Outside,
}

/// Does a run of the case with the words of this line, on this input in these pieces, over the rows of the store.
pub fn outcome_of<R: Threads + Wait + Sync>(
    rt: &R,
    alloc: Global,
    case: &Case<'_>,
    line: &str,
    input: &[u8],
    pieces: &[usize],
    store: &mut MemoryKeeper,
) -> Result<Outcome, Memory> {
    let words = words_of(alloc, line)?;
    let outside = outside_of(alloc, case, input, pieces, store)?;
    outcome_from(alloc, run_given(rt, alloc, words, outside, &NoGate))
}

fn outcome_from(alloc: Global, end: RunEnd<Outside>) -> Result<Outcome, Memory> {
    let RunEnd { status, mut world } = end;
    Ok(Outcome {
        status,
        keeper_faults: world.keeper.faults(),
        rows: rows_of(alloc, &mut world.keeper)?,
        outside: world,
    })
}

/// Puts what came out of a run of the case behind a text. What is left of the input is read by this.
pub fn put_outcome(
    alloc: Global,
    text: &mut Text,
    case: &Case<'_>,
    outcome: &mut Outcome,
) -> Result<(), Memory> {
    let taken = outcome.taken();
    let shown = taken.get(..case.shown as usize).unwrap_or(taken);
    put_taken(text, case, shown)?;
    put_links(text, &outcome.outside.channels.door)?;
    put_notes(text, outcome.outside.channels.log.notes())?;
    put_status(text, outcome.status)?;
    put_faults(text, &outcome.faults())?;
    let left = bytes_left(alloc, &mut outcome.outside.channels.source)?;
    if case.shows_rest {
        put_count(text, "left ", left as u64)?;
    }
    put_rows_line(text, &outcome.rows)
}

/// How a run on a front of a message came out.
#[derive(Clone, Copy)]
pub enum Front {
    /// It is done: the front is the whole message.
    Whole,
    /// It ended with 3 and the answer 400 alone.
    InHead,
    /// It ended with 3 and no answer.
    InBody,
    Otherwise,
}

impl Outcome {
    /// What the sink took.
    pub fn taken(&self) -> &[u8] {
        self.outside.channels.sink.taken()
    }

    /// How the run came out, where its input was a front of a message.
    pub fn front(&self) -> Front {
        match self.status {
            RunStatus::Done => Front::Whole,
            RunStatus::Faulty if self.taken() == BAD_REQUEST => Front::InHead,
            RunStatus::Faulty if self.taken().is_empty() => Front::InBody,
            _ => Front::Otherwise,
        }
    }

    /// The rows of the store.
    pub fn rows(&self) -> &Rows {
        &self.rows
    }

    /// The rows of the store.
    pub fn into_rows(self) -> Rows {
        self.rows
    }

    // How often source, files, sink, keeper and door failed.
    fn faults(&self) -> [u64; 5] {
        [
            self.outside.channels.source.read_faults(),
            self.outside.channels.files.faults(),
            self.outside.channels.sink.write_faults(),
            self.keeper_faults,
            self.outside.channels.door.faults(),
        ]
    }
}

fn put_notes(text: &mut Text, notes: &[Note]) -> Result<(), Memory> {
    for note in notes {
        put_note(text, note)?;
    }
    Ok(())
}

fn put_status(text: &mut Text, status: RunStatus) -> Result<(), Memory> {
    text.put(b"status ")?;
    text.put_number(u64::from(status.number()))?;
    text.put(b"\n")
}

fn put_taken(text: &mut Text, case: &Case<'_>, taken: &[u8]) -> Result<(), Memory> {
    if case.shows_sets {
        return put_shown(text, taken);
    }
    match str::from_utf8(taken) {
        Ok(report) => put_without_sets(text, report),
        Err(_) => put_shown(text, taken),
    }
}

fn put_without_sets(text: &mut Text, report: &str) -> Result<(), Memory> {
    for line in report.strip_suffix("\n").unwrap_or(report).split('\n') {
        let (found, shown_by) = line.split_once(" with ").unwrap_or((line, ""));
        text.put(found.as_bytes())?;
        text.put(if shown_by.is_empty() {
            b"\n"
        } else {
            b" with a set\n"
        })?;
    }
    Ok(())
}

fn put_faults(text: &mut Text, faults: &[u64; 5]) -> Result<(), Memory> {
    let [source, files, sink, keeper, door] = *faults;
    put_count(text, "source failed ", source)?;
    put_count(text, "files failed ", files)?;
    put_count(text, "sink failed ", sink)?;
    put_count(text, "keeper failed ", keeper)?;
    put_count(text, "door failed ", door)
}

// Puts a line with this front and a count, where the count isn't 0.
fn put_count(text: &mut Text, front: &str, count: u64) -> Result<(), Memory> {
    if count == 0 {
        return Ok(());
    }
    text.put(front.as_bytes())?;
    text.put_number(count)?;
    text.put(b"\n")
}

//! Each message of a stream, ended at each of its bytes.

use crate::case::Case;
use crate::outcome::{Front, Outcome, outcome_of, put_outcome};
use crate::rows::{put_all_rows, put_rows_line, rows_of};
use crate::series::put_from;
use keeper::{MemoryKeeper, Rows};
use pb_base::{Memory, Text};
use std::alloc::Global;
use std::sync::Wait;
use std::thread::Threads;

/// What came of the fronts of a stream's messages so far.
#[derive(Drop)]
struct Fronts {
    /// Where the message begins whose fronts come now.
    begin: usize,
    /// How many messages were whole.
    whole: u64,
    /// How many fronts ended inside a head, and inside a body.
    in_head: u64,
    in_body: u64,
    /// The answers to the whole messages.
    answers: Text,
}

/// Does a run on each front of each message of the input, over the rows that the messages before it left. Where a run ends with
/// status 0 its front is the whole message, and the next one begins. Counts the fronts, and puts what came out of those that end
/// otherwise than a front does: inside a head with the answer 400 alone, inside a body without an answer, with status 3 and the
/// rows as they were.
pub fn put_messages<R: Threads + Wait + Sync>(
    rt: &R,
    alloc: Global,
    text: &mut Text,
    case: &Case<'_>,
    line: &str,
    store: &mut MemoryKeeper,
) -> Result<(), Memory> {
    let mut first = MemoryKeeper::new(rows_of(alloc, store)?, Vec::new(alloc));
    let mut fronts = Fronts::new(alloc);
    for end in 1..=case.input.bytes().len() {
        put_front(rt, alloc, text, case, line, store, end, &mut fronts)?;
    }
    fronts.put(text)?;
    put_together(rt, alloc, text, case, line, &mut first, &fronts)?;
    put_rows_line(text, &rows_of(alloc, store)?)
}

// Does the run on the front that ends at this place of the input.
fn put_front<R: Threads + Wait + Sync>(
    rt: &R,
    alloc: Global,
    text: &mut Text,
    case: &Case<'_>,
    line: &str,
    store: &mut MemoryKeeper,
    end: usize,
    fronts: &mut Fronts,
) -> Result<(), Memory> {
    let front = case.input.bytes().get(fronts.begin..end).unwrap_or(b"");
    let outcome = outcome_of(rt, alloc, case, line, front, &[], store)?;
    let before = rows_of(alloc, store)?;
    take_front(alloc, text, case, store, end, fronts, outcome, &before)
}

fn take_front(
    alloc: Global,
    text: &mut Text,
    case: &Case<'_>,
    store: &mut MemoryKeeper,
    end: usize,
    fronts: &mut Fronts,
    mut outcome: Outcome,
    before: &Rows,
) -> Result<(), Memory> {
    let same = same_rows(alloc, outcome.rows(), before)?;
    match outcome.front() {
        Front::Whole => return take_whole(alloc, store, end, fronts, outcome),
        Front::InHead if same => fronts.in_head = fronts.in_head.saturating_add(1),
        Front::InBody if same => fronts.in_body = fronts.in_body.saturating_add(1),
        _ => return put_otherwise(alloc, text, case, end, &mut outcome),
    }
    Ok(())
}

// The next message begins, over the rows that this one left.
fn take_whole(
    alloc: Global,
    store: &mut MemoryKeeper,
    end: usize,
    fronts: &mut Fronts,
    outcome: Outcome,
) -> Result<(), Memory> {
    fronts.answers.put(outcome.taken())?;
    fronts.whole = fronts.whole.saturating_add(1);
    fronts.begin = end;
    *store = MemoryKeeper::new(outcome.into_rows(), Vec::new(alloc));
    Ok(())
}

fn put_otherwise(
    alloc: Global,
    text: &mut Text,
    case: &Case<'_>,
    end: usize,
    outcome: &mut Outcome,
) -> Result<(), Memory> {
    let mut told = Text::new(alloc);
    put_outcome(alloc, &mut told, case, outcome)?;
    put_from(text, end as u64, told.bytes())
}

// Puts whether the whole messages were answered as they are in one stream.
fn put_together<R: Threads + Wait + Sync>(
    rt: &R,
    alloc: Global,
    text: &mut Text,
    case: &Case<'_>,
    line: &str,
    store: &mut MemoryKeeper,
    fronts: &Fronts,
) -> Result<(), Memory> {
    let input = case.input.bytes();
    let mut outcome = outcome_of(rt, alloc, case, line, input, &[], store)?;
    if outcome.taken() == fronts.answers.bytes() {
        return text.put(b"answered as in one stream\n");
    }
    put_outcome(alloc, text, case, &mut outcome)
}

fn same_rows(alloc: Global, rows: &Rows, others: &Rows) -> Result<bool, Memory> {
    let mut text = Text::new(alloc);
    put_all_rows(&mut text, rows)?;
    let mut other = Text::new(alloc);
    put_all_rows(&mut other, others)?;
    Ok(text.bytes() == other.bytes())
}

impl Fronts {
    fn new(alloc: Global) -> Fronts {
        Fronts {
            begin: 0,
            whole: 0,
            in_head: 0,
            in_body: 0,
            answers: Text::new(alloc),
        }
    }

    fn put(&self, text: &mut Text) -> Result<(), Memory> {
        text.put(b"messages ")?;
        text.put_number(self.whole)?;
        text.put(b", ended in a head ")?;
        text.put_number(self.in_head)?;
        text.put(b", ended in a body ")?;
        text.put_number(self.in_body)?;
        text.put(b"\n")
    }
}

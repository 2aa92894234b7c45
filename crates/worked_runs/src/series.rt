//! One run on many inputs.

use crate::case::{Case, Inputs};
use crate::outcome::{outcome_of, put_outcome};
use keeper::MemoryKeeper;
use pb_base::{Memory, Text};
use std::alloc::Global;
use std::sync::Wait;
use std::thread::Threads;

/// Does a run once for each place of the input, from 0 to its end: it is cut in two there, or ends there. Each run is over the
/// same rows. What came out is put behind a text where it is other than at the place before.
pub fn put_series<R: Threads + Wait + Sync>(
    rt: &R,
    alloc: Global,
    text: &mut Text,
    case: &Case<'_>,
    line: &str,
    store: &mut MemoryKeeper,
) -> Result<(), Memory> {
    let mut last = Text::new(alloc);
    for place in 0..=case.input.bytes().len() {
        put_place(rt, alloc, text, case, line, store, place, &mut last)?;
    }
    Ok(())
}

// Does the run for this place, and puts what came out where it is other than the last.
fn put_place<R: Threads + Wait + Sync>(
    rt: &R,
    alloc: Global,
    text: &mut Text,
    case: &Case<'_>,
    line: &str,
    store: &mut MemoryKeeper,
    place: usize,
    last: &mut Text,
) -> Result<(), Memory> {
    let mut told = Text::new(alloc);
    put_run_at(rt, alloc, &mut told, case, line, store, place)?;
    if told.bytes() != last.bytes() {
        put_from(text, place as u64, told.bytes())?;
        *last = told;
    }
    Ok(())
}

fn put_run_at<R: Threads + Wait + Sync>(
    rt: &R,
    alloc: Global,
    text: &mut Text,
    case: &Case<'_>,
    line: &str,
    store: &mut MemoryKeeper,
    place: usize,
) -> Result<(), Memory> {
    let whole = case.input.bytes();
    let input = match case.inputs {
        Inputs::EndedEverywhere => whole.get(..place).unwrap_or(whole),
        _ => whole,
    };
    let mut outcome = outcome_of(rt, alloc, case, line, input, &[place], store)?;
    put_outcome(alloc, text, case, &mut outcome)
}

/// Puts what came out from a place on behind a text.
pub fn put_from(text: &mut Text, place: u64, told: &[u8]) -> Result<(), Memory> {
    text.put(b"from ")?;
    text.put_number(place)?;
    text.put(b"\n")?;
    text.put(told)
}

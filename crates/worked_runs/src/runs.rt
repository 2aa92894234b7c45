//! The runs of a case.

use crate::case::{Case, Inputs};
use crate::line::put_line_with;
use crate::messages::put_messages;
use crate::outcome::{Outcome, outcome_of, put_outcome};
use crate::series::put_series;
use keeper::MemoryKeeper;
use pb_base::{Memory, Text};
use std::alloc::Global;
use std::sync::Wait;
use std::thread::Threads;

/// Does the runs of a case, each over the rows that the one before it left in the store, and puts what came out of them behind a
/// text. `taken` is what the sink took in the last run.
pub fn put_runs<R: Threads + Wait + Sync>(
    rt: &R,
    alloc: Global,
    text: &mut Text,
    case: &Case<'_>,
    store: &mut MemoryKeeper,
    taken: &mut Vec<u8>,
) -> Result<(), Memory> {
    for line in &case.runs {
        put_line_with(text, "$ ", line.as_bytes())?;
        match case.inputs {
            Inputs::Whole => put_run(rt, alloc, text, case, line, store, taken)?,
            Inputs::CutEverywhere | Inputs::EndedEverywhere => {
                put_series(rt, alloc, text, case, line, store)?;
            }
            Inputs::MessagesEnded => put_messages(rt, alloc, text, case, line, store)?,
        }
    }
    Ok(())
}

fn put_run<R: Threads + Wait + Sync>(
    rt: &R,
    alloc: Global,
    text: &mut Text,
    case: &Case<'_>,
    line: &str,
    store: &mut MemoryKeeper,
    taken: &mut Vec<u8>,
) -> Result<(), Memory> {
    let input = case.input.bytes();
    let mut outcome = outcome_of(rt, alloc, case, line, input, &case.pieces, store)?;
    put_told(alloc, text, case, &mut outcome, taken)?;
    *store = MemoryKeeper::new(outcome.into_rows(), Vec::new(alloc));
    Ok(())
}

fn put_told(
    alloc: Global,
    text: &mut Text,
    case: &Case<'_>,
    outcome: &mut Outcome,
    taken: &mut Vec<u8>,
) -> Result<(), Memory> {
    put_outcome(alloc, text, case, outcome)?;
    *taken = outcome.taken().to_vec(alloc)?;
    Ok(())
}

//! What changes from one released book to another.
ghost use Rattle.std.specs.Prelude.{◌≡◌, ◌<◌, IfOk, map};
ghost use Rattle.book_commands.specs.ChangesReply.{RepliesToChanges, changes_reply, changes_status};
ghost use Rattle.book_commands.specs.declared.log.Note.TheVariants.{Change};

use crate::check::limit_fault_reply;
use crate::log::Note;
use crate::run_reply::RunReply;
use crate::run_status::RunStatus;
use book_changes::{RunNotes, any_change, any_undecided, changes, changes_text};
use command_words::Budget;
use pb_base::{Fail, Memory};
use release::Released;
use std::alloc::Global;
use std::thread::Threads;

/// What changes on all days of both terms, by so many workers.
pub(crate) fn changed_reply<R: Threads + Sync>(
    rt: &R,
    alloc: Global,
    first: &Released,
    second: &Released,
    budget: &Budget,
    workers: u32,
) -> Result<RunReply, Memory>
    requires { 0 < workers }
    ensures { IfOk result (RepliesToChanges first.now.book second.now.book budget.now) }
{
    match changes(rt, alloc, first, second, budget.clauses(), workers) {
        Ok(runs) => runs_reply(alloc, first, second, budget, runs),
        Err(Fail::Refused(fault)) => limit_fault_reply(alloc, fault),
        Err(Fail::Memory) => Err(Memory),
    }
}

// The notes on the runs, which stand in the log too.
fn runs_reply(
    alloc: Global,
    first: &Released,
    second: &Released,
    budget: &Budget,
    runs: Vec<RunNotes>,
) -> Result<RunReply, Memory>
    ensures { IfOk result (λ reply. reply ≡ changes_reply first.now.book second.now.book budget.now runs.items) }
{
    let text = changes_text(alloc, first.book(), second.book(), budget.clauses(), &runs)?;
    let status = changes_status(&runs);
    let log = noted(alloc, runs)?;
    Ok(RunReply::new(text, status, log))
}

fn changes_status(runs: &[RunNotes]) -> RunStatus
    ensures { result ≡ changes_status runs.now }
{
    if any_change(runs) {
        RunStatus::Refused
    } else if any_undecided(runs) {
        RunStatus::Undecided
    } else {
        RunStatus::Done
    }
}

// The notes, moved.
fn noted(alloc: Global, runs: Vec<RunNotes>) -> Result<Vec<Note>, Memory>
    ensures { IfOk result (λ noted. noted.items ≡ map Change runs.items) }
{
    let mut log = Vec::new(alloc);
    for run in runs {
        log.push(Note::Change(run))?;
    }
    Ok(log)
}

//! Moves a report into the log.
ghost use Rattle.std.specs.Prelude.{◌≡◌, ◌≤◌, IfOk};
ghost use Rattle.pb_base.specs.declared.limits.TheConstants.{MOST_SLICES};
ghost use Rattle.book_commands.specs.Logged.{logged, slices_told};

use crate::log::Note;
use findings::{Note as Told, Report};
use pb_base::Memory;
use std::alloc::Global;

/// The findings of a report and the questions that were left, each with the place of its slice, counted from 0. Sets and
/// clauses are moved.
pub fn logged(alloc: Global, report: Report) -> Result<Vec<Note>, Memory>
    requires few { slices_told report ≤ MOST_SLICES }
    ensures { IfOk result (λ notes. notes.items ≡ logged report) }
{
    let mut notes = Vec::new(alloc);
    let mut slices: u32 = 0;
    for told in report.into_items() {
        match told {
            Told::Days { first: _, last: _ } => slices += 1,
            Told::Finding { question, set } => notes.push(Note::Finding {
                slice: slices.saturating_sub(1),
                question,
                set,
            })?,
            Told::Undecided { question, learnt } => notes.push(Note::Spent {
                slice: slices.saturating_sub(1),
                question,
                learnt,
            })?,
        }
    }
    Ok(notes)
}

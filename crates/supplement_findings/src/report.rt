//! What a check of supplementing rules tells.
ghost use Rattle.std.specs.Prelude.{◌≡◌};
ghost use Rattle.std.specs.List.{list_any};
ghost use Rattle.supplement_findings.specs.Notes.{is_finding, is_undecided, findings_in};

use crate::question::SupplementQuestion;
use clause_pool::Pool;
use pb_base::{CodeSet, Day, Sequence};

/// A note of a report.
#[derive(Drop)]
pub enum SupplementNote {
    /// What follows is of the slice from the first to the last of these days.
    Days {
        first: Day,
        last: Day,
    },
    /// A question with a set that shows what it asks for, on every day of the slice.
    Finding {
        question: SupplementQuestion,
        set: CodeSet,
    },
    /// A question that was left, with the clauses that were learnt for it up to the budget.
    Undecided {
        question: SupplementQuestion,
        learnt: Pool,
    },
}

/// Notes in order.
pub type SupplementReport = Sequence<SupplementNote>;

/// How many findings a report has.
pub fn findings_in(report: &SupplementReport) -> u64
    ensures { result ≡ findings_in report.now }
{
    let mut count = 0;
    for note in report.as_slice() {
        if is_finding(note) {
            count += 1;
        }
    }
    count
}

/// Whether a report has a finding.
pub fn any_finding(report: &SupplementReport) -> bool
    ensures { result ≡ list_any is_finding report.now }
{
    has_finding(report.as_slice())
}

/// Whether a report leaves a question undecided.
pub fn any_undecided(report: &SupplementReport) -> bool
    ensures { result ≡ list_any is_undecided report.now }
{
    has_undecided(report.as_slice())
}

fn has_finding(notes: &[SupplementNote]) -> bool
    ensures { result ≡ list_any is_finding notes.now }
{
    notes.iter().any(|note| is_finding(note))
}

fn has_undecided(notes: &[SupplementNote]) -> bool
    ensures { result ≡ list_any is_undecided notes.now }
{
    notes.iter().any(|note| is_undecided(note))
}

fn is_finding(note: &SupplementNote) -> bool
    ensures { result ≡ is_finding note.now }
{
    matches!(note, SupplementNote::Finding { .. })
}

fn is_undecided(note: &SupplementNote) -> bool
    ensures { result ≡ is_undecided note.now }
{
    matches!(note, SupplementNote::Undecided { .. })
}

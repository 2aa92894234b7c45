//! What a check of a book tells.
ghost use Rattle.std.specs.Prelude.{◌≡◌};
ghost use Rattle.std.specs.List.{list_any};
ghost use Rattle.findings.specs.Notes.{is_blocking, is_fault, is_left, verdict_of};

use clause_pool::Pool;
use clausify::Question;
use pb_base::{CodeSet, Day, Sequence};

/// Which questions are asked of a slice.
#[derive(Clone, Copy, Debug, PartialEq, Eq)]
pub enum Ask {
    /// All of them.
    All,
    /// Those of which a finding keeps the book from its release.
    Blocking,
}

/// A note of a report.
#[derive(Drop)]
pub enum Note {
    /// What follows is of the slice from the first to the last of these days.
    Days {
        first: Day,
        last: Day,
    },
    /// A question of which something is wrong. A set shows it where the question must have none: it is good on every day
    /// of the slice and meets the goal.
    Finding {
        question: Question,
        set: Option<CodeSet>,
    },
    /// A question that was left, with the clauses that were learnt for it up to the budget.
    Undecided {
        question: Question,
        learnt: Pool,
    },
}

/// Notes in order.
pub type Report = Sequence<Note>;

/// What a report comes to.
#[derive(Clone, Copy, Debug, PartialEq, Eq)]
pub enum Verdict {
    /// Nothing keeps the book from its release.
    Releasable,
    /// A finding does.
    Blocked,
    /// No finding does, but a question of that kind was left.
    Undecided,
}

/// What a report comes to.
pub fn verdict_of(report: &Report) -> Verdict
    ensures { result ≡ verdict_of report.now }
{
    if any_fault(report.as_slice()) {
        return Verdict::Blocked;
    }
    if any_left(report.as_slice()) {
        return Verdict::Undecided;
    }
    Verdict::Releasable
}

fn any_fault(notes: &[Note]) -> bool
    ensures { result ≡ list_any is_fault notes.now }
{
    notes.iter().any(|note| is_fault(note))
}

fn any_left(notes: &[Note]) -> bool
    ensures { result ≡ list_any is_left notes.now }
{
    notes.iter().any(|note| is_left(note))
}

/// Whether a note is of a finding that keeps the book from its release.
pub(crate) fn is_fault(note: &Note) -> bool
    ensures { result ≡ is_fault note.now }
{
    match note {
        Note::Finding { question, set: _ } => is_blocking(*question),
        Note::Days { .. } => false,
        Note::Undecided { .. } => false,
    }
}

/// Whether a note is of a question that was left and would have to be answered for a release.
pub(crate) fn is_left(note: &Note) -> bool
    ensures { result ≡ is_left note.now }
{
    match note {
        Note::Undecided {
            question,
            learnt: _,
        } => is_blocking(*question),
        Note::Days { .. } => false,
        Note::Finding { .. } => false,
    }
}

/// Whether a finding of this question keeps the book from its release.
pub(crate) fn is_blocking(question: Question) -> bool
    ensures { result ≡ is_blocking question }
{
    question == Question::Void || question.is_to_close()
}

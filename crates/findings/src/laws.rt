//! What is known of every book, and of every report. These calls do nothing.
ghost use Rattle.std.specs.Prelude.{◌≡◌, ◌≢◌, ℕ, ◌<◌, ◌≤◌, false, List, Some, slice_get};
ghost use Rattle.std.specs.List.{list_any};
ghost use Rattle.book_model.specs.Book.{IsBook};
ghost use Rattle.book_model.specs.declared.record.Slice.{Slice};
ghost use Rattle.clausify.specs.Coded.{slice_asked};
ghost use Rattle.clausify.specs.declared.question.Asked.{Asked};
ghost use Rattle.findings.specs.Left.{IsAmple, IsLeftOpen, LeavesOpen, was_left};
ghost use Rattle.findings.specs.Notes.{Inquiry, IsNoteOf, IsReport, verdict_of};
ghost use Rattle.findings.specs.declared.report.Note.{Note};
ghost use Rattle.findings.specs.declared.report.Verdict.TheVariants as Verdict;

use book_model::Book;

/// A book meets the conditions on its records.
pub(crate) fn book_laws(book: &Book)
    ensures { IsBook book.now }
{
    let _codes = book.codes();
}

/// Which questions a report can leave. What propagation alone refutes in a slice is never left in it, nor is anything where the
/// budget is above 3 to the power of the number of variables of the slice. The call does nothing.
pub fn report_laws()
    ensures note { (i : Inquiry) (s : Slice) (a : Asked) (number : ℕ) (note : Note)
        → slice_get (slice_asked i.book s.first) number ≡ Some a → 0 < i.budget
        → IsNoteOf i s a note → IsLeftOpen i s note }
    ensures open { (i : Inquiry) (notes : List Note) → 0 < i.budget → IsReport i notes → LeavesOpen i notes }
    ensures none { (i : Inquiry) (notes : List Note) → i.book.first ≤ i.book.last
        → IsAmple i.book i.budget → IsReport i notes → list_any was_left notes ≡ false }
    ensures decided { (i : Inquiry) (notes : List Note) → i.book.first ≤ i.book.last
        → IsAmple i.book i.budget → IsReport i notes → verdict_of notes ≢ Verdict.Undecided }
{}

//! What two reports on the supplementing rules of one book have in common.
ghost use Rattle.std.specs.Prelude.{ℕ, List};
ghost use Rattle.book_model.specs.Book.{IsBook};
ghost use Rattle.book_model.specs.Contents.{Contents};
ghost use Rattle.question_laws.specs.SupplementReports.{AreDecided, TellSame};
ghost use Rattle.supplement_findings.specs.Answering.{inquiry};
ghost use Rattle.supplement_findings.specs.Notes.{IsReport};
ghost use Rattle.supplement_findings.specs.declared.report.SupplementNote.{SupplementNote};

/// Two reports in which no search was left tell the same, but for the sets that they show. So how many workers share the slices of a
/// book makes no other difference. The call does nothing.
pub fn supplement_law()
    ensures { (b : Contents) (budget other : ℕ) (one two : List SupplementNote) → IsBook b
        → IsReport (inquiry b budget) one → IsReport (inquiry b other) two → AreDecided one → AreDecided two
        → TellSame one two }
{}

//! What two reports on one book have in common.
ghost use Rattle.std.specs.Prelude.{ℕ, ◌≤◌, List};
ghost use Rattle.book_model.specs.Contents.{Contents};
ghost use Rattle.findings.specs.Notes.{IsReport};
ghost use Rattle.findings.specs.declared.report.Ask.{Ask};
ghost use Rattle.findings.specs.declared.report.Note.{Note};
ghost use Rattle.question_laws.specs.Reports.{AreDecided, TellSame, inquiry_of};

/// Two reports on a book in which no question was left tell the same, but for the sets that they show, and have the same verdict. So
/// how many workers share the slices makes no other difference. The call does nothing.
pub fn report_law()
    ensures { (b : Contents) (ask : Ask) (budget other : ℕ) (one two : List Note) → b.first ≤ b.last
        → IsReport (inquiry_of b ask budget) one → IsReport (inquiry_of b ask other) two
        → AreDecided one → AreDecided two → TellSame one two }
{}

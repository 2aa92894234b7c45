//! What two reports of what changes have in common.
ghost use Rattle.std.specs.Prelude.{ℕ, List};
ghost use Rattle.book_model.specs.Contents.{Contents};
ghost use Rattle.book_changes.specs.Changes.{IsChanges};
ghost use Rattle.book_changes.specs.declared.run.RunNotes.{RunNotes};
ghost use Rattle.change_laws.specs.Reports.{AreDecided, TellSame};

/// Two reports in which no search was left tell the same, but for the cars that they show. So how many workers share the runs of days
/// makes no other difference. The call does nothing.
pub fn report_law()
    ensures { (first second : Contents) (budget other : ℕ) (one two : List RunNotes)
        → IsChanges first second budget one → IsChanges first second other two
        → AreDecided one → AreDecided two
        → TellSame one two }
{}

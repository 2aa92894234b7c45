//! What two reports on the same requirements have in common.
ghost use Rattle.std.specs.Prelude.{ℕ, List};
ghost use Rattle.book_model.specs.Contents.{Contents};
ghost use Rattle.kept_requirements.specs.Notes.{IsReport};
ghost use Rattle.kept_requirements.specs.declared.note.RequirementNote.{RequirementNote};
ghost use Rattle.requirement_laws.specs.Reports.{AreDecided, TellSame};
ghost use Rattle.requirements.specs.declared.requirement.Requirement.{Requirement};

/// Two reports in which no search was left tell the same, but for the cars that they show. So how many workers share the slices of a
/// book makes no other difference. The call does nothing.
pub fn report_law()
    ensures { (b : Contents) (budget other : ℕ) (rs : List Requirement) (one two : List RequirementNote)
        → IsReport b budget rs one → IsReport b other rs two → AreDecided one → AreDecided two
        → TellSame one two }
{}

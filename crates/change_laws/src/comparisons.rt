//! What two comparisons of the same books have in common.
ghost use Rattle.std.specs.Prelude.{ℕ, List};
ghost use Rattle.book_model.specs.Contents.{Contents};
ghost use Rattle.book_compare.specs.Comparison.{IsComparison};
ghost use Rattle.book_compare.specs.declared.note.CompareNote.{CompareNote};
ghost use Rattle.change_laws.specs.Comparisons.{AreDecided, TellSame};

/// Two comparisons on one day in which no search was left tell the same, but for the cars that they show. So how many workers share
/// the positions makes no other difference. The call does nothing.
pub fn comparison_law()
    ensures { (first second : Contents) (day budget other : ℕ) (one two : List CompareNote)
        → IsComparison first second day budget one → IsComparison first second day other two
        → AreDecided one → AreDecided two
        → TellSame one two }
{}

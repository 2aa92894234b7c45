//! Which drafts a release can leave.
ghost use Rattle.std.specs.Prelude.{ℕ, ◌<◌, List};
ghost use Rattle.book_model.specs.Contents.{Contents};
ghost use Rattle.findings.specs.Left.{IsAmple, LeavesOpen};
ghost use Rattle.findings.specs.declared.report.Note.{Note};
ghost use Rattle.release_check.specs.NotReleased.{IsRefusal, inquiry_of};
ghost use Rattle.release_check.specs.declared.not_released.NotReleased.TheVariants as NotReleased;

/// Which drafts `try_release` can leave. Each question that was left is one that propagation alone doesn't refute in its slice, and
/// no draft is left where the budget is above 3 to the power of the number of variables of the slice, on each day of the term.
/// The call does nothing.
pub fn release_laws()
    ensures open { (text : List ℕ) (budget : ℕ) (book : Contents) (report : List Note) → 0 < budget
        → IsRefusal text budget (NotReleased.Undecided book report)
        → LeavesOpen (inquiry_of book budget) report }
    ensures decided { (text : List ℕ) (budget : ℕ) (book : Contents) (report : List Note)
        → IsAmple book budget → IsRefusal text budget (NotReleased.Undecided book report) → ⊥ }
{}

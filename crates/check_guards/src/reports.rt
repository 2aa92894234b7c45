//! What a check of a book can't tell.
ghost use Rattle.std.specs.Prelude.{◌≡◌, ◌<◌, ◌≤◌, ℕ, IfOk, IsSome};
ghost use Rattle.std.specs.List.{AllByRecursion};
ghost use Rattle.pb_base.specs.declared.limits.TheConstants.{MOST_BUDGET};
ghost use Rattle.book_model.specs.Slices.{all_slices};
ghost use Rattle.check_guards.specs.Reports.{HasDays, HasGoodSet, IsGoodThen, IsRefutedThen, NotesOn};

use book_model::{Book, LimitFault};
use findings::{Ask, Checked, Report, check_book, report_book};
use pb_base::Fail;
use std::alloc::Global;

/// With a certificate a book has a good set on each day of its term. A run would release a book though on some days no car can be
/// ordered.
pub fn no_void_slice_is_released(
    alloc: Global,
    book: &Book,
    budget: u32,
    ask: Ask,
) -> Result<Checked, Fail<LimitFault>>
    requires some { 0 < budget }
    requires most { budget ≤ MOST_BUDGET }
    ensures { IfOk result (λ c. IsSome c.cert → (day : ℕ) → book.now.first ≤ day → day ≤ book.now.last
        → HasGoodSet book.now day) }
{
    check_book(alloc, book, budget, ask)
}

/// Each slice of the term stands in the report with its days. A run would check the first days alone, and call the book sound.
#[tactic(auto, using(crate::proofs::ReportLaws::has_all_days))]
pub fn no_slice_is_passed_over(
    alloc: Global,
    book: &Book,
    budget: u32,
    ask: Ask,
) -> Result<Report, Fail<LimitFault>>
    requires some { 0 < budget }
    requires most { budget ≤ MOST_BUDGET }
    ensures { IfOk result (λ report. AllByRecursion (HasDays report) (all_slices book.now)) }
{
    report_book(alloc, book, budget, ask)
}

/// A set that is shown is good on each of the days behind which it stands. A run would show a car that can be built on other days alone.
pub fn no_set_of_another_day_is_shown(
    alloc: Global,
    book: &Book,
    budget: u32,
    ask: Ask,
) -> Result<Report, Fail<LimitFault>>
    requires some { 0 < budget }
    requires most { budget ≤ MOST_BUDGET }
    ensures { IfOk result (NotesOn (IsGoodThen book.now) 1 0) }
{
    report_book(alloc, book, budget, ask)
}

/// Where a finding shows no set, on none of its days a good set meets what was asked: a clause that speaks of other days refutes nothing.
/// A run would call a code necessary though cars lack it.
pub fn no_question_is_refuted_by_other_days(
    alloc: Global,
    book: &Book,
    budget: u32,
    ask: Ask,
) -> Result<Report, Fail<LimitFault>>
    requires some { 0 < budget }
    requires most { budget ≤ MOST_BUDGET }
    ensures { IfOk result (NotesOn (IsRefutedThen book.now) 1 0) }
{
    report_book(alloc, book, budget, ask)
}

//! What a check of supplementing rules can't tell.
ghost use Rattle.std.specs.Prelude.{◌<◌, ◌≤◌, IfOk};
ghost use Rattle.std.specs.List.{AllByRecursion};
ghost use Rattle.pb_base.specs.declared.limits.TheConstants.{MOST_BUDGET};
ghost use Rattle.book_model.specs.Slices.{all_slices};
ghost use Rattle.supplement_findings.specs.Notes.{HasOneEndThrough};
ghost use Rattle.check_guards.specs.RuleReports.{AreCalm, BreaksThen, HasDays, IsCalm, NotesOn};

use book_model::{Book, LimitFault};
use pb_base::Fail;
use std::alloc::Global;
use std::thread::Threads;
use supplement_findings::{SupplementReport, check_supplements};

/// Each slice of the term stands in the report with its own days. A run would tell of the first days what was found on later ones.
#[tactic(auto, using(crate::proofs::RuleReportLaws::has_all_days))]
pub fn no_slice_of_rules_is_passed_over<R: Threads + Sync>(
    rt: &R,
    alloc: Global,
    book: &Book,
    budget: u32,
    workers: u32,
) -> Result<SupplementReport, Fail<LimitFault>>
    requires some { 0 < budget }
    requires most { budget ≤ MOST_BUDGET }
    requires workers { 0 < workers }
    ensures { IfOk result (λ report. AllByRecursion (HasDays report) (all_slices book.now)) }
{
    check_supplements(rt, alloc, book, budget, workers)
}

/// Where nothing is found, and no question was left, no set shows what a question on rules asks for: no pair that may swap is skipped,
/// also where the formula of one of both is lost. A run would call rules calm whose ranks decide which car is built.
#[tactic(auto, using(crate::proofs::RuleReportLaws::are_calm))]
pub fn no_shown_pair_is_passed_over<R: Threads + Sync>(
    rt: &R,
    alloc: Global,
    book: &Book,
    budget: u32,
    workers: u32,
) -> Result<SupplementReport, Fail<LimitFault>>
    requires some { 0 < budget }
    requires most { budget ≤ MOST_BUDGET }
    requires workers { 0 < workers }
    ensures { IfOk result (λ report. IsCalm report → AllByRecursion (AreCalm book.now) (all_slices book.now)) }
{
    check_supplements(rt, alloc, book, budget, workers)
}

/// Then each constructible set comes to one end on each day, in whatever sequence the rules fire. A run would call rules calm under which
/// one order comes to two cars.
#[tactic(auto, using(crate::proofs::RuleReportLaws::has_one_end))]
pub fn what_is_calm_has_one_end<R: Threads + Sync>(
    rt: &R,
    alloc: Global,
    book: &Book,
    budget: u32,
    workers: u32,
) -> Result<SupplementReport, Fail<LimitFault>>
    requires some { 0 < budget }
    requires most { budget ≤ MOST_BUDGET }
    requires workers { 0 < workers }
    ensures { IfOk result (λ report. IsCalm report → AllByRecursion (HasOneEndThrough book.now) (all_slices book.now)) }
{
    check_supplements(rt, alloc, book, budget, workers)
}

/// A rule that is told to break a set breaks it on each of the days: the set is constructible, and with the rule's code it isn't. A run
/// would read the rules as if the code weren't there, and tell a rule that breaks nothing.
pub fn what_is_told_to_break_does<R: Threads + Sync>(
    rt: &R,
    alloc: Global,
    book: &Book,
    budget: u32,
    workers: u32,
) -> Result<SupplementReport, Fail<LimitFault>>
    requires some { 0 < budget }
    requires most { budget ≤ MOST_BUDGET }
    requires workers { 0 < workers }
    ensures { IfOk result (NotesOn (BreaksThen book.now) 1 0) }
{
    check_supplements(rt, alloc, book, budget, workers)
}

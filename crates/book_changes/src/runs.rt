//! All runs of days of two books.
ghost use Rattle.std.specs.Prelude.{◌≡◌, ◌⊎◌, ◌<◌, ◌≤◌, Err, IfOk};
ghost use Rattle.pb_base.specs.Answers.{IfRefused};
ghost use Rattle.pb_base.specs.declared.limits.TheConstants.{MOST_BUDGET};
ghost use Rattle.book_model.specs.Slices.{slices_of};
ghost use Rattle.book_changes.specs.Changes.{IsChanges};
ghost use Rattle.book_changes.specs.Days.{IsSliced};

use crate::days::joint_runs;
use crate::run::RunNotes;
use crate::run_work::RunWork;
use book_model::{LimitFault, SliceList, slices};
use pb_base::{Fail, Memory};
use release::Released;
use shared_work::make_all;
use std::alloc::Global;
use std::thread::Threads;

/// What changes from one book to another, for each longest run of days of both terms on which neither book changes: whether some
/// car is one of both, which cars the second book loses and which it wins, each with the rule or the code that it is lost by, whether
/// other codes are added to orders, and at which positions cars of both get other parts. So many workers share the runs of days, each
/// with neighbours. A book whose term has too many slices is refused; a released one is not.
pub fn changes<R: Threads + Sync>(
    rt: &R,
    alloc: Global,
    first: &Released,
    second: &Released,
    budget: u32,
    workers: u32,
) -> Result<Vec<RunNotes>, Fail<LimitFault>>
    requires some { 0 < budget }
    requires most { budget ≤ MOST_BUDGET }
    requires workers { 0 < workers }
    ensures notes { IfOk result (λ notes. IsChanges first.now.book second.now.book budget notes.items) }
    ensures limits { IfRefused result (λ fault.
        (slices_of first.now.book ≡ Err fault) ⊎ (slices_of second.now.book ≡ Err fault)) }
{
    match slices_in(alloc, first) {
        Ok(own) => changes_from(rt, alloc, first, second, &own, budget, workers),
        Err(Fail::Refused(fault)) => Err(Fail::Refused(fault)),
        Err(Fail::Memory) => Err(Fail::Memory),
    }
}

// The slices of a book.
#[tactic(auto, using(crate::proofs::DayLaws::sliced, crate::proofs::DayLaws::refused))]
fn slices_in(alloc: Global, released: &Released) -> Result<SliceList, Fail<LimitFault>>
    ensures sliced { IfOk result (IsSliced released.now.book) }
    ensures limits { IfRefused result (λ fault. slices_of released.now.book ≡ Err fault) }
{
    let book = released.book();
    let _codes = book.codes();
    slices(alloc, book)
}

// The same by the slices of the first book.
fn changes_from<R: Threads + Sync>(
    rt: &R,
    alloc: Global,
    first: &Released,
    second: &Released,
    own: &SliceList,
    budget: u32,
    workers: u32,
) -> Result<Vec<RunNotes>, Fail<LimitFault>>
    requires own { IsSliced first.now.book own.now }
    requires some { 0 < budget }
    requires most { budget ≤ MOST_BUDGET }
    requires workers { 0 < workers }
    ensures notes { IfOk result (λ notes. IsChanges first.now.book second.now.book budget notes.items) }
    ensures limits { IfRefused result (λ fault. slices_of second.now.book ≡ Err fault) }
{
    match slices_in(alloc, second) {
        Ok(others) => Ok(changes_on(rt, alloc, first, second, own, &others, budget, workers)?),
        Err(Fail::Refused(fault)) => Err(Fail::Refused(fault)),
        Err(Fail::Memory) => Err(Fail::Memory),
    }
}

// The same by the slices of both.
fn changes_on<R: Threads + Sync>(
    rt: &R,
    alloc: Global,
    first: &Released,
    second: &Released,
    own: &SliceList,
    others: &SliceList,
    budget: u32,
    workers: u32,
) -> Result<Vec<RunNotes>, Memory>
    requires own { IsSliced first.now.book own.now }
    requires others { IsSliced second.now.book others.now }
    requires some { 0 < budget }
    requires most { budget ≤ MOST_BUDGET }
    requires workers { 0 < workers }
    ensures { IfOk result (λ notes. IsChanges first.now.book second.now.book budget notes.items) }
{
    let runs = joint_runs(alloc, own.as_slice(), others.as_slice())?;
    let work = RunWork {
        first,
        second,
        budget,
    };
    let notes = make_all(rt, alloc, &work, &runs, workers)?;
    Ok(notes)
}

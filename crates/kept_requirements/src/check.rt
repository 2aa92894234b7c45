//! The check of requirements.
ghost use Rattle.std.specs.Prelude.{◌≡◌, ◌<◌, ◌≤◌, ◌^◌, All, Err, IfOk, length};
ghost use Rattle.pb_base.specs.Answers.{IfRefused};
ghost use Rattle.pb_base.specs.InParts.{InParts};
ghost use Rattle.pb_base.specs.declared.limits.TheConstants.{MOST_BUDGET};
ghost use Rattle.book_model.specs.Slices.{slices_of};
ghost use Rattle.requirements.specs.Requirements.{RequirementFits};
ghost use Rattle.kept_requirements.specs.Notes.{IsReport, OwnNotes};

use crate::note::RequirementNote;
use crate::notes::notes_of;
use crate::rows::SliceRows;
use book_model::{Book, LimitFault, Slice, slices};
use pb_base::{Fail, Memory};
use requirements::Requirement;
use shared_work::make_all;
use std::alloc::Global;
use std::thread::Threads;

/// Asks of every slice of a book whether each car keeps the requirements that have a day in it, and tells of each requirement the
/// runs of days on which some car doesn't, in the sequence of the requirements. A search is left where it learns as many clauses as
/// the budget allows. So many workers share the slices, each with a run of neighbours. A book with too many slices is refused.
pub fn check_requirements<R: Threads + Sync>(
    rt: &R,
    alloc: Global,
    book: &Book,
    requirements: &[Requirement],
    budget: u32,
    workers: u32,
) -> Result<Vec<RequirementNote>, Fail<LimitFault>>
    requires fit { All (RequirementFits (length book.now.codes)) requirements.now }
    requires few { length requirements.now < 2 ^ 31 }
    requires some { 0 < budget }
    requires most { budget ≤ MOST_BUDGET }
    requires workers { 0 < workers }
    ensures limits { IfRefused result (λ fault. slices_of book.now ≡ Err fault) }
    ensures report { IfOk result (λ notes. IsReport book.now budget requirements.now notes.items) }
{
    let slices = slices(alloc, book)?;
    let notes = check_slices(
        rt,
        alloc,
        book,
        slices.as_slice(),
        requirements,
        budget,
        workers,
    )?;
    Ok(notes)
}

// The notes on requirements by these slices.
fn check_slices<R: Threads + Sync>(
    rt: &R,
    alloc: Global,
    book: &Book,
    slices: &[Slice],
    requirements: &[Requirement],
    budget: u32,
    workers: u32,
) -> Result<Vec<RequirementNote>, Memory>
    requires fit { All (RequirementFits (length book.now.codes)) requirements.now }
    requires few { length requirements.now < 2 ^ 31 }
    requires some { 0 < budget }
    requires most { budget ≤ MOST_BUDGET }
    requires workers { 0 < workers }
    ensures { IfOk result (λ notes.
        InParts (OwnNotes book.now budget slices.now) requirements.now notes.items) }
{
    let work = SliceRows {
        book,
        requirements,
        budget,
    };
    let rows = make_all(rt, alloc, &work, slices, workers)?;
    notes_of(alloc, book, slices, requirements, budget, &rows)
}

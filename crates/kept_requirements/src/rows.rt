//! The rows of cells of some slices.
ghost use Rattle.std.specs.Prelude.{◌<◌, ◌≤◌, ◌^◌, All, IfOk, length};
ghost use Rattle.std.specs.List.{AllZip};
ghost use Rattle.pb_base.specs.declared.limits.TheConstants.{MOST_BUDGET};
ghost use Rattle.book_model.specs.declared.record.Slice.{Slice};
ghost use Rattle.requirements.specs.Requirements.{RequirementFits};
ghost use Rattle.kept_requirements.specs.Notes.{IsRow};
ghost use Rattle.kept_requirements.specs.Rows.{AreAskable};

use crate::cells::Row;
use crate::slice::check_slice;
use book_model::{Book, Slice};
use inquiry::KeptSets;
use pb_base::Memory;
use requirements::Requirement;
use shared_work::Work;
use std::alloc::Global;

/// Requirements that are asked on slices, each search with this budget. A slice's row is made of it.
#[derive(Clone, Copy)]
pub(crate) struct SliceRows<'a> {
    pub book: &'a Book,
    pub requirements: &'a [Requirement],
    pub budget: u32,
}

impl<'a> Work for SliceRows<'a> {
    type Item = Slice;

    type Made = Row;

    ghost IsReady = { λ w. AreAskable w.book.now w.budget w.requirements.now };

    ghost IsGiven = { λ w s. Unit {0} };

    ghost IsMade = { λ w. IsRow w.book.now w.budget w.requirements.now };

    fn make(&self, alloc: Global, slices: &[Slice]) -> Result<Vec<Row>, Memory> {
        rows_of(alloc, self.book, slices, self.requirements, self.budget)
    }
}

// What is answered of the requirements on each slice.
fn rows_of(
    alloc: Global,
    book: &Book,
    slices: &[Slice],
    requirements: &[Requirement],
    budget: u32,
) -> Result<Vec<Row>, Memory>
    requires fit { All (RequirementFits (length book.now.codes)) requirements.now }
    requires few { length requirements.now < 2 ^ 31 }
    requires some { 0 < budget }
    requires most { budget ≤ MOST_BUDGET }
    ensures { IfOk result (λ rows. AllZip (IsRow book.now budget requirements.now) slices.now rows.items) }
{
    let mut rows = Vec::new(alloc);
    let mut sets = KeptSets::new(alloc);
    for slice in slices {
        let row = check_slice(alloc, book, *slice, requirements, budget, &mut sets)?;
        rows.push(row)?;
    }
    Ok(rows)
}

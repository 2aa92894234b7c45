//! The notes of some slices.
ghost use Rattle.std.specs.Prelude.{◌≡◌, ◌++◌, All, IfOk, OnOk, length};
ghost use Rattle.std.specs.List.{AllZip, flat_map};
ghost use Rattle.supplement_findings.specs.Answering.{AreTouched, inquiry};
ghost use Rattle.supplement_findings.specs.Notes.{SliceNotes};
ghost use Rattle.supplement_findings.specs.Questions.{all_questions};
ghost use Rattle.supplement_findings.specs.Slices.{AreAsked, IsSliceTask, notes_in};

use crate::question::SupplementQuestion;
use crate::report::{SupplementNote, SupplementReport};
use crate::slice::{SliceTask, check_slice};
use book_model::{Book, Slice};
use inquiry::KeptSets;
use pb_base::{Memory, Sequence};
use shared_work::Work;
use std::alloc::Global;

/// The questions on the supplementing rules of a book, each search with this budget. The notes of a slice are made of it.
#[derive(Clone, Copy)]
pub(crate) struct SliceWork<'a> {
    pub book: &'a Book,
    pub all: &'a [SupplementQuestion],
    pub touched: &'a [Sequence<u32>],
    pub budget: u32,
}

impl<'a> Work for SliceWork<'a> {
    type Item = Slice;

    type Made = SupplementReport;

    ghost IsReady = { λ w. AreAsked w.book.now w.all.now w.touched.now };

    ghost IsGiven = { λ w. IsSliceTask w.book.now w.budget };

    ghost IsMade = { λ w. SliceNotes (inquiry w.book.now w.budget) };

    fn make(&self, alloc: Global, slices: &[Slice]) -> Result<Vec<SupplementReport>, Memory> {
        notes_of_each(
            alloc,
            self.book,
            slices,
            self.all,
            self.touched,
            self.budget,
        )
    }
}

// The notes of each of these slices.
fn notes_of_each(
    alloc: Global,
    book: &Book,
    slices: &[Slice],
    all: &[SupplementQuestion],
    touched: &[Sequence<u32>],
    budget: u32,
) -> Result<Vec<SupplementReport>, Memory>
    requires tasks { All (IsSliceTask book.now budget) slices.now }
    requires all { all.now ≡ all_questions book.now }
    requires touched { AreTouched (length book.now.codes) book.now.constructs touched.now }
    ensures { IfOk result (λ each. AllZip (SliceNotes (inquiry book.now budget)) slices.now each.items) }
{
    let mut each = Vec::new(alloc);
    let mut sets = KeptSets::new(alloc);
    for slice in slices {
        let task = SliceTask {
            slice: *slice,
            budget,
        };
        let own = check_slice(alloc, book, task, all, touched, &mut sets)?;
        each.push(Sequence::of(own))?;
    }
    Ok(each)
}

/// The notes of all these slices, one slice behind the other.
pub(crate) fn joined(
    alloc: Global,
    each: Vec<SupplementReport>,
) -> Result<Vec<SupplementNote>, Memory>
    ensures { IfOk result (λ notes. notes.items ≡ flat_map notes_in each.items) }
{
    let mut notes = Vec::new(alloc);
    for own in each {
        add(&mut notes, own)?;
    }
    Ok(notes)
}

fn add(notes: &mut Vec<SupplementNote>, more: SupplementReport) -> Result<(), Memory>
    ensures { OnOk result (notes.new.items ≡ notes.old.items ++ more) }
{
    let mut own = more.into_items();
    notes.append(&mut own)?;
    Ok(())
}

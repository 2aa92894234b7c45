//! How many questions the slices of a book have. The pairs of one rule stand in memory at a time.
ghost use Rattle.std.specs.Prelude.{◌≡◌, ◌+◌, ◌<◌, ◌≤◌, ◌^◌, All, IfOk, length, map};
ghost use Rattle.pb_base.specs.Answers.{Answers};
ghost use Rattle.book_model.specs.Slices.{IsOrdered, IsSteady};
ghost use Rattle.supplement_findings.specs.Counting.{count_in, counted, more, over, pairs_at, total};
ghost use Rattle.supplement_findings.specs.Limits.{first_over, slices_within};
ghost use Rattle.supplement_findings.specs.Questions.{QuestionFits, breaks_from};

use crate::question::SupplementQuestion;
use crate::questions::{is_put, push_breaks, push_swaps_with};
use book_model::{Book, LimitFault, Slice, SliceList, slices};
use pb_base::limits::MOST_QUESTIONS;
use pb_base::{Day, Fail, Memory};
use std::alloc::Global;

/// The first day of a slice, and how many of its questions were counted.
#[derive(Clone, Copy)]
pub(crate) struct Tally {
    pub(crate) first: Day,
    pub(crate) count: u64,
}

/// The slices of a book, in order of days, where it keeps the limits: at most 64 slices, each with at most 200,000 questions on
/// supplementing rules. It refuses with the first limit that the book exceeds, the number of slices before their questions.
pub(crate) fn slices_within(alloc: Global, book: &Book) -> Result<SliceList, Fail<LimitFault>>
    ensures answer { Answers result (slices_within book.now) }
    ensures order { IfOk result (λ slices. All IsOrdered slices) }
    ensures steady { IfOk result (λ slices. All (IsSteady book.now) slices) }
{
    let slices = slices(alloc, book)?;
    if let Some(fault) = first_over(alloc, book, slices.as_slice())? {
        return Err(Fail::Refused(fault));
    }
    Ok(slices)
}

// The first slice with too many questions.
#[tactic(auto, using(crate::proofs::CountLaws::over_total))]
fn first_over(alloc: Global, book: &Book, slices: &[Slice]) -> Result<Option<LimitFault>, Memory>
    requires { length slices.now < 2 ^ 32 }
    ensures { IfOk result (λ fault. fault ≡ first_over 0 book.now slices.now) }
{
    let tallies = all_counted(alloc, book, slices)?;
    Ok(over(&tallies))
}

fn over(tallies: &[Tally]) -> Option<LimitFault>
    requires { length tallies.now < 2 ^ 32 }
    ensures { result ≡ over 0 tallies.now }
{
    for (place, tally) in tallies.iter().enumerate() {
        if tally.count > MOST_QUESTIONS as u64 {
            return Some(LimitFault::Questions {
                slice: place as u32,
                count: tally.count,
            });
        }
    }
    None
}

// The tallies of slices, all questions counted.
fn all_counted(alloc: Global, book: &Book, slices: &[Slice]) -> Result<Vec<Tally>, Memory>
    ensures { IfOk result (λ tallies. tallies.items ≡ map (total book.now) slices.now) }
{
    let mut tallies = breaks_counted(alloc, book, slices)?;
    let rules = book.supplements();
    for place in 0..rules.len() {
        let row = pairs_of(alloc, book, place)?;
        tallies = row_counted(alloc, book, &tallies, &row)?;
    }
    Ok(tallies)
}

// The tallies of slices, the questions of one rule counted.
fn breaks_counted(alloc: Global, book: &Book, slices: &[Slice]) -> Result<Vec<Tally>, Memory>
    ensures { let breaks = breaks_from 0 book.now.supplements in
        IfOk result (λ tallies. tallies.items ≡ map (counted book.now breaks) slices.now) }
{
    let mut row = Vec::new(alloc);
    push_breaks(&mut row, book.supplements())?;
    let mut tallies = Vec::new(alloc);
    for slice in slices {
        tallies.push(Tally {
            first: slice.first,
            count: put_count(book, slice.first, &row),
        })?;
    }
    Ok(tallies)
}

// The questions of a rule with later ones.
fn pairs_of(alloc: Global, book: &Book, place: usize) -> Result<Vec<SupplementQuestion>, Memory>
    requires { place < length book.now.supplements }
    ensures { IfOk result (λ row. row.items ≡ pairs_at book.now place) }
{
    let rules = book.supplements();
    let mut row = Vec::new(alloc);
    push_swaps_with(&mut row, place as u32, &rules[place], &rules[place + 1..])?;
    Ok(row)
}

// The tallies where some questions more are counted.
fn row_counted(
    alloc: Global,
    book: &Book,
    tallies: &[Tally],
    row: &[SupplementQuestion],
) -> Result<Vec<Tally>, Memory>
    requires fits { All (QuestionFits book.now) row.now }
    requires few { All (λ t. t.count + length row.now < 2 ^ 64) tallies.now }
    ensures { IfOk result (λ counted. counted.items ≡ map (more book.now row.now) tallies.now) }
{
    let mut counted = Vec::new(alloc);
    for tally in tallies {
        counted.push(Tally {
            first: tally.first,
            count: tally.count + put_count(book, tally.first, row),
        })?;
    }
    Ok(counted)
}

// How many of some questions are put on a day.
fn put_count(book: &Book, day: Day, row: &[SupplementQuestion]) -> u64
    requires { All (QuestionFits book.now) row.now }
    ensures is { result ≡ count_in book.now day row.now }
    ensures few { result ≤ length row.now }
{
    let mut count = 0;
    for question in row {
        if is_put(book, day, *question) {
            count += 1;
        }
    }
    count
}

//! The slices of a book's term.
ghost use Rattle.std.specs.Prelude.{◌≡◌, ◌<◌, ◌^◌, IfOk, All, length};
ghost use Rattle.std.specs.List.{flat_map};
ghost use Rattle.pb_base.specs.Answers.{Answers};
ghost use Rattle.book_model.specs.Slices.{end_before, runs_from, within_limit, slices_of, days_in, days_of, IsOrdered, IsSteady};

use crate::book::Book;
use crate::change_days::change_days;
use crate::periods::periods_of;
use crate::record::Slice;
use pb_base::limits::MOST_SLICES;
use pb_base::{Day, Fail, Memory};
use std::alloc::Global;
use std::marker::Model;

/// A limit of checking that a book exceeds.
#[derive(Clone, Copy, Debug, PartialEq, Eq)]
pub enum LimitFault {
    /// The term has this number of slices, more than the limit.
    Slices(u32),
    /// The slice at a place, counted from 0, has this number of questions, more than may be asked.
    Questions { slice: u32, count: u64 },
}

/// Slices in order of days.
#[derive(Drop)]
pub struct SliceList {
    slices: Vec<Slice>,
}

impl Model for SliceList {
    ghost use Rattle.std.specs.Prelude.{List};
    ghost use Rattle.book_model.specs.declared.record.Slice.{Slice};

    ghost Value = { List Slice };

    ghost view = { λ l. l.slices.items };
}

impl SliceList {
    /// The slices in order of days.
    pub fn as_slice(&self) -> &[Slice]
        ensures { result.now ≡ self.now }
    {
        &self.slices
    }
}

/// The slices of a book's term, in order of days: the longest runs of days on which the same records are active. They are refused where there are more than `MOST_SLICES`.
pub fn slices(alloc: Global, book: &Book) -> Result<SliceList, Fail<LimitFault>>
    ensures value { Answers result (slices_of book.now) }
    ensures partition { IfOk result (λ slices. flat_map days_in slices ≡ days_of book.now) }
    ensures order { IfOk result (λ slices. All IsOrdered slices) }
    ensures steady { IfOk result (λ slices. All (IsSteady book.now) slices) }
{
    let term = book.term();
    let periods = periods_of(alloc, book)?;
    let days = change_days(alloc, term, &periods)?;
    runs_within(alloc, &days, term.last)
}

// The runs of these days, unless they are too many.
pub(crate) fn runs_within(
    alloc: Global,
    days: &[Day],
    last: Day,
) -> Result<SliceList, Fail<LimitFault>>
    requires { length days.now < 2 ^ 32 }
    ensures { Answers result (within_limit (runs_from days.now last)) }
{
    if days.len() > MOST_SLICES {
        return Err(Fail::Refused(LimitFault::Slices(days.len() as u32)));
    }
    let slices = runs_from(alloc, days, last)?;
    Ok(SliceList { slices })
}

// From each of these days on to the next of them, and from the last of them to the last day.
fn runs_from(alloc: Global, days: &[Day], last: Day) -> Result<Vec<Slice>, Memory>
    ensures { IfOk result (λ slices. slices.items ≡ runs_from days.now last) }
{
    let mut slices = Vec::new(alloc);
    for (place, day) in days.iter().enumerate() {
        let end = end_before(&days[place + 1..], last);
        slices.push(Slice {
            first: *day,
            last: end,
        })?;
    }
    Ok(slices)
}

// The day before the next change, or the last day.
fn end_before(later: &[Day], last: Day) -> Day
    ensures { result ≡ end_before later.now last }
{
    match later {
        [] => last,
        [next, ..] => next.saturating_sub(1),
    }
}

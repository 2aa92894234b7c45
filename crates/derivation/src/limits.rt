//! The limits of a book's slices and questions.
ghost use Rattle.std.specs.Prelude.{◌≡◌, ◌<◌, ◌≤◌, ◌^◌, IfOk, length};
ghost use Rattle.pb_base.specs.Answers.{Answers};
ghost use Rattle.derivation.specs.Limits.{AreWithin, first_over, slices_within};

use book_model::{Book, LimitFault, Slice, SliceList, slices};
use clausify::question_count;
use pb_base::Fail;
use pb_base::limits::MOST_QUESTIONS;
use std::alloc::Global;

/// The slices of a book, in order of days, where it keeps the limits of checking: at most 64 slices, each with at most
/// 200,000 questions. It refuses with the first limit that the book exceeds, the number of slices before their questions.
#[tactic(auto, using(crate::proofs::LimitLaws::few_slices, crate::proofs::LimitLaws::within_from_none))]
pub fn slices_within(alloc: Global, book: &Book) -> Result<SliceList, Fail<LimitFault>>
    ensures answer { Answers result (slices_within book.now) }
    ensures within { IfOk result (AreWithin book.now) }
    ensures few { IfOk result (λ slices. length slices ≤ 64) }
{
    let slices = slices(alloc, book)?;
    if let Some(fault) = first_over(book, slices.as_slice()) {
        return Err(Fail::Refused(fault));
    }
    Ok(slices)
}

// The first slice with too many questions.
fn first_over(book: &Book, slices: &[Slice]) -> Option<LimitFault>
    requires { length slices.now < 2 ^ 32 }
    ensures { result ≡ first_over 0 book.now slices.now }
{
    for (place, slice) in slices.iter().enumerate() {
        let count = question_count(book, slice);
        if count > MOST_QUESTIONS as u64 {
            return Some(LimitFault::Questions {
                slice: place as u32,
                count,
            });
        }
    }
    None
}

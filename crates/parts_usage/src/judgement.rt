//! What an order comes to.
ghost use Rattle.std.specs.Prelude.{◌≡◌, IfOk, length};
ghost use Rattle.parts_usage.specs.Outcome.{outcome_of_set};

use crate::broken::first_broken;
use crate::parts_list::{PartsList, select};
use crate::unfit::first_unfit;
use book_model::Book;
use pb_base::{CodeSet, Day, Memory};
use std::alloc::Global;

/// What an order comes to that has no fault.
#[derive(Drop)]
pub enum Outcome {
    /// The order can be built: the completed set of its codes and its parts list.
    Accepted { set: CodeSet, list: PartsList },
    /// The constructibility rule at this place, counted from 0, is the first that the completed set breaks.
    Refused(u32),
    /// The position at this place, counted from 0, is the first that doesn't fit, and so many of its variants are selected.
    Unfit { position: u32, count: u32 },
}

/// What a completed set comes to.
pub fn judge_set(alloc: Global, book: &Book, day: Day, set: CodeSet) -> Result<Outcome, Memory>
    requires { length set ≡ length book.now.codes }
    ensures { IfOk result (λ o. o ≡ outcome_of_set book.now day set) }
{
    match first_broken(book, day, &set) {
        Some(rule) => Ok(Outcome::Refused(rule)),
        None => match first_unfit(book, day, &set) {
            Some(unfit) => Ok(Outcome::Unfit {
                position: unfit.position,
                count: unfit.count,
            }),
            None => {
                let list = select(alloc, book, day, &set)?;
                Ok(Outcome::Accepted { set, list })
            }
        },
    }
}

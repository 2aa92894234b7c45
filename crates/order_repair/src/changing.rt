//! What is changed beside the codes that are kept.
ghost use Rattle.std.specs.Prelude.{◌≡◌, IfOk, None, Some};
ghost use Rattle.pb_base.specs.Places.{names_at};
ghost use Rattle.parts_usage.specs.Unfit.{first_unfit_of};
ghost use Rattle.order_stays.specs.Stays.{IsCarWith};
ghost use Rattle.order_added.specs.Accepted.{is_accepted};
ghost use Rattle.order_repair.specs.Ordered.{AreOrdered};
ghost use Rattle.order_repair.specs.Repair.{IsChange, accepts};

use crate::answer::Change;
use crate::places::others_of;
use book_model::Book;
use order_added::add;
use parts_usage::{Outcome, Unfit, first_unfit, outcome};
use pb_base::{CodeName, CodeSet, Day, Fail, Memory};
use std::alloc::Global;

/// What is changed so that these codes are accepted, by a car that has them.
pub(crate) fn change_of(
    alloc: Global,
    book: &Book,
    day: Day,
    kept: &[u32],
    car: CodeSet,
) -> Result<Change, Memory>
    requires ordered { AreOrdered book.now day kept.now }
    requires car { IsCarWith book.now day kept.now car }
    ensures { IfOk result (IsChange book.now day kept.now) }
{
    let names = book.codes().names_at(alloc, kept)?;
    match first_unfit(book, day, &car) {
        None => addition(alloc, book, day, kept, &names, &car),
        Some(unfit) => unless_accepted(alloc, book, day, kept, &names, car, unfit),
    }
}

// The car can be built: so the kept codes are accepted with its other codes.
fn addition(
    alloc: Global,
    book: &Book,
    day: Day,
    kept: &[u32],
    names: &[CodeName],
    car: &CodeSet,
) -> Result<Change, Memory>
    requires ordered { AreOrdered book.now day kept.now }
    requires names { names.now ≡ names_at book.now.codes kept.now }
    requires car { IsCarWith book.now day kept.now car.now }
    requires fits { first_unfit_of book.now day car.now ≡ None }
    ensures { IfOk result (IsChange book.now day kept.now) }
{
    book.codes().names_law();
    let places = others_of(alloc, car, kept)?;
    let others = book.codes().names_at(alloc, &places)?;
    let added = add(alloc, book, day, names, others)?;
    Ok(Change::Add(added))
}

// The car can't be built. The kept codes may be accepted as they stand all the same.
fn unless_accepted(
    alloc: Global,
    book: &Book,
    day: Day,
    kept: &[u32],
    names: &[CodeName],
    car: CodeSet,
    unfit: Unfit,
) -> Result<Change, Memory>
    requires names { names.now ≡ names_at book.now.codes kept.now }
    requires car { IsCarWith book.now day kept.now car }
    requires first { first_unfit_of book.now day car ≡ Some unfit }
    ensures { IfOk result (IsChange book.now day kept.now) }
{
    if is_accepted(alloc, book, day, names)? {
        Ok(Change::Add(Vec::new(alloc)))
    } else {
        Ok(Change::Unfit { car, unfit })
    }
}

fn is_accepted(alloc: Global, book: &Book, day: Day, names: &[CodeName]) -> Result<bool, Memory>
    ensures { IfOk result (λ accepted. accepted ≡ is_accepted book.now day names.now) }
{
    match outcome(alloc, book, day, names) {
        Ok(judged) => Ok(accepts(&judged)),
        Err(Fail::Refused(_)) => Ok(false),
        Err(Fail::Memory) => Err(Memory),
    }
}

fn accepts(judged: &Outcome) -> bool
    ensures { result ≡ accepts judged.now }
{
    match judged {
        Outcome::Accepted { .. } => true,
        Outcome::Refused(_) => false,
        Outcome::Unfit { .. } => false,
    }
}

//! Which codes of an order are kept so that it would be accepted.
ghost use Rattle.std.specs.Prelude.{◌≡◌, ◌<◌, ◌≤◌, IfOk, false};
ghost use Rattle.pb_base.specs.Rule.{always as true_rule};
ghost use Rattle.pb_base.specs.declared.limits.TheConstants.{MOST_BUDGET};
ghost use Rattle.blame.specs.Blame.{AreBlamed};
ghost use Rattle.order_stays.specs.Stays.{IsCarWith, IsStay, IsStaying};
ghost use Rattle.order_repair.specs.Ordered.{AreOrdered};
ghost use Rattle.order_repair.specs.Repair.{IsRepair};

use crate::answer::{Kept, Repair};
use crate::changing::change_of;
use crate::places::left_out;
use blame::Blamed;
use book_model::Book;
use order_stays::{Stay, Staying, Together, stay_or_blame};
use pb_base::{CodeSet, Day, Memory};
use std::alloc::Global;

/// How an order of these codes would be accepted that isn't.
pub(crate) fn repair(
    alloc: Global,
    book: &Book,
    day: Day,
    chosen: &[u32],
    budget: u32,
) -> Result<Repair, Memory>
    requires some { 0 < budget }
    requires most { budget ≤ MOST_BUDGET }
    requires ordered { AreOrdered book.now day chosen.now }
    ensures { IfOk result (IsRepair book.now day chosen.now budget false) }
{
    let _codes = book.codes();
    let together = stay_or_blame(alloc, book, day, chosen, budget)?;
    match together {
        Together::Car(car) => keep_all(alloc, book, day, chosen, budget, car),
        Together::Apart(clash, staying) => keep_some(
            alloc, book, day, chosen, budget, clash, staying,
        ),
        Together::Undecided(learnt) => Ok(Repair::Undecided(learnt)),
    }
}

// Some car has all the codes.
fn keep_all(
    alloc: Global,
    book: &Book,
    day: Day,
    chosen: &[u32],
    budget: u32,
    car: CodeSet,
) -> Result<Repair, Memory>
    requires ordered { AreOrdered book.now day chosen.now }
    requires car { IsCarWith book.now day chosen.now car }
    ensures { IfOk result (IsRepair book.now day chosen.now budget false) }
{
    let change = change_of(alloc, book, day, chosen, car)?;
    let codes = Vec::from_slice(alloc, chosen)?;
    let left = left_out(alloc, chosen, chosen)?;
    Ok(Repair::Keep(Kept {
        clash: None,
        codes,
        left,
        change,
    }))
}

// No car has all the codes, these are to blame, and so many of them stay.
fn keep_some(
    alloc: Global,
    book: &Book,
    day: Day,
    chosen: &[u32],
    budget: u32,
    clash: Blamed,
    staying: Staying,
) -> Result<Repair, Memory>
    requires ordered { AreOrdered book.now day chosen.now }
    requires clash { AreBlamed book.now day chosen.now true_rule budget clash }
    requires staying { IsStaying book.now day chosen.now budget staying }
    ensures { IfOk result (IsRepair book.now day chosen.now budget false) }
{
    match staying {
        Staying::Codes(stay) => keep_these(alloc, book, day, chosen, budget, clash, stay),
        Staying::NoCar => Ok(Repair::NoOrder(clash)),
        Staying::Undecided(learnt) => Ok(Repair::Undecided(learnt)),
    }
}

// These of the codes stay.
fn keep_these(
    alloc: Global,
    book: &Book,
    day: Day,
    chosen: &[u32],
    budget: u32,
    clash: Blamed,
    stay: Stay,
) -> Result<Repair, Memory>
    requires ordered { AreOrdered book.now day chosen.now }
    requires clash { AreBlamed book.now day chosen.now true_rule budget clash }
    requires stay { IsStay book.now day chosen.now stay }
    ensures { IfOk result (IsRepair book.now day chosen.now budget false) }
{
    let Stay { kept, car } = stay;
    let change = change_of(alloc, book, day, &kept, car)?;
    let left = left_out(alloc, chosen, &kept)?;
    Ok(Repair::Keep(Kept {
        clash: Some(clash),
        codes: kept,
        left,
        change,
    }))
}

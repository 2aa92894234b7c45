//! What no report of lost cars tells or leaves out.
ghost use Rattle.std.specs.Prelude.{◌≡◌, ◌<◌, ◌≤◌, [], All, IfOk, List, ℕ};
ghost use Rattle.std.specs.List.{AllByRecursion};
ghost use Rattle.pb_base.specs.declared.limits.TheConstants.{MOST_BUDGET};
ghost use Rattle.lost_cars.specs.Losses.{IsCar, cause_of, is_lost, questions};
ghost use Rattle.rules_met.specs.Met.{IsCounted};
ghost use Rattle.comparison_guards.specs.Cars.{IsCommonIfMet, IsToldIfLost};

use book_model::Book;
use inquiry::KeptSets;
use lost_cars::{LossNote, common_car, lost_cars};
use pb_base::{Day, Memory};
use rules_met::RuleAnswer;
use std::alloc::Global;

/// A car can no longer be ordered, and the report says that none is lost.
pub fn no_lost_car_is_left_out(
    alloc: Global,
    own: &Book,
    other: &Book,
    day: Day,
    budget: u32,
    sets: &mut KeptSets,
) -> Result<Vec<LossNote>, Memory>
    requires some { 0 < budget }
    requires most { budget ≤ MOST_BUDGET }
    requires counted { All (IsCounted own.now) sets.old }
    ensures { IfOk result (λ notes. (names : List (List ℕ)) → IsCar own.now day names
        → (IsCar other.now day names → ⊥) → notes.items ≡ [] → ⊥) }
{
    lost_cars(alloc, own, other, day, budget, sets)
}

/// A rule of the other book, or a code that it lacks, loses cars, and the report doesn't tell of it, whatever else it tells.
pub fn no_cause_of_a_lost_car_is_left_out(
    alloc: Global,
    own: &Book,
    other: &Book,
    day: Day,
    budget: u32,
    sets: &mut KeptSets,
) -> Result<Vec<LossNote>, Memory>
    requires some { 0 < budget }
    requires most { budget ≤ MOST_BUDGET }
    requires counted { All (IsCounted own.now) sets.old }
    ensures { IfOk result (λ notes. AllByRecursion (λ q. IsToldIfLost own.now day (is_lost own.now other.now day q)
        (cause_of own.now other.now q) notes.items) (questions own.now other.now)) }
{
    lost_cars(alloc, own, other, day, budget, sets)
}

/// A car is told as one of both books that one of them refuses.
pub fn no_other_car_is_told_as_one_of_both(
    alloc: Global,
    own: &Book,
    other: &Book,
    day: Day,
    budget: u32,
    sets: &mut KeptSets,
) -> Result<RuleAnswer, Memory>
    requires some { 0 < budget }
    requires most { budget ≤ MOST_BUDGET }
    requires counted { All (IsCounted own.now) sets.old }
    ensures { IfOk result (IsCommonIfMet own.now other.now day) }
{
    common_car(alloc, own, other, day, budget, sets)
}

//! The rules that fire over most orders: those whose formulas are true where no code is ordered.
ghost use Rattle.std.specs.Prelude.{◌≤◌, IfOk, length, All};
ghost use Rattle.pb_base.specs.declared.limits.TheConstants.{MOST_SUPPLEMENTS};
ghost use Rattle.book_model.specs.Book.{SupplementFits};
ghost use Rattle.supplement.specs.Worklist.{AreHolding, AreStanding, HasHolding};

use crate::worklist::Candidate;
use book_model::Supplement;
use pb_base::{CodeSet, Memory};
use std::alloc::Global;

/// The rules whose formulas are true where no code is in the set, the first first, on whatever days they are active.
pub fn standing_rules(
    alloc: Global,
    codes: u32,
    supplements: &[Supplement],
) -> Result<Vec<Candidate>, Memory>
    requires fit { All (SupplementFits codes) supplements.now }
    requires places { length supplements.now ≤ MOST_SUPPLEMENTS }
    ensures { IfOk result (λ standing. AreStanding supplements.now standing.items) }
{
    let none = CodeSet::none(alloc, codes)?;
    let mut standing = rules_that_hold(alloc, supplements, &none)?;
    standing.sort_unstable();
    Ok(standing)
}

// The rules whose formulas are true of the set, in record order.
fn rules_that_hold(
    alloc: Global,
    supplements: &[Supplement],
    set: &CodeSet,
) -> Result<Vec<Candidate>, Memory>
    requires fit { All (SupplementFits (length set.now)) supplements.now }
    requires places { length supplements.now ≤ MOST_SUPPLEMENTS }
    ensures holding { IfOk result (λ found. AreHolding supplements.now set.now found.items) }
    ensures complete { IfOk result (λ found. HasHolding supplements.now set.now found.items) }
{
    let mut found = Vec::new(alloc);
    for (place, supplement) in supplements.iter().enumerate() {
        if supplement.rule.holds(set) {
            found.push(Candidate {
                rank: supplement.rank,
                rule: place as u32,
            })?;
        }
    }
    Ok(found)
}

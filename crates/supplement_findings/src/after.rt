//! What constructibility rules ask of a set with one more code.
ghost use Rattle.std.specs.Prelude.{◌≡◌, IfOk, Some};
ghost use Rattle.pb_base.specs.Rule.{code, negation};
ghost use Rattle.book_model.specs.declared.demand.Demand.TheVariants as demand;
ghost use Rattle.supplement_findings.specs.Touching.{after, no_other, and_absent};

use book_model::Demand;
use pb_base::{Formula, Memory, Present};
use std::alloc::Global;

/// A formula that is true where the set with the code meets the demand, over sets that meet it without. The code stands in the
/// demand.
pub(crate) fn after(alloc: Global, added: u32, demand: &Demand) -> Result<Formula, Memory>
    ensures { IfOk result (λ f. f ≡ after added demand.now) }
{
    match demand {
        Demand::Rule { on: None, rule } => rule.with_leaves(alloc, &Present(added)),
        Demand::Rule { on: Some(on), rule } => after_rule_on(alloc, added, *on, rule),
        Demand::One(group) => no_other(alloc, added, group.codes()),
        Demand::Most(group) => no_other(alloc, added, group.codes()),
    }
}

// The same of a rule of a code.
fn after_rule_on(alloc: Global, added: u32, on: u32, rule: &Formula) -> Result<Formula, Memory>
    ensures { IfOk result (λ f. f ≡ after added (demand.Rule (Some on) rule.now)) }
{
    let read = rule.with_leaves(alloc, &Present(added))?;
    if on == added {
        return Ok(read);
    }
    let absent = absent(alloc, on)?;
    absent.or(read)
}

// The formula that the code is absent.
fn absent(alloc: Global, place: u32) -> Result<Formula, Memory>
    ensures { IfOk result (λ f. f ≡ negation (code place)) }
{
    let present = Formula::code(alloc, place)?;
    present.not()
}

// The formula that none of the other codes of a group is present.
fn no_other(alloc: Global, added: u32, group: &[u32]) -> Result<Formula, Memory>
    ensures { IfOk result (λ f. f ≡ no_other added group.now) }
{
    let mut none = None;
    for place in group {
        if *place != added {
            none = Some(and_absent(alloc, none, *place)?);
        }
    }
    match none {
        Some(formula) => Ok(formula),
        None => Formula::yes(alloc),
    }
}

// The formula so far, and that one more code is absent.
fn and_absent(alloc: Global, so_far: Option<Formula>, place: u32) -> Result<Formula, Memory>
    ensures { IfOk result (λ f. f ≡ and_absent so_far place) }
{
    let absent = absent(alloc, place)?;
    match so_far {
        Some(formula) => formula.and(absent),
        None => Ok(absent),
    }
}

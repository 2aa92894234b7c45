//! Formulas that are true just where a rule isn't kept.
ghost use Rattle.std.specs.Prelude.{◌≡◌, IfOk};
ghost use Rattle.pb_base.specs.Leaves.{with_leaves};
ghost use Rattle.pb_base.specs.Rule.{code, both, either, negation};
ghost use Rattle.lost_cars.specs.ByName.{by_name};
ghost use Rattle.lost_cars.specs.Losses.{read_by_own};
ghost use Rattle.lost_cars.specs.Violation.{any_of, two_of, firing, unmet};

use crate::by_name::ByName;
use book_model::{Book, Demand, Supplement};
use pb_base::{Formula, Memory};
use std::alloc::Global;

/// That a supplementing rule of the other book fires, over the codes of the own one.
#[tactic(auto, using(crate::proofs::AskLaws::read_made))]
pub(crate) fn firing(
    alloc: Global,
    own: &Book,
    other: &Book,
    supplement: &Supplement,
) -> Result<Formula, Memory>
    ensures { IfOk result (λ f. f ≡ read_by_own own.now other.now (firing supplement.now)) }
{
    let names = ByName::of(own, other);
    let rule = supplement.rule.with_leaves(alloc, &names)?;
    let added = code_by_name(alloc, &names, supplement.code)?;
    let absent = added.not()?;
    rule.and(absent)
}

// That a code is present.
fn code_by_name(alloc: Global, names: &ByName<'_>, place: u32) -> Result<Formula, Memory>
    ensures { IfOk result (λ f. f ≡ with_leaves (by_name names.now.own.now names.now.other.now) (code place)) }
{
    let present = Formula::code(alloc, place)?;
    present.with_leaves(alloc, names)
}

/// That a demand of the other book isn't met, over the codes of the own one.
#[tactic(auto, using(crate::proofs::AskLaws::read_made))]
pub(crate) fn unmet(
    alloc: Global,
    own: &Book,
    other: &Book,
    demand: &Demand,
) -> Result<Formula, Memory>
    ensures { IfOk result (λ f. f ≡ read_by_own own.now other.now (unmet demand.now)) }
{
    let names = ByName::of(own, other);
    unmet_by_name(alloc, &names, demand)
}

fn unmet_by_name(alloc: Global, names: &ByName<'_>, demand: &Demand) -> Result<Formula, Memory>
    ensures { IfOk result (λ f. f ≡ with_leaves (by_name names.now.own.now names.now.other.now) (unmet demand.now)) }
{
    match demand {
        Demand::Rule { on: None, rule } => rule.with_leaves(alloc, names)?.not(),
        Demand::Rule {
            on: Some(place),
            rule,
        } => unmet_on(alloc, names, *place, rule),
        Demand::One(group) => not_one(alloc, names, group.codes()),
        Demand::Most(group) => two_of(alloc, group.codes())?.with_leaves(alloc, names),
    }
}

// That a code is present and a formula is false.
fn unmet_on(
    alloc: Global,
    names: &ByName<'_>,
    place: u32,
    rule: &Formula,
) -> Result<Formula, Memory>
    ensures { let leaf = by_name names.now.own.now names.now.other.now in
        IfOk result (λ f. f ≡ with_leaves leaf (both (code place) (negation rule.now))) }
{
    let present = code_by_name(alloc, names, place)?;
    let broken = rule.with_leaves(alloc, names)?.not()?;
    present.and(broken)
}

// That not exactly one of some codes is present.
fn not_one(alloc: Global, names: &ByName<'_>, codes: &[u32]) -> Result<Formula, Memory>
    ensures { let leaf = by_name names.now.own.now names.now.other.now in
        IfOk result (λ f. f ≡ with_leaves leaf (either (negation (any_of codes.now)) (two_of codes.now))) }
{
    let none = any_of(alloc, codes)?.not()?;
    let two = two_of(alloc, codes)?;
    none.or(two)?.with_leaves(alloc, names)
}

// That one of the codes is present.
fn any_of(alloc: Global, codes: &[u32]) -> Result<Formula, Memory>
    ensures { IfOk result (λ f. f ≡ any_of codes.now) }
{
    let mut any = Formula::no(alloc)?;
    for code in codes {
        let present = Formula::code(alloc, *code)?;
        any = any.or(present)?;
    }
    Ok(any)
}

// That two of them are.
fn two_of(alloc: Global, codes: &[u32]) -> Result<Formula, Memory>
    ensures { IfOk result (λ f. f ≡ two_of codes.now) }
{
    let mut two = Formula::no(alloc)?;
    for (place, code) in codes.iter().enumerate() {
        let pair = with_later(alloc, *code, &codes[place + 1..])?;
        two = two.or(pair)?;
    }
    Ok(two)
}

// That a code is present, and one of those that stand after it.
fn with_later(alloc: Global, place: u32, later: &[u32]) -> Result<Formula, Memory>
    ensures { IfOk result (λ f. f ≡ both (code place) (any_of later.now)) }
{
    let present = Formula::code(alloc, place)?;
    let any = any_of(alloc, later)?;
    present.and(any)
}

//! The rules that are asked for a claim.
ghost use Rattle.std.specs.Prelude.{◌≡◌, ◌++◌, IfOk, OnOk};
ghost use Rattle.pb_base.specs.Rule.{both, negation};
ghost use Rattle.clausify.specs.Questions.{and_none};
ghost use Rattle.kept_requirements.specs.Kept.{is_active_at, carries, part_rules, asked_rules};

use book_model::{Book, Variant, active};
use pb_base::{Day, Formula, Memory, Part};
use requirements::Claim;
use std::alloc::Global;

/// Puts the rules that are asked for a claim on a day behind the others: that a car doesn't keep it, and for one that is about a
/// part, that a car meets its rule.
pub(crate) fn add_asked(
    alloc: Global,
    rules: &mut Vec<Formula>,
    book: &Book,
    day: Day,
    claim: &Claim,
) -> Result<(), Memory>
    ensures { OnOk result (rules.new.items ≡ rules.old.items ++ asked_rules book.now day claim.now) }
{
    match claim {
        Claim::Meets(rule) => {
            let broken = negated(alloc, rule)?;
            rules.push(broken)?;
            Ok(())
        }
        Claim::Uses { part, rule } => {
            let broken = and_unused(alloc, book, day, part, rule)?;
            rules.push(broken)?;
            let meant = copied(alloc, rule)?;
            rules.push(meant)?;
            Ok(())
        }
    }
}

// A further formula that is equal to this one.
fn copied(alloc: Global, rule: &Formula) -> Result<Formula, Memory>
    ensures { IfOk result (λ f. f ≡ rule.now) }
{
    let nodes = Vec::from_slice(alloc, rule.nodes())?;
    Ok(Formula::of_nodes(nodes))
}

fn negated(alloc: Global, rule: &Formula) -> Result<Formula, Memory>
    ensures { IfOk result (λ f. f ≡ negation rule.now) }
{
    let copy = copied(alloc, rule)?;
    copy.not()
}

// The rule, and that no variant is used by which a car would have the part.
fn and_unused(
    alloc: Global,
    book: &Book,
    day: Day,
    part: &Part,
    rule: &Formula,
) -> Result<Formula, Memory>
    ensures { IfOk result (λ f. f ≡ and_none rule.now (part_rules book.now day part.now)) }
{
    let mut broken = copied(alloc, rule)?;
    for variant in book.variants() {
        if carries(book, day, part, variant) {
            broken = and_not(alloc, broken, &variant.rule)?;
        }
    }
    Ok(broken)
}

fn and_not(alloc: Global, so_far: Formula, rule: &Formula) -> Result<Formula, Memory>
    ensures { IfOk result (λ f. f ≡ both so_far (negation rule.now)) }
{
    let not = negated(alloc, rule)?;
    so_far.and(not)
}

// Whether a variant has the part, and it and its position are active.
fn carries(book: &Book, day: Day, part: &Part, variant: &Variant) -> bool
    ensures { result ≡ carries book.now day part.now variant.now }
{
    variant.part == *part
        && active(variant.from, variant.until, day)
        && is_active_at(book, day, variant.position)
}

// Whether the position at a place is active.
fn is_active_at(book: &Book, day: Day, place: u32) -> bool
    ensures { result ≡ is_active_at book.now day place }
{
    match book.positions().get(place as usize) {
        Some(position) => active(position.from, position.until, day),
        None => false,
    }
}

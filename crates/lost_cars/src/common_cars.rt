//! Whether some car of one book is one of another.
ghost use Rattle.std.specs.Prelude.{◌≡◌, ◌<◌, ◌≤◌, ◌^◌, All, IfOk, length, map, slice_index_or};
ghost use Rattle.pb_base.specs.Node.{size};
ghost use Rattle.pb_base.specs.declared.limits.TheConstants.{MOST_BUDGET};
ghost use Rattle.lost_cars.specs.CommonCar.{IsCommonAnswer, IsCommonRule, none_rule};
ghost use Rattle.rules_met.specs.Met.{IsAnswer, IsCounted, RuleIsSmall};
ghost use Rattle.rules_met.specs.declared.answer.RuleAnswer.TheVariants.{NotMet};

use crate::asks::{Ask, asks};
use crate::questions::questions;
use book_model::Book;
use inquiry::KeptSets;
use pb_base::{Day, Formula, Memory};
use rules_met::{RuleAnswer, ask_rules};
use std::alloc::Global;

// The most nodes of a formula that is asked. They would take 8 GB.
const MOST_ASKED: usize = 1_073_741_824;

/// Whether some car of a book on a day is one of another book: the one with these codes of the own book is, none is, or the search was
/// left when as many clauses had been learnt as the budget allows. The sets are cars of the own book that were found before; one that
/// is found is kept.
pub fn common_car(
    alloc: Global,
    own: &Book,
    other: &Book,
    day: Day,
    budget: u32,
    sets: &mut KeptSets,
) -> Result<RuleAnswer, Memory>
    requires some { 0 < budget }
    requires most { budget ≤ MOST_BUDGET }
    requires counted { All (IsCounted own.now) sets.old }
    ensures counted { All (IsCounted own.now) sets.new }
    ensures answer { IfOk result (IsCommonAnswer own.now other.now day budget) }
{
    own.codes().names_law();
    let rule = common_rule(alloc, own, other, day)?;
    let answer = answer_to(alloc, own, day, rule, budget, sets)?;
    Ok(answer)
}

// A formula that is true of just the cars of the own book that are cars of the other.
fn common_rule(alloc: Global, own: &Book, other: &Book, day: Day) -> Result<Formula, Memory>
    ensures common { IfOk result (IsCommonRule own.now other.now day) }
    ensures fits { IfOk result (RuleIsSmall (length own.now.codes)) }
{
    let _codes = own.codes();
    let questions = questions(alloc, own, other)?;
    let asks = asks(alloc, own, other, day, &questions)?;
    let rule = none_of(alloc, asks)?;
    small(rule)
}

// That no car is lost by any of these.
fn none_of(alloc: Global, asks: Vec<Ask>) -> Result<Formula, Memory>
    ensures { IfOk result (λ f. f ≡ none_rule (map (λ a. a.rule) asks.items)) }
{
    let mut any = Formula::no(alloc)?;
    for ask in asks {
        let Ask { question: _, rule } = ask;
        any = any.or(rule)?;
    }
    any.not()
}

// The formula, if it has no more nodes than can be asked.
fn small(rule: Formula) -> Result<Formula, Memory>
    ensures same { IfOk result (λ f. f ≡ rule) }
    ensures few { IfOk result (λ f. size f ≤ 2 ^ 30) }
{
    if node_count(&rule) > MOST_ASKED {
        return Err(Memory);
    }
    Ok(rule)
}

fn node_count(rule: &Formula) -> usize
    ensures { result ≡ size rule.now }
{
    rule.nodes().len()
}

// The answer to one rule.
fn answer_to(
    alloc: Global,
    own: &Book,
    day: Day,
    rule: Formula,
    budget: u32,
    sets: &mut KeptSets,
) -> Result<RuleAnswer, Memory>
    requires some { 0 < budget }
    requires most { budget ≤ MOST_BUDGET }
    requires fits { RuleIsSmall (length own.now.codes) rule }
    requires counted { All (IsCounted own.now) sets.old }
    ensures counted { All (IsCounted own.now) sets.new }
    ensures answer { IfOk result (IsAnswer own.now day budget rule) }
{
    let mut rules = Vec::new(alloc);
    rules.push(rule)?;
    let answers = ask_rules(alloc, own, day, &rules, budget, sets)?;
    let answer = only(answers);
    Ok(answer)
}

// The one answer.
#[tactic(auto, using(crate::proofs::CommonCarLaws::only_one))]
fn only(mut answers: Vec<RuleAnswer>) -> RuleAnswer
    requires { length answers.items ≡ 1 }
    ensures { result ≡ slice_index_or answers.items 0 NotMet }
{
    match answers.pop() {
        Some(answer) => answer,
        None => RuleAnswer::NotMet,
    }
}

//! The answers to rules.
ghost use Rattle.std.specs.Prelude.{◌≡◌, ◌<◌, ◌≤◌, ◌^◌, All, IfOk, drop, length};
ghost use Rattle.std.specs.List.{AllZip, range_with_len};
ghost use Rattle.pb_base.specs.InParts.{InParts};
ghost use Rattle.pb_base.specs.declared.limits.TheConstants.{MOST_BUDGET};
ghost use Rattle.inquiry.specs.Told.{IsTold};
ghost use Rattle.rules_met.specs.Met.{IsAnswer, IsCounted, RuleIsSmall};
ghost use Rattle.rules_met.specs.Source.{form, answer_by, answer_for, count};

use crate::answer::RuleAnswer;
use crate::source::DayRules;
use book_model::Book;
use inquiry::{KeptSets, Told, answer_all};
use pb_base::{Day, Formula, Memory};
use std::alloc::Global;

/// Asks of each of some rules whether some car of a day meets it. A search is left where it learns as many clauses as the budget
/// allows, over the clauses of the day's rules and of this rule alone. The sets are those that answered rules of other days, and
/// then of this one, too.
pub fn ask_rules(
    alloc: Global,
    book: &Book,
    day: Day,
    rules: &[Formula],
    budget: u32,
    sets: &mut KeptSets,
) -> Result<Vec<RuleAnswer>, Memory>
    requires small { All (RuleIsSmall (length book.now.codes)) rules.now }
    requires few { length rules.now < 2 ^ 32 }
    requires some { 0 < budget }
    requires most { budget ≤ MOST_BUDGET }
    requires counted { All (IsCounted book.now) sets.old }
    ensures counted { All (IsCounted book.now) sets.new }
    ensures answers { IfOk result (λ answers. AllZip (IsAnswer book.now day budget) rules.now answers.items) }
{
    book.codes();
    let source = DayRules { book, day, rules };
    let questions = places(alloc, rules.len() as u32)?;
    sets.keep_for(alloc, &source)?;
    let told = answer_all(alloc, &source, &questions, budget, sets)?;
    answers_of(alloc, &source, budget, &told)
}

// The places of so many rules.
fn places(alloc: Global, count: u32) -> Result<Vec<u32>, Memory>
    ensures { IfOk result (λ places. places.items ≡ range_with_len 0 count) }
{
    let mut places = Vec::new(alloc);
    for place in 0..count {
        places.push(place)?;
    }
    Ok(places)
}

// What is answered of each rule, where this is told of them.
fn answers_of(
    alloc: Global,
    source: &DayRules<'_>,
    budget: u32,
    told: &[Told<u32>],
) -> Result<Vec<RuleAnswer>, Memory>
    requires few { length source.now.rules.now < 2 ^ 32 }
    requires told { InParts (IsTold (form source.now.book.now source.now.day source.now.rules.now) budget)
        (range_with_len 0 (length source.now.rules.now)) told.now }
    ensures { IfOk result (λ answers.
        AllZip (IsAnswer source.now.book.now source.now.day budget) source.now.rules.now answers.items) }
{
    let mut answers = Vec::new(alloc);
    let mut next = 0;
    for place in 0..source.rules.len() {
        let answer = answer_for(alloc, told, next, place as u32)?;
        next += count(&answer);
        answers.push(answer)?;
    }
    Ok(answers)
}

// How much is told of a rule of which this is answered.
fn count(answer: &RuleAnswer) -> usize
    ensures { result ≡ count answer.now }
{
    match answer {
        RuleAnswer::NotMet => 0,
        RuleAnswer::Met(_) | RuleAnswer::Left => 1,
    }
}

// What is answered of the rule at a place, where this is told from `next` on of it and those behind it.
fn answer_for(
    alloc: Global,
    told: &[Told<u32>],
    next: usize,
    place: u32,
) -> Result<RuleAnswer, Memory>
    ensures { IfOk result (λ answer. answer ≡ answer_for (drop next told.now) place) }
{
    match told.get(next) {
        Some(own) => answer_by(alloc, own, place),
        None => Ok(RuleAnswer::NotMet),
    }
}

// The same by what is told next.
fn answer_by(alloc: Global, own: &Told<u32>, place: u32) -> Result<RuleAnswer, Memory>
    ensures { IfOk result (λ answer. answer ≡ answer_by own.now place) }
{
    match own {
        Told::Finding { question, set } => {
            if *question != place {
                return Ok(RuleAnswer::NotMet);
            }
            let set = set.copy(alloc)?;
            Ok(RuleAnswer::Met(set))
        }
        Told::Undecided {
            question,
            learnt: _,
        } => {
            if *question != place {
                return Ok(RuleAnswer::NotMet);
            }
            Ok(RuleAnswer::Left)
        }
    }
}

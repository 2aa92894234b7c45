//! The notes on the cars that another book loses.
ghost use Rattle.std.specs.Prelude.{◌≡◌, ◌++◌, ◌<◌, ◌≤◌, ◌^◌, [], All, IfOk, OnOk, length, map};
ghost use Rattle.pb_base.specs.declared.limits.TheConstants.{MOST_BUDGET};
ghost use Rattle.lost_cars.specs.Losses.{AreLosses, KeepsCars, QuestionFits, cause_of};
ghost use Rattle.lost_cars.specs.Noting.{notes_for, notes_by, AreAnswered};
ghost use Rattle.rules_met.specs.Met.{IsCounted, RuleIsSmall};

use crate::asks::{Ask, asks};
use crate::note::{Cause, LossNote};
use crate::question::Question;
use crate::questions::questions;
use book_model::Book;
use inquiry::KeptSets;
use pb_base::{Day, Formula, Memory};
use rules_met::{RuleAnswer, ask_rules};
use std::alloc::Global;

/// The cars of a book on a day that another book loses: for each of its supplementing rules, each of its constructibility rules and
/// each code of the own book, in record order, a car that is lost by it, or a note that the search was left when as many clauses had
/// been learnt as the budget allows, or nothing where no car is lost by it. The sets are cars of the own book that were found
/// before; those that are found are kept.
pub fn lost_cars(
    alloc: Global,
    own: &Book,
    other: &Book,
    day: Day,
    budget: u32,
    sets: &mut KeptSets,
) -> Result<Vec<LossNote>, Memory>
    requires some { 0 < budget }
    requires most { budget ≤ MOST_BUDGET }
    requires counted { All (IsCounted own.now) sets.old }
    ensures counted { All (IsCounted own.now) sets.new }
    ensures notes { IfOk result (λ notes. AreLosses own.now other.now day budget notes.items) }
    ensures keeps { IfOk result (λ notes. notes.items ≡ [] → KeepsCars own.now other.now day) }
{
    own.codes().names_law();
    let _others = other.codes();
    let questions = questions(alloc, own, other)?;
    let asks = asks(alloc, own, other, day, &questions)?;
    let parted = split(alloc, asks)?;
    let asked = &parted.questions;
    let rules = &parted.rules;
    let notes = answered(alloc, own, other, day, budget, asked, rules, sets)?;
    Ok(notes)
}

// The notes on questions with these formulas.
fn answered(
    alloc: Global,
    own: &Book,
    other: &Book,
    day: Day,
    budget: u32,
    questions: &[Question],
    rules: &[Formula],
    sets: &mut KeptSets,
) -> Result<Vec<LossNote>, Memory>
    requires some { 0 < budget }
    requires most { budget ≤ MOST_BUDGET }
    requires sets { All (IsCounted own.now) sets.old }
    requires fit { All (QuestionFits own.now other.now) questions.now }
    requires rules { All (RuleIsSmall (length own.now.codes)) rules.now }
    requires few { length rules.now < 2 ^ 32 }
    requires counted { length questions.now ≡ length rules.now }
    ensures sets { All (IsCounted own.now) sets.new }
    ensures notes { IfOk result (λ notes. AreAnswered own.now other.now day budget questions.now rules.now notes.items) }
{
    let answers = ask_rules(alloc, own, day, rules, budget, sets)?;
    let notes = notes_of(alloc, own, other, questions, &answers)?;
    Ok(notes)
}

// The questions and their formulas.
#[derive(Drop)]
struct Parted {
    questions: Vec<Question>,
    rules: Vec<Formula>,
}

fn split(alloc: Global, asks: Vec<Ask>) -> Result<Parted, Memory>
    ensures questions { IfOk result (λ s. s.questions.items ≡ map (λ a. a.question) asks.items) }
    ensures rules { IfOk result (λ s. s.rules.items ≡ map (λ a. a.rule) asks.items) }
{
    let mut parted = Parted {
        questions: Vec::new(alloc),
        rules: Vec::new(alloc),
    };
    for ask in asks {
        let Ask { question, rule } = ask;
        parted.questions.push(question)?;
        parted.rules.push(rule)?;
    }
    Ok(parted)
}

// The notes on questions that are answered like this.
fn notes_of(
    alloc: Global,
    own: &Book,
    other: &Book,
    questions: &[Question],
    answers: &[RuleAnswer],
) -> Result<Vec<LossNote>, Memory>
    requires fit { All (QuestionFits own.now other.now) questions.now }
    requires counted { length answers.now ≡ length questions.now }
    ensures { IfOk result (λ notes. notes.items ≡ notes_by own.now other.now questions.now answers.now) }
{
    let mut notes = Vec::new(alloc);
    for at in 0..questions.len() {
        put(alloc, &mut notes, own, other, questions[at], &answers[at])?;
    }
    Ok(notes)
}

// Puts what is told of a question behind the others.
fn put(
    alloc: Global,
    notes: &mut Vec<LossNote>,
    own: &Book,
    other: &Book,
    question: Question,
    answer: &RuleAnswer,
) -> Result<(), Memory>
    requires { QuestionFits own.now other.now question }
    ensures { OnOk result (notes.new.items
        ≡ notes.old.items ++ notes_for own.now other.now question answer.now) }
{
    let cause = cause_of(own, other, question);
    match answer {
        RuleAnswer::Met(car) => {
            let car = car.copy(alloc)?;
            notes.push(LossNote::Lost { cause, car })?;
        }
        RuleAnswer::NotMet => {}
        RuleAnswer::Left => notes.push(LossNote::Undecided { cause })?,
    }
    Ok(())
}

// The rule's id, or the code's name.
fn cause_of(own: &Book, other: &Book, question: Question) -> Cause
    requires { QuestionFits own.now other.now question }
    ensures { result ≡ cause_of own.now other.now question }
{
    match question {
        Question::Fires(place) => Cause::Entry(other.supplements()[place as usize].id),
        Question::Breaks(place) => Cause::Entry(other.constructs()[place as usize].id),
        Question::Lacks(place) => Cause::Code(*own.codes().name_of(place)),
    }
}

//! The questions that have to be asked, with their formulas.
ghost use Rattle.std.specs.Prelude.{◌≡◌, ◌<◌, ◌++◌, All, IfOk, OnOk, Some, is_none, length, slice_get};
ghost use Rattle.pb_base.specs.Names.{place_in};
ghost use Rattle.std.specs.Option.{option_map, option_to_list};
ghost use Rattle.lost_cars.specs.Asks.{ArePut, IsRuled, ask_with};
ghost use Rattle.lost_cars.specs.Losses.{QuestionFits};
ghost use Rattle.lost_cars.specs.declared.question.Question.TheVariants as kind;

use crate::question::Question;
use crate::same::{has_construct, has_supplement};
use crate::violation::{firing, unmet};
use book_model::{Book, Construct, Supplement, active};
use pb_base::{CodeName, Day, Formula, Memory};
use std::alloc::Global;

/// A question, with the formula that a car is lost by it.
#[derive(Drop)]
pub(crate) struct Ask {
    pub(crate) question: Question,
    pub(crate) rule: Formula,
}

/// Those of the questions that have to be asked, in order.
pub(crate) fn asks(
    alloc: Global,
    own: &Book,
    other: &Book,
    day: Day,
    questions: &[Question],
) -> Result<Vec<Ask>, Memory>
    requires { All (QuestionFits own.now other.now) questions.now }
    ensures { IfOk result (λ asks. ArePut own.now other.now day questions.now asks.items) }
{
    let mut asks = Vec::new(alloc);
    for question in questions {
        let rule = rule_of(alloc, own, other, day, *question)?;
        put(&mut asks, *question, rule)?;
    }
    Ok(asks)
}

// Puts a question behind the others, if it has to be asked.
fn put(asks: &mut Vec<Ask>, question: Question, rule: Option<Formula>) -> Result<(), Memory>
    ensures { let own = option_map (ask_with question) rule in
        OnOk result (asks.new.items ≡ asks.old.items ++ option_to_list own) }
{
    match rule {
        Some(rule) => asks.push(Ask { question, rule })?,
        None => {}
    }
    Ok(())
}

// The formula of a question, if it has to be asked.
fn rule_of(
    alloc: Global,
    own: &Book,
    other: &Book,
    day: Day,
    question: Question,
) -> Result<Option<Formula>, Memory>
    requires { QuestionFits own.now other.now question }
    ensures { IfOk result (IsRuled own.now other.now day question) }
{
    match question {
        Question::Fires(place) => firing_rule(alloc, own, other, day, place),
        Question::Breaks(place) => breaking_rule(alloc, own, other, day, place),
        Question::Lacks(place) => lacking_rule(alloc, own, other, day, place),
    }
}

#[tactic(auto, using(crate::proofs::AskLaws::passive_supplement, crate::proofs::AskLaws::same_supplement, crate::proofs::AskLaws::ask_firing))]
fn firing_rule(
    alloc: Global,
    own: &Book,
    other: &Book,
    day: Day,
    place: u32,
) -> Result<Option<Formula>, Memory>
    requires { place < length other.now.supplements }
    ensures { IfOk result (IsRuled own.now other.now day (kind.Fires place)) }
{
    let _codes = other.codes();
    let supplement = supplement_at(other, place);
    if !active(supplement.from, supplement.until, day) {
        return Ok(None);
    }
    if has_supplement(own, other, day, supplement, place as usize) {
        return Ok(None);
    }
    let rule = firing(alloc, own, other, supplement)?;
    Ok(Some(rule))
}

#[tactic(auto, using(crate::proofs::AskLaws::read_there))]
fn supplement_at(book: &Book, place: u32) -> &Supplement
    requires { place < length book.now.supplements }
    ensures { slice_get book.now.supplements place ≡ Some result.now }
{
    &book.supplements()[place as usize]
}

#[tactic(auto, using(crate::proofs::AskLaws::passive_construct, crate::proofs::AskLaws::same_construct, crate::proofs::AskLaws::ask_unmet))]
fn breaking_rule(
    alloc: Global,
    own: &Book,
    other: &Book,
    day: Day,
    place: u32,
) -> Result<Option<Formula>, Memory>
    requires { place < length other.now.constructs }
    ensures { IfOk result (IsRuled own.now other.now day (kind.Breaks place)) }
{
    let _codes = other.codes();
    let construct = construct_at(other, place);
    if !active(construct.from, construct.until, day) {
        return Ok(None);
    }
    if has_construct(own, other, day, construct, place as usize) {
        return Ok(None);
    }
    let rule = unmet(alloc, own, other, &construct.demand)?;
    Ok(Some(rule))
}

#[tactic(auto, using(crate::proofs::AskLaws::read_there))]
fn construct_at(book: &Book, place: u32) -> &Construct
    requires { place < length book.now.constructs }
    ensures { slice_get book.now.constructs place ≡ Some result.now }
{
    &book.constructs()[place as usize]
}

#[tactic(auto, using(crate::proofs::AskLaws::code_there, crate::proofs::AskLaws::ask_missed))]
fn lacking_rule(
    alloc: Global,
    own: &Book,
    other: &Book,
    day: Day,
    place: u32,
) -> Result<Option<Formula>, Memory>
    requires { place < length own.now.codes }
    ensures { IfOk result (IsRuled own.now other.now day (kind.Lacks place)) }
{
    let name = code_at(own, place);
    if !lacks(other, name) {
        return Ok(None);
    }
    let rule = Formula::code(alloc, place)?;
    Ok(Some(rule))
}

fn code_at(book: &Book, place: u32) -> &CodeName
    requires { place < length book.now.codes }
    ensures { slice_get book.now.codes place ≡ Some result.now }
{
    book.codes().name_of(place)
}

// Whether a book has no code of this name.
fn lacks(book: &Book, name: &CodeName) -> bool
    ensures { result ≡ is_none (place_in book.now.codes name.now) }
{
    book.codes().place_of(name).is_none()
}

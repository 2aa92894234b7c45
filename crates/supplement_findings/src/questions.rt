//! The questions of a book and of its slices.
ghost use Rattle.std.specs.Prelude.{◌≡◌, ◌+◌, ◌++◌, ◌<◌, ◌^◌, IfOk, OnOk, length, suc};
ghost use Rattle.supplement_findings.specs.Questions.{all_questions, breaks_from, swaps_from, swaps_with_later, is_put, questions, QuestionFits};

use crate::occurs::is_asked;
use crate::question::SupplementQuestion;
use book_model::{Book, Supplement, active};
use pb_base::{Day, Memory};
use std::alloc::Global;

/// The questions of all supplementing rules and pairs, whatever their days.
pub(crate) fn all_questions(alloc: Global, book: &Book) -> Result<Vec<SupplementQuestion>, Memory>
    ensures { IfOk result (λ qs. qs.items ≡ all_questions book.now) }
{
    let rules = book.supplements();
    let mut questions = Vec::new(alloc);
    push_breaks(&mut questions, rules)?;
    push_swaps(&mut questions, rules)?;
    Ok(questions)
}

/// Those of one rule each.
pub(crate) fn push_breaks(
    questions: &mut Vec<SupplementQuestion>,
    rules: &[Supplement],
) -> Result<(), Memory>
    requires { length rules.now < 2 ^ 32 }
    ensures { OnOk result (questions.new.items ≡ questions.old.items ++ breaks_from 0 rules.now) }
{
    for (place, _) in rules.iter().enumerate() {
        questions.push(SupplementQuestion::Breaks(place as u32))?;
    }
    Ok(())
}

fn push_swaps(questions: &mut Vec<SupplementQuestion>, rules: &[Supplement]) -> Result<(), Memory>
    requires { length rules.now < 2 ^ 32 }
    ensures { OnOk result (questions.new.items ≡ questions.old.items ++ swaps_from 0 rules.now) }
{
    for (place, rule) in rules.iter().enumerate() {
        push_swaps_with(questions, place as u32, rule, &rules[place + 1..])?;
    }
    Ok(())
}

/// Those of a rule with the later ones, of which the first has the next place.
pub(crate) fn push_swaps_with(
    questions: &mut Vec<SupplementQuestion>,
    place: u32,
    rule: &Supplement,
    later: &[Supplement],
) -> Result<(), Memory>
    requires { place + 1 + length later.now < 2 ^ 32 }
    ensures { OnOk result (questions.new.items
        ≡ questions.old.items ++ swaps_with_later place rule.now (suc place) later.now) }
{
    for (behind, other) in later.iter().enumerate() {
        if is_asked(rule, other) {
            questions.push(SupplementQuestion::Swaps {
                first: place,
                second: place + 1 + behind as u32,
            })?;
        }
    }
    Ok(())
}

/// Whether the rules of a question are active on a day.
pub(crate) fn is_put(book: &Book, day: Day, question: SupplementQuestion) -> bool
    requires { QuestionFits book.now question }
    ensures { result ≡ is_put book.now day question }
{
    match question {
        SupplementQuestion::Breaks(place) => is_active(book, day, place),
        SupplementQuestion::Swaps { first, second } => {
            is_active(book, day, first) && is_active(book, day, second)
        }
    }
}

fn is_active(book: &Book, day: Day, place: u32) -> bool
    requires { place < length book.now.supplements }
    ensures { result ≡ is_put book.now day (SupplementQuestion.Breaks place) }
{
    let rule = &book.supplements()[place as usize];
    active(rule.from, rule.until, day)
}

/// The questions of a day, out of those of all days.
#[tactic(auto, using(crate::proofs::QuestionLaws::fits_at))]
pub(crate) fn questions_on(
    alloc: Global,
    book: &Book,
    day: Day,
    all: &[SupplementQuestion],
) -> Result<Vec<SupplementQuestion>, Memory>
    requires all { all.now ≡ all_questions book.now }
    ensures { IfOk result (λ qs. qs.items ≡ questions book.now day) }
{
    let mut put = Vec::new(alloc);
    for question in all {
        if is_put(book, day, *question) {
            put.push(*question)?;
        }
    }
    Ok(put)
}

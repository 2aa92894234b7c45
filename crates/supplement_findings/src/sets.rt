//! What sets show.
ghost use Rattle.std.specs.Prelude.{◌≡◌, ◌<◌, All, IfOk, length, true};
ghost use Rattle.std.specs.List.{list_any};
ghost use Rattle.book_model.specs.Book.{SupplementFits, ConstructFits};
ghost use Rattle.book_model.specs.Good.{breaks, is_constructible};
ghost use Rattle.supplement_findings.specs.Answering.{AreTouched, IsCounted};
ghost use Rattle.supplement_findings.specs.Ends.{breaks_with, swaps_with, with_code};
ghost use Rattle.supplement_findings.specs.Questions.{meets, QuestionFits};
ghost use Rattle.supplement_findings.specs.Touching.{touched_from, construct_at};

use crate::question::SupplementQuestion;
use crate::touched::touched_at;
use book_model::{Book, Construct, Supplement, breaks, fires};
use pb_base::{CodeSet, Day, Memory, Sequence};
use std::alloc::Global;

/// Whether a set is constructible on a day.
pub(crate) fn is_built(book: &Book, day: Day, set: &CodeSet) -> bool
    requires { IsCounted book.now set.now }
    ensures { result ≡ is_constructible book.now day set.now }
{
    !any_broken(book.constructs(), day, set)
}

fn any_broken(constructs: &[Construct], day: Day, set: &CodeSet) -> bool
    requires { All (ConstructFits (length set.now)) constructs.now }
    ensures { result ≡ list_any (breaks day set.now) constructs.now }
{
    constructs.iter().any(|c| breaks(c, day, set))
}

/// Whether a constructible set shows what the question asks for.
pub(crate) fn meets(
    alloc: Global,
    book: &Book,
    day: Day,
    set: &CodeSet,
    question: SupplementQuestion,
    touched: &[Sequence<u32>],
) -> Result<bool, Memory>
    requires fits { QuestionFits book.now question }
    requires touched { AreTouched (length book.now.codes) book.now.constructs touched.now }
    requires counted { IsCounted book.now set.now }
    requires built { is_constructible book.now day set.now ≡ true }
    ensures { IfOk result (λ met. met ≡ meets book.now day question set.now) }
{
    let rules = book.supplements();
    match question {
        SupplementQuestion::Breaks(place) => {
            let rule = &rules[place as usize];
            let touched = touched_at(book, touched, rule.code);
            is_broken(alloc, book, day, set, rule, touched)
        }
        SupplementQuestion::Swaps { first, second } => {
            is_swapped(
                alloc,
                book,
                day,
                set,
                &rules[first as usize],
                &rules[second as usize],
            )
        }
    }
}

#[tactic(auto, using(crate::proofs::TouchedLaws::broken_at, crate::proofs::TouchedLaws::all_within))]
fn is_broken(
    alloc: Global,
    book: &Book,
    day: Day,
    set: &CodeSet,
    rule: &Supplement,
    touched: &[u32],
) -> Result<bool, Memory>
    requires counted { IsCounted book.now set.now }
    requires built { is_constructible book.now day set.now ≡ true }
    requires fits { SupplementFits (length set.now) rule.now }
    requires touched { touched.now ≡ touched_from 0 rule.now.code book.now.constructs }
    ensures { IfOk result (λ met. met ≡ breaks_with book.now day rule.now set.now) }
{
    if !fires(rule, day, set) {
        return Ok(false);
    }
    let larger = with_code(alloc, set, rule.code)?;
    Ok(any_breaks(book, touched, day, &larger))
}

fn is_swapped(
    alloc: Global,
    book: &Book,
    day: Day,
    set: &CodeSet,
    first: &Supplement,
    second: &Supplement,
) -> Result<bool, Memory>
    requires counted { IsCounted book.now set.now }
    requires built { is_constructible book.now day set.now ≡ true }
    requires first { SupplementFits (length set.now) first.now }
    requires second { SupplementFits (length set.now) second.now }
    ensures { IfOk result (λ met. met ≡ swaps_with book.now day first.now second.now set.now) }
{
    if !fires(first, day, set) || !fires(second, day, set) || first.code == second.code {
        return Ok(false);
    }
    let with_first = with_code(alloc, set, first.code)?;
    let with_second = with_code(alloc, set, second.code)?;
    Ok(!second.rule.holds(&with_first) || !first.rule.holds(&with_second))
}

// The set with one more code.
fn with_code(alloc: Global, set: &CodeSet, code: u32) -> Result<CodeSet, Memory>
    requires { code < length set.now }
    ensures { IfOk result (λ x. x ≡ with_code code set.now) }
{
    let mut larger = set.copy(alloc)?;
    larger.with(code);
    Ok(larger)
}

// Whether the set breaks one of the constructibility rules at these places.
fn any_breaks(book: &Book, places: &[u32], day: Day, set: &CodeSet) -> bool
    requires counted { length set.now ≡ length book.now.codes }
    requires within { All (λ p. p < length book.now.constructs) places.now }
    ensures { result ≡ list_any (λ p. breaks day set.now (construct_at book.now p)) places.now }
{
    let constructs = book.constructs();
    for place in places {
        if breaks(&constructs[*place as usize], day, set) {
            return true;
        }
    }
    false
}

//! The questions of a slice behind Void, in order.
ghost use Rattle.std.specs.Prelude.{◌≡◌, ◌++◌, ◌<◌, IfOk, OnOk, length, map};
ghost use Rattle.std.specs.List.{flat_map};
ghost use Rattle.clausify.specs.Choices.{active_variants, choices};
ghost use Rattle.clausify.specs.Pairs.{pairs};
ghost use Rattle.clausify.specs.Questions.{choice_questions, code_questions_from, uncovered_question};
ghost use Rattle.findings.specs.Core.{later_questions};

use book_model::{Book, active};
use clausify::{Question, is_active};
use pb_base::{CodeTable, Day, Memory};
use std::alloc::Global;

/// The questions of a slice with this first day, behind Void.
pub(crate) fn later_questions(alloc: Global, book: &Book, day: Day) -> Result<Vec<Question>, Memory>
    ensures { IfOk result (λ qs. qs.items ≡ later_questions book.now day) }
{
    let mut questions = Vec::new(alloc);
    put_codes(&mut questions, book.codes())?;
    put_choices(alloc, &mut questions, book, day)?;
    Ok(questions)
}

// The two of each code.
fn put_codes(questions: &mut Vec<Question>, codes: &CodeTable) -> Result<(), Memory>
    ensures { OnOk result (questions.new.items ≡ questions.old.items ++ code_questions_from 0 codes.now) }
{
    for code in 0..codes.len() {
        questions.push(Question::Necessary(code))?;
        questions.push(Question::Inadmissible(code))?;
    }
    Ok(())
}

// Those of each active position.
fn put_choices(
    alloc: Global,
    questions: &mut Vec<Question>,
    book: &Book,
    day: Day,
) -> Result<(), Memory>
    ensures { OnOk result (questions.new.items
        ≡ questions.old.items ++ flat_map choice_questions (choices book.now day)) }
{
    for (place, position) in book.positions().iter().enumerate() {
        if active(position.from, position.until, day) {
            let variants = variants_on(alloc, book, day, place as u32)?;
            put_choice(questions, place as u32, position.mandatory, &variants)?;
        }
    }
    Ok(())
}

// The variants of a position that are active on a day.
fn variants_on(alloc: Global, book: &Book, day: Day, position: u32) -> Result<Vec<u32>, Memory>
    requires { position < length book.now.positions }
    ensures { IfOk result (λ vs. vs.items ≡ active_variants book.now day position) }
{
    let mut variants = Vec::new(alloc);
    for variant in book.variants_of(position) {
        if is_active(book, day, *variant) {
            variants.push(*variant)?;
        }
    }
    Ok(variants)
}

// Those of a position with these active variants.
fn put_choice(
    questions: &mut Vec<Question>,
    position: u32,
    mandatory: bool,
    variants: &[u32],
) -> Result<(), Memory>
    ensures { OnOk result (questions.new.items ≡ questions.old.items
        ++ choice_questions (record { position = position; mandatory = mandatory; variants = variants.now })) }
{
    put_variants(questions, variants)?;
    put_pairs(questions, position, variants)?;
    put_uncovered(questions, position, mandatory)?;
    Ok(())
}

// That of each variant.
fn put_variants(questions: &mut Vec<Question>, variants: &[u32]) -> Result<(), Memory>
    ensures { OnOk result
        (questions.new.items ≡ questions.old.items ++ map Question.Superfluous variants.now) }
{
    for variant in variants {
        questions.push(Question::Superfluous(*variant))?;
    }
    Ok(())
}

// That of each pair of variants.
fn put_pairs(questions: &mut Vec<Question>, position: u32, variants: &[u32]) -> Result<(), Memory>
    ensures { OnOk result (questions.new.items ≡ questions.old.items
        ++ map (λ p. Question.Ambiguous position p.0 p.1) (pairs variants.now)) }
{
    for (place, first) in variants.iter().enumerate() {
        put_with(questions, position, *first, &variants[place + 1..])?;
    }
    Ok(())
}

// Those of a variant with each of these.
fn put_with(
    questions: &mut Vec<Question>,
    position: u32,
    first: u32,
    others: &[u32],
) -> Result<(), Memory>
    ensures { OnOk result (questions.new.items ≡ questions.old.items
        ++ map (λ y. Question.Ambiguous position first y) others.now) }
{
    for second in others {
        questions.push(Question::Ambiguous {
            position,
            first,
            second: *second,
        })?;
    }
    Ok(())
}

// That of a mandatory position.
fn put_uncovered(
    questions: &mut Vec<Question>,
    position: u32,
    mandatory: bool,
) -> Result<(), Memory>
    ensures { OnOk result
        (questions.new.items ≡ questions.old.items ++ uncovered_question mandatory position) }
{
    if !mandatory {
        return Ok(());
    }
    questions.push(Question::Uncovered(position))?;
    Ok(())
}

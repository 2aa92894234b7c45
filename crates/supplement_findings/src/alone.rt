//! The clauses of one question alone.
ghost use Rattle.std.specs.Prelude.{◌≡◌, ◌+◌, ◌^◌, ◌<◌, ◌∷◌, [], All, IfOk, OnOk, length, map};
ghost use Rattle.clausify.specs.Encoding.{EncodesItems};
ghost use Rattle.clausify.specs.Formulas.{literals_from};
ghost use Rattle.clausify.specs.Items.{free_item, variables_of};
ghost use Rattle.supplement_findings.specs.Answering.{AreTouched, IsSource};
ghost use Rattle.supplement_findings.specs.Clauses.{breaks_own, swaps_own, own, own_variables, breaks_lits, swaps_lits, question_lits, question_clauses, question_goal, question_variables};
ghost use Rattle.supplement_findings.specs.Questions.{QuestionFits};
ghost use Rattle.supplement_findings.specs.Touching.{afters, afters_at, touched_from};

use crate::after::after;
use crate::goals::add_goal;
use crate::lits::QuestionLits;
use crate::question::SupplementQuestion;
use crate::touched::touched_at;
use book_model::{Book, Supplement, active};
use clause_pool::Lit;
use clausify::{Encoded, Encoder, add_constructs};
use inquiry::Coded;
use pb_base::{Day, Memory, Present, Sequence};
use std::alloc::Global;

/// The clauses of a question alone.
pub(crate) fn coded_alone(
    alloc: Global,
    book: &Book,
    day: Day,
    question: SupplementQuestion,
    touched: &[Sequence<u32>],
) -> Result<Coded, Memory>
    requires fits { QuestionFits book.now question }
    requires touched { AreTouched (length book.now.codes) book.now.constructs touched.now }
    requires room { question_variables book.now day question < 2 ^ 32 }
    ensures clauses { IfOk result (λ c. c.pool.clauses ≡ question_clauses book.now day question) }
    ensures vars { IfOk result (λ c. c.vars ≡ question_variables book.now day question) }
    ensures goals { IfOk result (λ c. c.goals.items ≡ question_goal book.now day question ∷ []) }
{
    let mut encoder = Encoder::new(alloc, book.codes().len())?;
    let mut starts = Vec::new(alloc);
    add_constructs(&mut encoder, &mut starts, book, day)?;
    let lits = add_own(alloc, &mut encoder, book, day, question, touched)?;
    let Encoded {
        mut pool,
        vars: goal,
        gates: _,
    } = encoder.into_parts();
    add_goal(alloc, &mut pool, goal, &lits)?;
    let mut goals = Vec::new(alloc);
    goals.push(Lit::new(goal, true))?;
    Ok(Coded {
        pool,
        vars: goal + 1,
        goals,
    })
}

// The formulas of a question alone.
fn add_own(
    alloc: Global,
    encoder: &mut Encoder,
    book: &Book,
    day: Day,
    question: SupplementQuestion,
    touched: &[Sequence<u32>],
) -> Result<QuestionLits, Memory>
    requires touched { AreTouched (length book.now.codes) book.now.constructs touched.now }
    requires truth { encoder.old.truth ≡ length book.now.codes }
    requires fits { QuestionFits book.now question }
    requires room { encoder.old.next + own_variables book.now day question < 2 ^ 32 }
    ensures made { let items = map free_item (own book.now day question) in
        OnOk result (EncodesItems encoder.old encoder.new items) }
    ensures lits { IfOk result (λ lits. lits ≡ question_lits book.now day encoder.old.next question) }
{
    let rules = book.supplements();
    match question {
        SupplementQuestion::Breaks(place) => {
            let rule = &rules[place as usize];
            let touched = touched_at(book, touched, rule.code);
            add_breaks(alloc, encoder, book, day, rule, touched)
        }
        SupplementQuestion::Swaps { first, second } => {
            add_swaps(
                alloc,
                encoder,
                &rules[first as usize],
                &rules[second as usize],
            )
        }
    }
}

// The rule's formula, and what the constructibility rules ask of the set with its code.
#[tactic(auto, using(crate::proofs::TouchedLaws::afters_touched, crate::proofs::TouchedLaws::all_within))]
fn add_breaks(
    alloc: Global,
    encoder: &mut Encoder,
    book: &Book,
    day: Day,
    rule: &Supplement,
    touched: &[u32],
) -> Result<QuestionLits, Memory>
    requires touched { touched.now ≡ touched_from 0 rule.now.code book.now.constructs }
    requires truth { encoder.old.truth ≡ length book.now.codes }
    requires room { let items = map free_item (breaks_own book.now day rule.now) in
        encoder.old.next + variables_of items < 2 ^ 32 }
    ensures made { let items = map free_item (breaks_own book.now day rule.now) in
        OnOk result (EncodesItems encoder.old encoder.new items) }
    ensures lits { IfOk result (λ lits. lits ≡ breaks_lits book.now day encoder.old.next rule.now) }
{
    let literal = encoder.literal(&rule.rule)?;
    let afterwards = add_afters(alloc, encoder, book, day, rule.code, touched)?;
    Ok(QuestionLits::BreaksLits {
        rule: literal,
        added: rule.code,
        afterwards: Sequence::of(afterwards),
    })
}

// What the constructibility rules ask of a set with a code.
fn add_afters(
    alloc: Global,
    encoder: &mut Encoder,
    book: &Book,
    day: Day,
    added: u32,
    touched: &[u32],
) -> Result<Vec<Lit>, Memory>
    requires touched { afters_at book.now day added touched.now ≡ afters book.now day added }
    requires within { All (λ p. p < length book.now.constructs) touched.now }
    requires room { let items = map free_item (afters book.now day added) in
        encoder.old.next + variables_of items < 2 ^ 32 }
    ensures made { let items = map free_item (afters book.now day added) in
        OnOk result (EncodesItems encoder.old encoder.new items) }
    ensures lits { IfOk result (λ lits. lits.items
        ≡ literals_from encoder.old.truth encoder.old.next (afters book.now day added)) }
{
    let constructs = book.constructs();
    let mut lits = Vec::new(alloc);
    for place in touched {
        let construct = &constructs[*place as usize];
        if active(construct.from, construct.until, day) {
            let asked = after(alloc, added, &construct.demand)?;
            lits.push(encoder.literal(&asked)?)?;
        }
    }
    Ok(lits)
}

// Both rules' formulas, and each with the code of the other read as present.
fn add_swaps(
    alloc: Global,
    encoder: &mut Encoder,
    first: &Supplement,
    second: &Supplement,
) -> Result<QuestionLits, Memory>
    requires room { let items = map free_item (swaps_own first.now second.now) in
        encoder.old.next + variables_of items < 2 ^ 32 }
    ensures made { let items = map free_item (swaps_own first.now second.now) in
        OnOk result (EncodesItems encoder.old encoder.new items) }
    ensures lits { IfOk result (λ lits. lits
        ≡ swaps_lits encoder.old.truth encoder.old.next first.now second.now) }
{
    let second_read = second.rule.with_leaves(alloc, &Present(first.code))?;
    let first_read = first.rule.with_leaves(alloc, &Present(second.code))?;
    let first_literal = encoder.literal(&first.rule)?;
    let second_literal = encoder.literal(&second.rule)?;
    let second_afterwards = encoder.literal(&second_read)?;
    let first_afterwards = encoder.literal(&first_read)?;
    Ok(QuestionLits::SwapsLits {
        first: first_literal,
        first_added: first.code,
        second: second_literal,
        second_added: second.code,
        second_afterwards,
        first_afterwards,
    })
}

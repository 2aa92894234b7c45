//! The clauses of several questions, which share what is asked of the sets with some codes.
ghost use Rattle.std.specs.Prelude.{◌≡◌, ◌+◌, ◌^◌, ◌<◌, ◌∷◌, [], Some, All, IfOk, OnOk, length, map, if◌then◌else◌};
ghost use Rattle.clausify.specs.Items.{free_item};
ghost use Rattle.supplement_findings.specs.Answering.{IsSource, goals_of};
ghost use Rattle.supplement_findings.specs.Clauses.{all_other, all_other_lits, and_rest, literal_with, other_lits, other_own, shared_lits, shared_rules, swaps_own, together_clauses, together_start, together_swaps, together_variables, unbroken, unbroken_rules};
ghost use Rattle.supplement_findings.specs.Questions.{QuestionFits};
ghost use Rattle.supplement_findings.specs.Touching.{after, construct_at, is_active_rule, touched_from};
ghost use Rattle.wide_clauses.specs.Encoding.{WidensItems};
ghost use Rattle.wide_clauses.specs.WideItems.{taken_by, wide_literals};

use crate::after::after;
use crate::goals::{add_goals, goals_from};
use crate::lits::QuestionLits;
use crate::question::SupplementQuestion;
use crate::touched::touched_at;
use book_model::{Book, Supplement, active};
use clause_pool::Lit;
use inquiry::Coded;
use pb_base::{Day, Formula, Memory, Present, Sequence};
use std::alloc::Global;
use wide_clauses::{WideEncoder, add_wide_constructs};

/// The clauses of some questions on a day.
pub(crate) fn coded_together(
    alloc: Global,
    book: &Book,
    day: Day,
    codes: &[u32],
    questions: &[SupplementQuestion],
    touched: &[Sequence<u32>],
) -> Result<Coded, Memory>
    requires fit { All (QuestionFits book.now) questions.now }
    requires source { IsSource book.now touched.now codes.now }
    requires room { together_variables book.now day codes.now questions.now < 2 ^ 32 }
    ensures clauses { IfOk result (λ c. c.pool.clauses ≡ together_clauses book.now day codes.now questions.now) }
    ensures vars { IfOk result (λ c. c.vars ≡ together_variables book.now day codes.now questions.now) }
    ensures goals { IfOk result (λ c. c.goals.items
        ≡ goals_of (together_start book.now day codes.now questions.now) questions.now) }
{
    let mut encoder = WideEncoder::new(alloc, book.codes().len())?;
    add_wide_constructs(&mut encoder, book, day)?;
    let known = add_unbroken(alloc, &mut encoder, book, day, codes, touched)?;
    let lits = add_all_other(alloc, &mut encoder, book, codes, &known, questions)?;
    let WideEncoder {
        mut pool,
        next: first_goal,
        ..
    } = encoder;
    add_goals(alloc, &mut pool, first_goal, &lits)?;
    let goals = goals_from(alloc, first_goal, questions)?;
    let vars = first_goal + questions.len() as u32;
    Ok(Coded { pool, vars, goals })
}

// What the constructibility rules ask of the sets with each of some codes.
fn add_unbroken(
    alloc: Global,
    encoder: &mut WideEncoder,
    book: &Book,
    day: Day,
    codes: &[u32],
    touched: &[Sequence<u32>],
) -> Result<Vec<Lit>, Memory>
    requires source { IsSource book.now touched.now codes.now }
    requires truth { encoder.old.truth ≡ length book.now.codes }
    requires room { let items = map free_item (unbroken_rules book.now day codes.now) in
        encoder.old.next + taken_by items < 2 ^ 32 }
    ensures made { let items = map free_item (unbroken_rules book.now day codes.now) in
        OnOk result (WidensItems encoder.old encoder.new items) }
    ensures lits { IfOk result (λ lits. lits.items
        ≡ wide_literals encoder.old.truth encoder.old.next (unbroken_rules book.now day codes.now)) }
{
    let mut lits = Vec::new(alloc);
    for code in codes {
        let asked = unbroken(alloc, book, day, *code, touched_at(book, touched, *code))?;
        lits.push(encoder.literal(&asked)?)?;
    }
    Ok(lits)
}

// The formula that a set with the code breaks none of the constructibility rules that the code touches.
#[tactic(auto, using(crate::proofs::TouchedLaws::afters_touched, crate::proofs::TouchedLaws::all_within))]
fn unbroken(
    alloc: Global,
    book: &Book,
    day: Day,
    added: u32,
    touched: &[u32],
) -> Result<Formula, Memory>
    requires touched { touched.now ≡ touched_from 0 added book.now.constructs }
    ensures { IfOk result (λ f. f ≡ unbroken book.now day added) }
{
    let mut all = None;
    for place in touched {
        all = and_active(alloc, book, day, added, all, *place)?;
    }
    match all {
        Some(formula) => Ok(formula),
        None => Formula::yes(alloc),
    }
}

// The formula so far, and what the rule at a place asks of the set with the code, if it is active.
fn and_active(
    alloc: Global,
    book: &Book,
    day: Day,
    added: u32,
    so_far: Option<Formula>,
    place: u32,
) -> Result<Option<Formula>, Memory>
    requires { place < length book.now.constructs }
    ensures { let construct = construct_at book.now place in IfOk result (λ all. all
        ≡ (if is_active_rule day construct then Some (and_rest so_far (after added construct.demand ∷ []))
        else so_far)) }
{
    let construct = &book.constructs()[place as usize];
    if !active(construct.from, construct.until, day) {
        return Ok(so_far);
    }
    let asked = after(alloc, added, &construct.demand)?;
    let more = and_also(so_far, asked)?;
    Ok(Some(more))
}

// The formula so far, and one more.
fn and_also(so_far: Option<Formula>, more: Formula) -> Result<Formula, Memory>
    ensures { IfOk result (λ f. f ≡ and_rest so_far (more ∷ [])) }
{
    match so_far {
        Some(formula) => formula.and(more),
        None => Ok(more),
    }
}

// The other formulas of some questions. The literals of the codes are known.
fn add_all_other(
    alloc: Global,
    encoder: &mut WideEncoder,
    book: &Book,
    codes: &[u32],
    known: &[Lit],
    questions: &[SupplementQuestion],
) -> Result<Vec<QuestionLits>, Memory>
    requires counted { length known.now ≡ length codes.now }
    requires truth { encoder.old.truth ≡ length book.now.codes }
    requires fit { All (QuestionFits book.now) questions.now }
    requires room { let items = map free_item (all_other book.now questions.now) in
        encoder.old.next + taken_by items < 2 ^ 32 }
    ensures made { let items = map free_item (all_other book.now questions.now) in
        OnOk result (WidensItems encoder.old encoder.new items) }
    ensures lits { IfOk result (λ lits. lits.items
        ≡ all_other_lits book.now codes.now known.now encoder.old.next questions.now) }
{
    let mut all = Vec::new(alloc);
    for question in questions {
        let lits = add_other(alloc, encoder, book, codes, known, *question)?;
        all.push(lits)?;
    }
    Ok(all)
}

// The other formulas of a question.
fn add_other(
    alloc: Global,
    encoder: &mut WideEncoder,
    book: &Book,
    codes: &[u32],
    known: &[Lit],
    question: SupplementQuestion,
) -> Result<QuestionLits, Memory>
    requires counted { length known.now ≡ length codes.now }
    requires truth { encoder.old.truth ≡ length book.now.codes }
    requires fits { QuestionFits book.now question }
    requires room { let items = map free_item (other_own book.now question) in
        encoder.old.next + taken_by items < 2 ^ 32 }
    ensures made { let items = map free_item (other_own book.now question) in
        OnOk result (WidensItems encoder.old encoder.new items) }
    ensures lits { IfOk result (λ lits. lits
        ≡ other_lits book.now codes.now known.now encoder.old.next question) }
{
    let rules = book.supplements();
    match question {
        SupplementQuestion::Breaks(place) => {
            let rule = &rules[place as usize];
            let literal = encoder.literal(&rule.rule)?;
            let mut afterwards = Sequence::new(alloc);
            afterwards.push(literal_with(codes, known, rule.code))?;
            Ok(QuestionLits::BreaksLits {
                rule: literal,
                added: rule.code,
                afterwards,
            })
        }
        SupplementQuestion::Swaps { first, second } => {
            add_swaps(
                alloc,
                encoder,
                &rules[first as usize],
                &rules[second as usize],
            )
        }
    }
}

// The literal that stands with a code.
fn literal_with(codes: &[u32], lits: &[Lit], code: u32) -> Lit
    requires { length lits.now ≡ length codes.now }
    ensures { result ≡ literal_with codes.now lits.now code }
{
    for (place, other) in codes.iter().enumerate() {
        if *other == code {
            return lits[place];
        }
    }
    Lit::new(0, true)
}

// Both rules' formulas, and each with the code of the other read as present.
fn add_swaps(
    alloc: Global,
    encoder: &mut WideEncoder,
    first: &Supplement,
    second: &Supplement,
) -> Result<QuestionLits, Memory>
    requires room { let items = map free_item (swaps_own first.now second.now) in
        encoder.old.next + taken_by items < 2 ^ 32 }
    ensures made { let items = map free_item (swaps_own first.now second.now) in
        OnOk result (WidensItems encoder.old encoder.new items) }
    ensures lits { IfOk result (λ lits. lits
        ≡ together_swaps encoder.old.truth encoder.old.next first.now second.now) }
{
    let second_read = second.rule.with_leaves(alloc, &Present(first.code))?;
    let first_read = first.rule.with_leaves(alloc, &Present(second.code))?;
    let first_literal = encoder.literal(&first.rule)?;
    let second_literal = encoder.literal(&second.rule)?;
    let second_afterwards = encoder.literal(&second_read)?;
    let first_afterwards = encoder.literal(&first_read)?;
    Ok(QuestionLits::SwapsLits {
        first: first_literal,
        first_added: first.code,
        second: second_literal,
        second_added: second.code,
        second_afterwards,
        first_afterwards,
    })
}

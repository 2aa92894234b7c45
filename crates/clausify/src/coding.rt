//! The clauses of a slice.
ghost use Rattle.std.specs.Prelude.{◌≡◌, IfOk, map};
ghost use Rattle.book_model.specs.Slices.{IsOrdered, IsSteady};
ghost use Rattle.clausify.specs.Questions.{questions};
ghost use Rattle.clausify.specs.Coded.{IsCoded};
ghost use Rattle.clausify.specs.Layout.{IsLaid};
ghost use Rattle.clausify.specs.Limit.{CodesWithin};
ghost use Rattle.clausify.specs.Lifting.{CodesSlice, DecidesEach};
ghost use Rattle.clausify.specs.Ranges.{IsInRange};

use crate::choices::usages_of;
use crate::counting::question_count;
use crate::encoder::{Encoded, Encoder};
use crate::goals::{ask_choices, ask_codes};
use crate::items::add_rules;
use crate::layout::Layout;
use crate::question::{Asked, Coded, Question};
use book_model::{Book, Slice};
use clause_pool::Lit;
use pb_base::limits::MOST_QUESTIONS;
use pb_base::{Fail, Memory};
use std::alloc::Global;

/// A slice's clauses and questions, and where the clauses stand.
#[derive(Drop)]
pub struct LaidSlice {
    pub coded: Coded,
    pub layout: Layout,
}

/// The clauses of a slice of the book, with its questions and their layout, however many these are.
pub fn laid_slice(alloc: Global, book: &Book, slice: &Slice) -> Result<LaidSlice, Memory>
    ensures coded { IfOk result (λ l. IsCoded book.now slice.now.first l.coded) }
    ensures layout { IfOk result (λ l. IsLaid book.now slice.now.first l.layout) }
    ensures questions { IfOk result (λ l. map (λ q. q.question) l.coded.questions.items
        ≡ questions book.now slice.now.first) }
    ensures ranges { IfOk result (λ l. IsInRange book.now l.coded) }
    ensures sets { IfOk result (λ l. IsSteady book.now slice.now → CodesSlice book.now slice.now l.coded) }
    ensures decides { IfOk result (λ l. IsSteady book.now slice.now → IsOrdered slice.now
        → DecidesEach book.now slice.now l.coded) }
{
    let codes = book.codes();
    let mut encoder = Encoder::new(alloc, codes.len())?;
    let mut starts = Vec::new(alloc);
    add_rules(&mut encoder, &mut starts, book, slice.first)?;
    let usages = usages_of(alloc, &mut encoder, &mut starts, book, slice.first)?;
    let goals = encoder.start();
    let mut questions = Vec::new(alloc);
    questions.push(Asked {
        question: Question::Void,
        goal: Lit::new(encoder.truth, true),
    })?;
    ask_codes(&mut questions, codes)?;
    ask_choices(&mut encoder, &mut questions, book, slice.first, &usages)?;
    let Encoded { pool, vars, gates } = encoder.into_parts();
    let coded = Coded {
        pool,
        vars,
        questions,
    };
    let layout = Layout {
        gates,
        starts,
        goals,
    };
    Ok(LaidSlice { coded, layout })
}

/// The clauses of a slice of the book, with its questions, however many these are.
pub fn coded_slice(alloc: Global, book: &Book, slice: &Slice) -> Result<Coded, Memory>
    ensures coded { IfOk result (λ c. IsCoded book.now slice.now.first c) }
    ensures questions { IfOk result (λ c. map (λ q. q.question) c.questions.items
        ≡ questions book.now slice.now.first) }
    ensures ranges { IfOk result (λ c. IsInRange book.now c) }
    ensures sets { IfOk result (λ c. IsSteady book.now slice.now → CodesSlice book.now slice.now c) }
    ensures decides { IfOk result (λ c. IsSteady book.now slice.now → IsOrdered slice.now
        → DecidesEach book.now slice.now c) }
{
    let laid = laid_slice(alloc, book, slice)?;
    let LaidSlice { coded, layout: _ } = laid;
    Ok(coded)
}

/// The clauses of a slice of the book, with its questions. They are refused, with the number of questions, where there
/// are more than 200,000.
pub fn clauses_of(alloc: Global, book: &Book, slice: &Slice) -> Result<Coded, Fail<u64>>
    ensures coded { CodesWithin book.now slice.now.first result }
    ensures questions { IfOk result (λ c. map (λ q. q.question) c.questions.items
        ≡ questions book.now slice.now.first) }
    ensures ranges { IfOk result (λ c. IsInRange book.now c) }
    ensures sets { IfOk result (λ c. IsSteady book.now slice.now → CodesSlice book.now slice.now c) }
    ensures decides { IfOk result (λ c. IsSteady book.now slice.now → IsOrdered slice.now
        → DecidesEach book.now slice.now c) }
{
    let count = question_count(book, slice);
    if count > MOST_QUESTIONS as u64 {
        return Err(Fail::Refused(count));
    }
    Ok(coded_slice(alloc, book, slice)?)
}

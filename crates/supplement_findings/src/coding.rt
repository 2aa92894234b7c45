//! The clauses of questions.
ghost use Rattle.std.specs.Prelude.{◌≡◌, ◌^◌, ◌<◌, All, IfOk, length};
ghost use Rattle.supplement_findings.specs.Answering.{IsSource, goals_of};
ghost use Rattle.supplement_findings.specs.Clauses.{asked_start, questions_clauses, questions_variables};
ghost use Rattle.supplement_findings.specs.Questions.{QuestionFits};

use crate::alone::coded_alone;
use crate::question::SupplementQuestion;
use crate::together::coded_together;
use book_model::Book;
use inquiry::Coded;
use pb_base::{Day, Memory, Sequence};
use std::alloc::Global;

/// The clauses of some questions on a day, which share what is asked of the sets with some codes, or of one question alone.
pub(crate) fn coded_questions(
    alloc: Global,
    book: &Book,
    day: Day,
    codes: &[u32],
    questions: &[SupplementQuestion],
    touched: &[Sequence<u32>],
) -> Result<Coded, Memory>
    requires fit { All (QuestionFits book.now) questions.now }
    requires source { IsSource book.now touched.now codes.now }
    requires room { questions_variables book.now day codes.now questions.now < 2 ^ 32 }
    ensures clauses { IfOk result (λ c. c.pool.clauses ≡ questions_clauses book.now day codes.now questions.now) }
    ensures vars { IfOk result (λ c. c.vars ≡ questions_variables book.now day codes.now questions.now) }
    ensures goals { IfOk result (λ c. c.goals.items
        ≡ goals_of (asked_start book.now day codes.now questions.now) questions.now) }
{
    if questions.len() == 1 {
        coded_alone(alloc, book, day, questions[0], touched)
    } else {
        coded_together(alloc, book, day, codes, questions, touched)
    }
}

//! The questions of a day, and how they are asked.
ghost use Rattle.std.specs.Prelude.{◌≡◌, ◌≤◌, true};
ghost use Rattle.pb_base.specs.Node.{size};
ghost use Rattle.pb_base.specs.Rule.{nodes};
ghost use Rattle.book_model.specs.Good.{is_constructible};
ghost use Rattle.supplement_findings.specs.Answering as answering;
ghost use Rattle.supplement_findings.specs.Answering.{IsSource, question_size};
ghost use Rattle.supplement_findings.specs.Questions.{QuestionFits};

use crate::coding::coded_questions;
use crate::question::SupplementQuestion;
use crate::sets::{is_built, meets};
use book_model::Book;
use inquiry::{Coded, Inquiry};
use pb_base::{CodeSet, Day, Formula, Memory, Sequence};
use std::alloc::Global;

// Questions of one solver add at most so many variables together, as they count them, or as many as there are constructibility
// rules, which are coded anew for each solver. Each variable slows a search, also where it asks of another question.
const MOST_TOGETHER: usize = 1_024;

/// The questions on the supplementing rules of a book on a day, with the rules that each code touches. Those of them that ask
/// which constructibility rules a code breaks are of some codes.
#[derive(Clone, Copy)]
pub(crate) struct DayQuestions<'a> {
    pub book: &'a Book,
    pub day: Day,
    pub touched: &'a [Sequence<u32>],
    pub codes: &'a [u32],
}

impl<'a> Inquiry for DayQuestions<'a> {
    type Question = SupplementQuestion;

    ghost IsReady = { λ s. IsSource s.book.now s.touched.now s.codes.now };

    ghost IsPosed = { λ s q. answering.IsPosed s.book.now s.day s.codes.now q };

    ghost MayShow = { λ s x. is_constructible s.book.now s.day x ≡ true };

    ghost form = { λ s. answering.form s.book.now s.day s.codes.now };

    fn codes(&self) -> u32 {
        self.book.codes().len()
    }

    fn most_together(&self) -> u32 {
        self.book.constructs().len().max(MOST_TOGETHER) as u32
    }

    fn size(&self, question: SupplementQuestion) -> u32 {
        question_size(self.book, question)
    }

    fn encode(&self, alloc: Global, questions: &[SupplementQuestion]) -> Result<Coded, Memory> {
        coded_questions(
            alloc,
            self.book,
            self.day,
            self.codes,
            questions,
            self.touched,
        )
    }

    fn shows(
        &self,
        alloc: Global,
        question: SupplementQuestion,
        set: &CodeSet,
    ) -> Result<bool, Memory> {
        meets(alloc, self.book, self.day, set, question, self.touched)
    }

    fn may_show(&self, set: &CodeSet) -> bool {
        is_built(self.book, self.day, set)
    }

    fn lawful(&self) {}
}

// How many variables a question adds at most.
fn question_size(book: &Book, question: SupplementQuestion) -> u32
    requires { QuestionFits book.now question }
    ensures { result ≡ question_size book.now question }
{
    let rules = book.supplements();
    match question {
        SupplementQuestion::Breaks(place) => rule_size(&rules[place as usize].rule) + 1,
        SupplementQuestion::Swaps { first, second } => {
            let first = rule_size(&rules[first as usize].rule);
            let second = rule_size(&rules[second as usize].rule);
            2 * (first + second) + 1
        }
    }
}

// How many nodes a formula is kept in.
#[tactic(auto, using(crate::proofs::SizeLaws::length_kept, crate::proofs::SizeLaws::size_few))]
fn rule_size(rule: &Formula) -> u32
    requires { nodes rule.now ≤ 512 }
    ensures is { result ≡ size rule.now }
    ensures few { result ≤ 1024 }
{
    rule.nodes().len() as u32
}

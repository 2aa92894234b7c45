//! What is known of a slice's questions while they are asked. No answer hangs on it.
ghost use Rattle.std.specs.Prelude.{◌≡◌};
ghost use Rattle.clausify.specs.Questions.{QuestionFits};
ghost use Rattle.solver.specs.Solver.{Onwards};

use crate::refuting::Refuting;
use book_model::Book;
use clause_pool::{Kernel, Lit};
use clausify::{Asked, Layout, Question};
use pb_base::{Day, Memory};
use slice_hints::{Sets, Units, Usages, guide};
use solver::Solver;
use std::alloc::Global;

/// Hints for the questions of a slice.
#[derive(Drop)]
pub(crate) struct Known<'a> {
    pub(crate) refuting: Refuting<'a>,
    /// Clauses that refute goals.
    pub(crate) units: Units,
    /// Where the clauses of the slice stand.
    pub(crate) layout: &'a Layout,
    usages: Usages,
    hints: Vec<Lit>,
}

impl<'a> Known<'a> {
    /// What is known of these questions, once the solver's kernel has what makes chains short.
    pub(crate) fn of(
        alloc: Global,
        book: &Book,
        questions: &[Asked],
        layout: &'a Layout,
        solver: &mut Solver,
    ) -> Result<Known<'a>, Memory>
        ensures { Onwards solver.old solver.new }
    {
        let mut refuting = Refuting::new(alloc, solver.vars(), &layout.gates, book.codes().len());
        refuting.share(solver)?;
        Known::with(alloc, book, questions, layout, solver.kernel(), refuting)
    }

    fn with(
        alloc: Global,
        book: &Book,
        questions: &[Asked],
        layout: &'a Layout,
        kernel: &Kernel,
        refuting: Refuting<'a>,
    ) -> Result<Known<'a>, Memory> {
        let usages = Usages::of(alloc, book, questions, layout)?;
        let units = Units::of(alloc, kernel, questions)?;
        Ok(Known {
            refuting,
            units,
            layout,
            usages,
            hints: Vec::new(alloc),
        })
    }

    /// Points the solver's next search at a set that meets the goal of a question.
    pub(crate) fn point(
        &mut self,
        solver: &mut Solver,
        book: &Book,
        day: Day,
        sets: &Sets,
        question: Question,
    )
        requires { QuestionFits book.now question }
        ensures { solver.new ≡ solver.old }
    {
        self.refuting.forget();
        guide(
            &mut self.hints,
            book,
            day,
            sets,
            &self.usages,
            self.refuting.refuter(),
            question,
        );
        solver.prefer(&self.hints);
    }
}

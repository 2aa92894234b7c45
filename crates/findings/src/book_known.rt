//! What is known of a book's questions while its slices are asked. No answer hangs on it.
ghost use Rattle.std.specs.Prelude.{◌≡◌, ◌*◌, ◌<◌, ◌≤◌, IfOk};
ghost use Rattle.pb_base.specs.declared.limits.TheConstants.{MOST_BUDGET};
ghost use Rattle.propagate.specs.Quiet.{IsConsistent};
ghost use Rattle.propagate.specs.Trail.{AreLiterals};
ghost use Rattle.clausify.specs.Questions.{QuestionFits};
ghost use Rattle.solver.specs.Solver.{IsRight, Onwards};

use crate::cores::Cores;
use crate::refuting::Refuting;
use book_model::Book;
use clause_pool::Lit;
use clausify::{Asked, Layout, Question};
use pb_base::{Day, Memory};
use slice_hints::{Sets, Usages, guide};
use solver::{Answer, Solver};
use std::alloc::Global;

// A search that learns so many clauses is hard. Where all are easy, what would be derived costs more than it spares.
const MANY_LEARNT: u32 = 4;

/// Hints for the questions of a book's slices, and the clauses that may show that one has no set.
#[derive(Drop)]
pub(crate) struct BookKnown<'a> {
    pub(crate) refuting: Refuting<'a>,
    pub(crate) cores: Cores,
    usages: Usages,
    hints: Vec<Lit>,
}

impl<'a> BookKnown<'a> {
    /// What is known before a slice is asked. These are the literals of the variants' formulas.
    pub(crate) fn of(
        alloc: Global,
        book: &Book,
        usages: &[Lit],
        layout: &'a Layout,
        vars: u32,
    ) -> Result<BookKnown<'a>, Memory> {
        let asked = usage_questions(alloc, usages)?;
        let usages = Usages::of(alloc, book, &asked, layout)?;
        let cores = Cores::none(alloc, book, vars)?;
        let refuting = Refuting::new(alloc, vars, &layout.gates, book.codes().len());
        Ok(BookKnown {
            refuting,
            cores,
            usages,
            hints: Vec::new(alloc),
        })
    }

    /// Derives what the book's clauses say of disjunctions, if a search was hard. Before it the kernel had so many clauses.
    #[tactic(auto, using(solver::proofs::PoolLaws::onwards_same))]
    pub(crate) fn share_after(&mut self, solver: &mut Solver, before: usize) -> Result<(), Memory>
        ensures { Onwards solver.old solver.new }
    {
        if solver.kernel().pool().len().wrapping_sub(before) < MANY_LEARNT as usize {
            return Ok(());
        }
        self.refuting.share(solver)
    }

    /// Looks for a set as the solver does. Once such a search is hard, what the book's clauses say of disjunctions is derived.
    #[tactic(auto, using(solver::proofs::PoolLaws::onwards_twice))]
    pub(crate) fn search(
        &mut self,
        solver: &mut Solver,
        assumptions: &[Lit],
        budget: u32,
    ) -> Result<Answer, Memory>
        requires below { AreLiterals assumptions.now (2 * solver.old.vars) }
        requires consistent { IsConsistent assumptions.now }
        requires some { 0 < budget }
        requires budget { budget ≤ MOST_BUDGET }
        ensures onwards { Onwards solver.old solver.new }
        ensures answer { IfOk result (IsRight solver.new assumptions.now budget) }
    {
        if self.refuting.has_shared() {
            return solver.solve(assumptions, budget);
        }
        let soon = solver.solve(assumptions, budget.min(MANY_LEARNT))?;
        match soon {
            Answer::Set(set) => Ok(Answer::Set(set)),
            Answer::Closed(at) => Ok(Answer::Closed(at)),
            Answer::Spent(_) => self.search_on(solver, assumptions, budget),
        }
    }

    // The same once that is derived.
    #[tactic(auto, using(solver::proofs::PoolLaws::onwards_twice))]
    fn search_on(
        &mut self,
        solver: &mut Solver,
        assumptions: &[Lit],
        budget: u32,
    ) -> Result<Answer, Memory>
        requires below { AreLiterals assumptions.now (2 * solver.old.vars) }
        requires consistent { IsConsistent assumptions.now }
        requires some { 0 < budget }
        requires budget { budget ≤ MOST_BUDGET }
        ensures onwards { Onwards solver.old solver.new }
        ensures answer { IfOk result (IsRight solver.new assumptions.now budget) }
    {
        self.refuting.share(solver)?;
        solver.solve(assumptions, budget)
    }

    /// Points the solver's next search at a set that meets the goal of a question.
    pub(crate) fn point(
        &mut self,
        solver: &mut Solver,
        book: &Book,
        day: Day,
        sets: &Sets,
        question: Question,
    )
        requires { QuestionFits book.now question }
        ensures { solver.new ≡ solver.old }
    {
        self.refuting.forget();
        guide(
            &mut self.hints,
            book,
            day,
            sets,
            &self.usages,
            self.refuting.refuter(),
            question,
        );
        solver.prefer(&self.hints);
    }
}

// The questions of these usages.
fn usage_questions(alloc: Global, usages: &[Lit]) -> Result<Vec<Asked>, Memory> {
    let mut asked = Vec::new(alloc);
    let mut variant: u32 = 0;
    for usage in usages {
        asked.push(Asked {
            question: Question::Superfluous(variant),
            goal: *usage,
        })?;
        variant = variant.wrapping_add(1);
    }
    Ok(asked)
}

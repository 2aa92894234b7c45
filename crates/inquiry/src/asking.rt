//! Questions that are asked of a solver.
ghost use Rattle.std.specs.Prelude.{◌≡◌, ◌^◌, ◌∷◌, ◌<◌, ◌≤◌, [], Some, None, All, IfOk, IfSome, slice_get};
ghost use Rattle.std.specs.List.{sum_by};
ghost use Rattle.pb_base.specs.declared.limits.TheConstants.{MOST_BUDGET};
ghost use Rattle.solver.specs.Solver.{IsRight};
ghost use Rattle.inquiry.specs.Form.{goal_at};
ghost use Rattle.inquiry.specs.Asking.{IsAsking, IsOutcome};

use crate::source::{Coded, Inquiry};
use clause_pool::{Kernel, Lit, Pool};
use pb_base::{CodeSet, Memory};
use solver::{Answer, Solver};
use std::alloc::Global;

/// A solver over the clauses of some questions, and for each of them the literal that asks of it.
#[derive(Drop)]
pub(crate) struct Asking {
    pub(crate) solver: Solver,
    pub(crate) goals: Vec<Lit>,
}

/// What comes of a question by a search.
#[derive(Drop)]
pub(crate) enum Outcome {
    /// The set shows what it asks for.
    Shown(CodeSet),
    /// No set does.
    NotShown,
    /// It was left when these clauses had been learnt.
    Left(Pool),
}

/// Questions that share a solver. It is made for the first that is asked.
#[derive(Drop)]
pub(crate) struct Searching {
    pub(crate) asking: Option<Asking>,
    /// How many of the questions were asked.
    pub(crate) asked: usize,
    /// How many sets were found.
    pub(crate) found: usize,
}

impl Searching {
    pub(crate) fn new() -> Searching
        ensures asking { result.asking ≡ None }
        ensures asked { result.asked ≡ 0 }
    {
        Searching {
            asking: None,
            asked: 0,
            found: 0,
        }
    }

    /// What comes of one of the questions, which stands at this place.
    pub(crate) fn ask<S: Inquiry>(
        &mut self,
        alloc: Global,
        source: &S,
        questions: &[S::Question],
        place: usize,
        question: S::Question,
        budget: u32,
    ) -> Result<Outcome, Memory>
        requires ready { S.IsReady source.now }
        requires posed { All (S.IsPosed source.now) questions.now }
        requires there { slice_get questions.now place ≡ Some question }
        requires few { sum_by (S.form source.now).size questions.now ≤ 2 ^ 30 }
        requires asking { IfSome self.old.asking (IsAsking (S.form source.now) questions.now) }
        requires some { 0 < budget }
        requires most { budget ≤ MOST_BUDGET }
        ensures asking { IfSome self.new.asking (IsAsking (S.form source.now) questions.now) }
        ensures asked { self.new.asked ≡ self.old.asked }
        ensures outcome { IfOk result (IsOutcome (S.form source.now) questions.now place question budget) }
    {
        let mut asking = match self.asking.take() {
            Some(asking) => asking,
            None => begin(alloc, source, questions)?,
        };
        let outcome = ask(source, questions, place, question, &mut asking, budget)?;
        self.asking = Some(asking);
        Ok(outcome)
    }
}

/// What comes of a question by a search over its own clauses.
pub(crate) fn ask_alone<S: Inquiry>(
    alloc: Global,
    source: &S,
    question: S::Question,
    budget: u32,
) -> Result<Outcome, Memory>
    requires ready { S.IsReady source.now }
    requires posed { S.IsPosed source.now question }
    requires some { 0 < budget }
    requires most { budget ≤ MOST_BUDGET }
    ensures { IfOk result (IsOutcome (S.form source.now) (question ∷ []) 0 question budget) }
{
    source.lawful();
    let mut alone = Vec::new(alloc);
    alone.push(question)?;
    let mut asking = begin(alloc, source, &alone)?;
    ask(source, &alone, 0, question, &mut asking, budget)
}

// A solver over the clauses of some questions.
fn begin<S: Inquiry>(alloc: Global, source: &S, questions: &[S::Question]) -> Result<Asking, Memory>
    requires ready { S.IsReady source.now }
    requires posed { All (S.IsPosed source.now) questions.now }
    requires few { sum_by (S.form source.now).size questions.now ≤ 2 ^ 30 }
    ensures { IfOk result (IsAsking (S.form source.now) questions.now) }
{
    source.lawful();
    let codes = source.codes();
    let coded = source.encode(alloc, questions)?;
    let Coded { pool, vars, goals } = coded;
    let kernel = Kernel::of(alloc, pool);
    let solver = Solver::new(alloc, kernel, vars, codes)?;
    Ok(Asking { solver, goals })
}

// What comes of one of the questions, which stands at this place.
fn ask<S: Inquiry>(
    source: &S,
    questions: &[S::Question],
    place: usize,
    question: S::Question,
    asking: &mut Asking,
    budget: u32,
) -> Result<Outcome, Memory>
    requires ready { S.IsReady source.now }
    requires posed { All (S.IsPosed source.now) questions.now }
    requires there { slice_get questions.now place ≡ Some question }
    requires asking { IsAsking (S.form source.now) questions.now asking.old }
    requires some { 0 < budget }
    requires most { budget ≤ MOST_BUDGET }
    ensures asking { IsAsking (S.form source.now) questions.now asking.new }
    ensures outcome { IfOk result (IsOutcome (S.form source.now) questions.now place question budget) }
{
    source.lawful();
    let goal = asking.goals[place];
    let answer = asking.solver.solve(&[goal], budget)?;
    Ok(read_answer(source, questions, place, question, asking, budget, answer))
}

// What comes of the question by the solver's answer.
fn read_answer<S: Inquiry>(
    source: &S,
    questions: &[S::Question],
    place: usize,
    question: S::Question,
    asking: &Asking,
    budget: u32,
    answer: Answer,
) -> Outcome
    requires ready { S.IsReady source.now }
    requires posed { All (S.IsPosed source.now) questions.now }
    requires there { slice_get questions.now place ≡ Some question }
    requires asking { IsAsking (S.form source.now) questions.now asking.now }
    requires right { let goal = goal_at (S.form source.now) questions.now place in
        IsRight asking.now.solver (goal ∷ []) budget answer }
    ensures { IsOutcome (S.form source.now) questions.now place question budget result }
{
    source.lawful();
    match answer {
        Answer::Set(set) => Outcome::Shown(set),
        Answer::Closed(_) => {
            asking.solver.kernel().pool();
            Outcome::NotShown
        }
        Answer::Spent(learnt) => Outcome::Left(learnt),
    }
}

//! What asks questions.
ghost use Rattle.std.specs.Prelude.{◌≡◌, ◌^◌, ◌<◌, ◌≤◌, Bool, List, All, IfOk, length, true};
ghost use Rattle.inquiry.specs.Form.{Form, IsLawful};

use clause_pool::{Lit, Pool};
use pb_base::{CodeSet, Memory};
use std::alloc::Global;

/// The clauses of some questions, the number of their variables, and for each question in order the literal that asks of it.
#[derive(Drop)]
pub struct Coded {
    pub pool: Pool,
    pub vars: u32,
    pub goals: Vec<Lit>,
}

/// A source of questions. Each asks for a set of codes that shows something.
pub trait Inquiry {
    type Question: Copy;

    /// What the source stands on is as it has to be.
    ghost IsReady: { Self → Type 0 };

    /// The question may be put to the source.
    ghost IsPosed: { Self → Self.Question → Type 0 };

    /// The set may be tried on questions.
    ghost MayShow: { Self → List Bool → Type 0 };

    /// What the source computes of its questions.
    ghost form: { Self → Form Self.Question };

    /// The number of codes of a set.
    fn codes(&self) -> u32
        requires ready { IsReady self.now }
        ensures { result ≡ (form self.now).codes };

    /// How many variables the questions that share a solver may add together, at most 2^30. A question that adds more has a
    /// solver of its own.
    fn most_together(&self) -> u32;

    /// How many variables a question adds at most.
    fn size(&self, question: Self::Question) -> u32
        requires ready { IsReady self.now }
        requires posed { IsPosed self.now question }
        ensures { result ≡ (form self.now).size question };

    /// The clauses of some questions that share a solver.
    fn encode(&self, alloc: Global, questions: &[Self::Question]) -> Result<Coded, Memory>
        requires ready { IsReady self.now }
        requires posed { All (IsPosed self.now) questions.now }
        requires room { (form self.now).variables questions.now < 2 ^ 32 }
        ensures clauses { IfOk result (λ c. c.pool.clauses ≡ (form self.now).clauses questions.now) }
        ensures vars { IfOk result (λ c. c.vars ≡ (form self.now).variables questions.now) }
        ensures goals { IfOk result (λ c. c.goals.items ≡ (form self.now).goals questions.now) };

    /// Whether a set shows what a question asks for. Where this says no, the question is asked of a solver.
    fn shows(&self, alloc: Global, question: Self::Question, set: &CodeSet) -> Result<bool, Memory>
        requires ready { IsReady self.now }
        requires posed { IsPosed self.now question }
        requires counted { length set.now ≡ (form self.now).codes }
        requires may { MayShow self.now set.now }
        ensures { IfOk result (λ shown. shown ≡ true → (form self.now).shows question set.now ≡ true) };

    /// Whether a set that another source's question was answered by may be tried here.
    fn may_show(&self, set: &CodeSet) -> bool
        requires ready { IsReady self.now }
        requires counted { length set.now ≡ (form self.now).codes }
        ensures { result ≡ true → MayShow self.now set.now };

    /// The clauses say what the questions ask for. The call does nothing.
    fn lawful(&self)
        requires ready { IsReady self.now }
        ensures { IsLawful (form self.now) (IsPosed self.now) (MayShow self.now) };
}

//! What is told of questions.

use clause_pool::Pool;
use pb_base::CodeSet;

/// What is told of a question. Nothing is told of one that no set shows.
#[derive(Drop)]
pub enum Told<Q> {
    /// The set shows what the question asks for.
    Finding { question: Q, set: CodeSet },
    /// The question was left when these clauses had been learnt, as many as the budget allows.
    Undecided { question: Q, learnt: Pool },
}

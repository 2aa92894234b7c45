//! What a solver answers.

use clause_pool::{Pool, Ref};
use pb_base::CodeSet;

/// The answer to a question.
#[derive(Drop)]
pub enum Answer {
    /// A set of codes that begins an assignment which satisfies the given clauses with each assumption true.
    Set(CodeSet),
    /// The place of a clause of the kernel that has no literal but complements of assumptions: those whose complements it
    /// has can't hold together, whatever the others are.
    Closed(Ref),
    /// The clauses that were learnt up to the budget, each of them new. The question is undecided.
    Spent(Pool),
}

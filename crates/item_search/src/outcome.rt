//! What comes of a search for a set.

use clause_pool::{Pool, Ref};
use pb_base::CodeSet;

/// What comes of a search for a set of which some literals are true.
#[derive(Drop)]
pub enum Outcome {
    /// The set is one.
    Shown(CodeSet),
    /// There is none. The clause at this place of the solver's kernel says so: it denies literals that no set has together.
    NotShown(Ref),
    /// The search was left when these clauses had been learnt, as many as the budget allows.
    Left(Pool),
}

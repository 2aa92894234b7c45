//! What shows that a slice has no fault.

use crate::closing::Closing;
use clause_pool::Kernel;
use pb_base::CodeSet;

/// What shows that a slice has no fault: a good set, and the clauses that close its questions.
#[derive(Drop)]
pub struct SliceProof {
    pub set: CodeSet,
    pub kernel: Kernel,
    /// The questions that have to be closed, in order.
    pub closed: Vec<Closing>,
}

//! Questions of which each asks for a set of codes: what shows it, that nothing does, or that it was left. A client says what its
//! questions are and how they are coded as clauses; here they are asked of a solver.
#![tactic(auto)]

mod answer;
mod asking;
mod kept;
mod source;
mod told;
mod tried;

pub use answer::answer_all;
pub use kept::KeptSets;
pub use source::{Coded, Inquiry};
pub use told::Told;

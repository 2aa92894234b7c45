//! What the clauses of a question on supplementing rules say; and what two reports on one book have in common.
#![tactic(auto)]

mod laws;
mod reports;
mod supplement_reports;

pub use laws::question_laws;
pub use reports::report_law;
pub use supplement_reports::supplement_law;

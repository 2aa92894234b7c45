//! What it means for orders that nothing changes from one book to the next; and what two reports of what changes, or two comparisons,
//! have in common.
#![tactic(auto)]

mod comparisons;
mod laws;
mod reports;

pub use comparisons::comparison_law;
pub use laws::change_laws;
pub use reports::report_law;

//! What a requirement without a line means for the cars of a book, and for the orders of a released one; and what two reports have in
//! common.
#![tactic(auto)]

mod laws;
mod reports;

pub use laws::{kept_law, listed_law, ordered_law};
pub use reports::report_law;

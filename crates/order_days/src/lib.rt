//! What an order of some codes comes to on every day of a book's term, and the text that tells it.
#![tactic(auto)]

mod days;
mod joining;
mod lines;
mod run;
mod same;
mod text;

pub use days::{DaysFault, order_days};
pub use run::Run;
pub use text::days_text;

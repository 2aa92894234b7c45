//! What changes from one book to the next, on all days of both terms: the cars that are lost and won, whether other codes are added to
//! orders, and the positions at which cars of both get other parts.
#![tactic(auto)]

mod alike;
mod count;
mod days;
mod differs;
mod run;
mod run_work;
mod runs;
mod text;

pub use count::{any_change, any_undecided};
pub use run::{Common, DifferNote, RunNotes};
pub use runs::changes;
pub use text::changes_text;

//! Whether every car of a book keeps what is required of it.
#![tactic(auto)]

mod broken;
mod cells;
mod check;
mod note;
mod notes;
mod notes_text;
mod rows;
mod slice;

pub use cells::Part;
pub use check::check_requirements;
pub use note::{RequirementNote, any_fails, any_undecided, failing};
pub use notes_text::requirement_text;

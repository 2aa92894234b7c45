//! What another book changes: the positions at which some car that both books allow gets other parts.
#![tactic(auto)]

mod comparing;
mod joint;
mod keys;
mod note;
mod notes;
mod numbering;
mod packs;
mod place;
mod position;
mod positions;
mod renaming;
mod same;
mod source;
mod text;

pub use note::{CompareNote, Outside};
pub use positions::{compare, compare_by};
pub use text::{any_finding, any_undecided, compare_text, findings_in};

//! Whether completion does what the authors of supplementing rules meant: which rules break constructible sets, and which keep
//! each other from firing, so that ranks decide which car is built.
#![tactic(auto)]

mod after;
mod alone;
mod check;
mod coding;
mod counting;
mod goals;
mod group;
mod laws;
mod lits;
mod occurs;
mod question;
mod questions;
mod report;
mod sets;
mod slice;
mod slices;
mod source;
mod text;
mod together;
mod touched;

pub use check::check_supplements;
pub use laws::{calm_where_none_is_found, one_end, unasked_never_swap};
pub use question::SupplementQuestion;
pub use report::{SupplementNote, SupplementReport, any_finding, any_undecided, findings_in};
pub use text::supplement_text;

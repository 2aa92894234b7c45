//! The findings of a book: what is wrong with it on which days, each with what shows it, or a certificate that nothing keeps
//! it from its release.
#![tactic(auto)]

mod answer;
mod assuming;
mod book_known;
mod check;
mod check_by;
mod core_pairs;
mod core_report;
mod cores;
mod earlier;
mod known;
mod laws;
mod note_text;
mod outcome;
mod pairs;
mod question_text;
mod questions;
mod refuting;
mod report;
mod report_by;
mod slice;
mod slice_checks;
mod slice_reports;
mod task;
mod text;

pub use check::{Checked, check_book, report_book};
pub use check_by::check_book_by;
pub use laws::report_laws;
pub use report::{Ask, Note, Report, Verdict, verdict_of};
pub use report_by::report_book_by;
pub use text::report_text;

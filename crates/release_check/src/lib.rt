//! From the text of a book to its certificate, its release, or the report of all questions.
#![tactic(auto)]

mod certifying;
mod checking;
mod laws;
mod not_released;
mod releasing;

pub use certifying::{CertifiedBook, certify_text, certify_text_by};
pub use checking::{NotChecked, ReportedBook, check_text, check_text_by};
pub use laws::release_laws;
pub use not_released::NotReleased;
pub use releasing::try_release;

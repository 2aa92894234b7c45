//! Orders that were accepted, judged again by another book.
#![tactic(auto)]

mod completed;
mod impact;
mod judging;
mod kept;
mod laws;
mod outcome;
mod text;
mod workers;

pub use impact::impact_text;
pub use kept::Stock;
pub use laws::again_laws;
pub use outcome::Again;
pub use text::stock_text;
pub use workers::rejudge;

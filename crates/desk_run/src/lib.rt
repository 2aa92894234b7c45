//! The run of a desk: it is started from the rows of its keeper, serves one link, and gives the keeper back.
#![tactic(auto)]

mod end;
mod halves;
mod run;

pub use end::{DeskEnd, DeskRun};
pub use run::{MOST_STEPS, run_desk};

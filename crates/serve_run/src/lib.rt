//! Many workers at one desk: each serves the links of its own port, and their calls stand in one history.
#![tactic(auto)]

mod end;
mod joining;
mod links;
mod rooms;
mod seating;
mod serving;
mod work_end;
mod worker;

pub use end::{ServeEnd, Served};
pub use links::work;
pub use serving::serve;
pub use work_end::WorkEnd;

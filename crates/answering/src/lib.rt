//! Answers to calls: the steps of the desk that a call makes, and the work between them.
#![tactic(auto)]

mod advice;
mod alone;
mod asked;
mod books;
mod calls;
mod drafts;
mod gate;
mod headline;
mod judged;
mod names;
mod orders;
mod seat;
mod turns;

pub use alone::Alone;
pub use calls::answer_call;
pub use gate::{Gate, NoGate};
pub use headline::headline_laws;
pub use seat::Seat;
pub use turns::{Turns, valid_law};

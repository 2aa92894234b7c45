//! Sessions: the messages of one link, answered in order.
#![tactic(auto)]

mod answer;
mod end;
mod receive;
mod respond;
mod serving;
mod write;

pub use end::{SessionEnd, WriteFault};
pub use serving::{session, session_by};

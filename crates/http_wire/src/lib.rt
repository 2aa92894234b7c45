//! Requests of HTTP/1.0 and HTTP/1.1 from a stream of bytes, however the bytes are cut: heads by a grammar, and bodies of a told length.
#![tactic(auto)]

mod block;
mod fault;
mod few;
mod fields;
mod front;
mod front_reader;
mod head;
mod judge;
mod known;
mod law;
pub mod limits;
mod message;
mod parts;
mod reading;
mod refusal;
mod search;
mod source;
mod wire;
mod word;

pub use fault::ReadFault;
pub use head::{Head, HeadStep};
pub use law::one_reading;
pub use message::{BodyStep, Message};
pub use refusal::Refusal;
pub use wire::Wire;

//! What is kept of the head of a request.

use crate::refusal::Refusal;
use pb_base::{Body, Id};

/// What is kept of the head of a request: what it asks for, how its body is read, and who asks.
#[derive(Drop)]
pub struct Head {
    /// The method as it stands, as `GET`.
    pub method: Body,
    /// The target as it stands, as `/drafts/T`.
    pub target: Body,
    /// The minor version: 0 for HTTP/1.0, 1 for HTTP/1.1.
    pub version: u8,
    /// Whether the connection closes after the answer.
    pub close: bool,
    /// The number of bytes of the body.
    pub length: u32,
    /// Whether `100 Continue` is awaited before the body is sent.
    pub expects: bool,
    /// Who asks, where the head names one caller.
    pub caller: Option<Id>,
}

/// What comes next in a stream, where a message may begin.
#[derive(Drop)]
pub enum HeadStep {
    /// The head of a message.
    Head(Head),
    /// The stream ends here.
    End,
    /// What stands there is refused.
    Bad(Refusal),
}

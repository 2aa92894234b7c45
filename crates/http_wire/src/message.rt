//! Whole messages.

use crate::Head;
use pb_base::Body;

/// A request whose body was read whole.
#[derive(Drop)]
pub struct Message {
    pub head: Head,
    pub body: Body,
}

/// What comes behind a head.
#[derive(Drop)]
pub enum BodyStep {
    /// The message with its body.
    Message(Message),
    /// The stream ends inside the body. The message is not answered.
    Cut,
}

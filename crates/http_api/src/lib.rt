//! The desk over HTTP: which call a message asks for, and the response that each reply has.
#![tactic(auto)]

mod body;
mod call;
mod denied;
mod item;
mod opening;
mod path;
mod reply_text;
mod request;
mod response;
mod response_pieces;
mod route;
mod routes;
mod status;

pub use call::call_of;
pub use denied::Denied;
pub use response::{bad_response, denied_response, memory_response, response_of};
pub use response_pieces::Response;
pub use routes::Routes;

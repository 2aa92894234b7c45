//! Statuses and their phrases.
ghost use Rattle.std.specs.Prelude.{◌≡◌};
ghost use Rattle.http_api.specs.Status.{code_of, phrase_of, status_of, bad_status, denied_status, new_status};

use crate::denied::Denied;
use desk_words::Reply;
use http::StatusCode;
use http_wire::Refusal;

/// What a response begins with. Each has a number and a phrase.
#[derive(Clone, Copy)]
pub enum Status {
    Ok,
    Created,
    BadRequest,
    Forbidden,
    NotFound,
    MethodNotAllowed,
    Conflict,
    Gone,
    ContentTooLarge,
    UnprocessableContent,
    HeadTooLarge,
    InternalServerError,
    NotImplemented,
    ServiceUnavailable,
    InsufficientStorage,
}

impl Status {
    /// The number of the status.
    pub fn code(self) -> StatusCode
        ensures { result ≡ code_of self }
    {
        match self {
            Status::Ok => StatusCode::OK,
            Status::Created => StatusCode::CREATED,
            Status::BadRequest => StatusCode::BAD_REQUEST,
            Status::Forbidden => StatusCode::FORBIDDEN,
            Status::NotFound => StatusCode::NOT_FOUND,
            Status::MethodNotAllowed => StatusCode::METHOD_NOT_ALLOWED,
            Status::Conflict => StatusCode::CONFLICT,
            Status::Gone => StatusCode::GONE,
            Status::ContentTooLarge => StatusCode::PAYLOAD_TOO_LARGE,
            Status::UnprocessableContent => StatusCode::UNPROCESSABLE_ENTITY,
            Status::HeadTooLarge => StatusCode::REQUEST_HEADER_FIELDS_TOO_LARGE,
            Status::InternalServerError => StatusCode::INTERNAL_SERVER_ERROR,
            Status::NotImplemented => StatusCode::NOT_IMPLEMENTED,
            Status::ServiceUnavailable => StatusCode::SERVICE_UNAVAILABLE,
            Status::InsufficientStorage => StatusCode::INSUFFICIENT_STORAGE,
        }
    }

    /// The phrase behind the number.
    pub fn phrase(self) -> &'static [u8]
        ensures { result.now ≡ phrase_of self }
    {
        match self {
            Status::Ok => b"OK",
            Status::Created => b"Created",
            Status::BadRequest => b"Bad Request",
            Status::Forbidden => b"Forbidden",
            Status::NotFound => b"Not Found",
            Status::MethodNotAllowed => b"Method Not Allowed",
            Status::Conflict => b"Conflict",
            Status::Gone => b"Gone",
            Status::ContentTooLarge => b"Content Too Large",
            Status::UnprocessableContent => b"Unprocessable Content",
            Status::HeadTooLarge => b"Request Header Fields Too Large",
            Status::InternalServerError => b"Internal Server Error",
            Status::NotImplemented => b"Not Implemented",
            Status::ServiceUnavailable => b"Service Unavailable",
            Status::InsufficientStorage => b"Insufficient Storage",
        }
    }

    /// The status of a reply. What a call made is told apart from what was there.
    pub fn of(reply: &Reply) -> Status
        ensures { result ≡ status_of reply.now }
    {
        match reply {
            Reply::Kept { revision, .. } => Status::of_new(*revision == 1),
            Reply::BookIs { fresh, .. } => Status::of_new(*fresh),
            Reply::Placed { fresh, .. } => Status::of_new(*fresh),
            Reply::Given { .. } => Status::Ok,
            Reply::Raw(_) => Status::Ok,
            Reply::Cert(_) => Status::Ok,
            Reply::OwnerIs { .. } => Status::Ok,
            Reply::Report(_) => Status::Ok,
            Reply::OrderIs { .. } => Status::Ok,
            Reply::Withdrawn(_) => Status::Ok,
            Reply::NotOwner(_) => Status::Forbidden,
            Reply::NoSuch(_) => Status::NotFound,
            Reply::Gone(_) => Status::Gone,
            Reply::Changed(_) => Status::Conflict,
            Reply::NumberUsed(_) => Status::Conflict,
            Reply::TextRefused(_) => Status::UnprocessableContent,
            Reply::Found(_) => Status::UnprocessableContent,
            Reply::Undecided(_) => Status::UnprocessableContent,
            Reply::Limit(_) => Status::UnprocessableContent,
            Reply::Refused(_) => Status::UnprocessableContent,
            Reply::OrderFault(_) => Status::UnprocessableContent,
            Reply::StoreFault { .. } => Status::ServiceUnavailable,
            Reply::Full(_) => Status::InsufficientStorage,
            Reply::Memory => Status::InternalServerError,
        }
    }

    fn of_new(is_new: bool) -> Status
        ensures { result ≡ new_status is_new }
    {
        if is_new { Status::Created } else { Status::Ok }
    }

    /// The status of a message that asks for nothing.
    pub fn of_denied(denied: Denied) -> Status
        ensures { result ≡ denied_status denied }
    {
        match denied {
            Denied::NoPath => Status::NotFound,
            Denied::WrongMethod => Status::MethodNotAllowed,
            Denied::BadCaller => Status::BadRequest,
            Denied::BadBody => Status::BadRequest,
        }
    }

    /// The status of what is no message.
    pub fn of_refusal(refusal: Refusal) -> Status
        ensures { result ≡ bad_status refusal }
    {
        match refusal {
            Refusal::Malformed => Status::BadRequest,
            Refusal::LongBody => Status::ContentTooLarge,
            Refusal::LongHead => Status::HeadTooLarge,
            Refusal::Coded => Status::NotImplemented,
        }
    }
}

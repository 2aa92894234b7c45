//! The commands that read a book, and the sample: an input and files in, a text, a log and a status out.
#![tactic(auto)]

mod ask;
mod book_file;
mod cert_text;
mod certify;
mod changing;
mod check;
mod comparing;
mod days;
mod due;
mod fault_text;
mod free;
mod judge;
mod log;
mod logged;
mod object;
mod require;
mod run_reply;
mod run_status;
mod sample;
mod supplements;
mod tally;
mod tell;
mod why;

pub use book_file::{BookFile, read_book_file};
pub use comparing::Span;
pub use due::due_reply;
pub use log::{Note, RunLog};
pub use object::Object;
pub use run_reply::RunReply;
pub use run_status::RunStatus;
pub use sample::sample_reply;
pub use tell::{note_write_fault, tell_made, tell_usage, tell_want_of_memory};

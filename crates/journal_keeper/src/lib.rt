//! The rows of the order desk in a journal, which survives a stop at any moment.
#![tactic(auto)]

mod beginning;
mod file_journal;
mod journal;
mod keeping;
mod loading;
mod putting;
mod reading;
mod record;
mod recorded;
mod stage;
mod tables;

pub use file_journal::FileJournal;
pub use keeping::JournalKeeper;
pub use stage::Stage;

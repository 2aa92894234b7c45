//! The rows of the order desk in a file that sqlite3 reads: the statements over a connection, and a keeper over them.
#![tactic(auto)]

mod file_keeper;
mod opens;
mod reading;
mod sql_keeper;
mod stored;
mod tables;
mod writing;

pub use file_keeper::FileKeeper;
pub use opens::Opens;
pub use reading::load;
pub use sql_keeper::SqlKeeper;
pub use tables::{begin, migrate};
pub use writing::{put_book, put_draft, put_order, put_withdrawn};

//! Reads the text of a book: the whole book, or its first fault.
#![tactic(auto)]

mod construct_ids;
mod csv_rows;
mod entry;
mod fault;
mod field_ends;
mod fields;
mod group;
mod kind;
mod names;
mod partial_book;
mod plain_rows;
mod read;
mod row_reader;
mod second_pass;
mod survey;
mod text_row;
mod texts;

pub use fault::{BookFault, BookKind, Which};
pub use fields::{Days, days_in, field, is_width, name_in, part_in};
pub use read::{is_text, read_book};
pub use row_reader::RowReader;
pub use text_row::TextRow;

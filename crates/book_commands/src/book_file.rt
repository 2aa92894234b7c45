//! A book that is a file, certified.
ghost use Rattle.std.specs.Prelude.{Some};
ghost use Rattle.std.specs.Option.{option_map};
ghost use Rattle.book_commands.specs.BookFile.{IsBookFile, IsBookOf};
ghost use Rattle.book_commands.specs.Promise.{ReadsFiles};

use crate::check::kept_back_reply;
use crate::comparing::released;
use crate::judge::book_fault_reply;
use crate::object::Object;
use crate::run_reply::RunReply;
use book_text::{BookFault, BookKind};
use command_words::Budget;
use pb_base::limits::{DEFAULT_BUDGET, MOST_TEXT_BYTES};
use pb_base::{Fail, Memory};
use pb_outside::{Files, OutError};
use release::Released;
use std::alloc::Global;

/// What became of the file of a book.
#[derive(Drop)]
pub enum BookFile {
    /// Its text is a book that can be released, and this is the book.
    Released(Released),
    /// It could not be read, or its text is none: this is to be told.
    KeptBack(Result<RunReply, Memory>),
}

/// Reads the file of a book, and certifies the book with the budget that `prove` has if its words name none.
pub fn read_book_file<F: Files>(alloc: Global, file: &str, files: &mut F) -> BookFile
    ensures book { IsBookFile file.now (F.told files.old) (F.told files.new) result }
    ensures kept { ReadsFiles (F.told files.old) (F.told files.new) }
{
    let before = files.faults();
    match files.read(alloc, file, MOST_TEXT_BYTES) {
        Ok(content) => content_book(alloc, content),
        Err(OutError::Failed) => BookFile::KeptBack(RunReply::read_fault(
            alloc,
            Object::Files,
            before,
            files.faults(),
        )),
        Err(OutError::Memory) => BookFile::KeptBack(Err(Memory)),
    }
}

fn content_book(alloc: Global, content: Option<Vec<u8>>) -> BookFile
    ensures { let text = option_map (λ bytes. bytes.items) content in
        IsBookOf text result }
{
    match content {
        Some(text) => text_book(alloc, &text),
        None => BookFile::KeptBack(book_fault_reply(
            alloc,
            BookFault {
                row: 0,
                kind: BookKind::TooLarge,
            },
        )),
    }
}

fn text_book(alloc: Global, text: &[u8]) -> BookFile
    ensures { IsBookOf (Some text.now) result }
{
    match released(alloc, text, &Budget::of(DEFAULT_BUDGET)) {
        Ok(book) => BookFile::Released(book),
        Err(Fail::Refused(why)) => BookFile::KeptBack(kept_back_reply(alloc, why)),
        Err(Fail::Memory) => BookFile::KeptBack(Err(Memory)),
    }
}

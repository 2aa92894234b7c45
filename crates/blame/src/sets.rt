//! Sets of a book's codes.
ghost use Rattle.std.specs.Prelude.{◌≡◌, length, IfOk};

use book_model::Book;
use pb_base::{CodeSet, Memory};
use std::alloc::Global;

/// The set of those of the codes that are in the book.
pub(crate) fn set_of(alloc: Global, book: &Book, codes: &[u32]) -> Result<CodeSet, Memory>
    ensures { IfOk result (λ set. length set ≡ length book.now.codes) }
{
    let mut set = CodeSet::none(alloc, book.codes().len())?;
    for code in codes {
        if *code < set.len() {
            set.with(*code);
        }
    }
    Ok(set)
}

/// The set of the codes of the book that have the value true.
pub(crate) fn set_by(alloc: Global, book: &Book, values: &[bool]) -> Result<CodeSet, Memory>
    ensures { IfOk result (λ set. length set ≡ length book.now.codes) }
{
    let mut set = CodeSet::none(alloc, book.codes().len())?;
    for code in 0..set.len() {
        if values.get(code as usize) == Some(&true) {
            set.with(code);
        }
    }
    Ok(set)
}

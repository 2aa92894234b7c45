//! What is known of every value of some types. These calls do nothing.
ghost use Rattle.std.specs.Prelude.{◌≡◌, ◌<◌, ◌≤◌, ◌^◌, length, true};
ghost use Rattle.std.specs.List.{IsDistinct, list_all};
ghost use Rattle.pb_base.specs.Names.{is_code_name, same_name};
ghost use Rattle.book_model.specs.Book.{IsBook};

use crate::pieces::Pieces;
use book_model::Book;
use clause_pool::Checker;
use clausify::Coded;

/// A book meets the conditions on its records, and no two of its codes have one name.
pub(crate) fn book_laws(book: &Book)
    ensures book { IsBook book.now }
    ensures apart { IsDistinct same_name book.now.codes }
    ensures names { list_all is_code_name book.now.codes ≡ true }
{
    let codes = book.codes();
    let _names = codes.len();
}

/// The pieces of a text can be counted.
pub(crate) fn pieces_laws(texts: &Pieces)
    ensures { length texts.now ≤ 2 ^ 63 }
{
    let _is_done = texts.is_done();
}

/// The clauses of a checker can be counted.
pub(crate) fn checker_laws(checker: &Checker)
    ensures { length checker.now < 2 ^ 64 }
{
    let _count = checker.pool().len();
}

/// The variables of the clauses of a slice are counted in 32 bits.
pub(crate) fn coded_laws(coded: &Coded)
    ensures { coded.now.vars < 2 ^ 32 }
{
    let _vars = coded.vars;
}

//! The law of written books.
ghost use Rattle.std.specs.Prelude.{◌≡◌, List, Ok};
ghost use Rattle.book_text.specs.BookText.{book_of};
ghost use Rattle.book_text.specs.declared.entry.Heading.{Heading};
ghost use Rattle.book_sample.specs.Item.{Item};
ghost use Rattle.book_sample.specs.Book.{contents_of, text_of};
ghost use Rattle.book_sample.specs.Written.{IsWritten};

/// The text of a heading and records that fit reads as their book. The call does nothing.
pub fn reads_back()
    ensures { (h : Heading) (items : List Item) → IsWritten h items
        → book_of (text_of h items) ≡ Ok (contents_of h items) }
{}

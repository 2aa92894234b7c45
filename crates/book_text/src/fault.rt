//! Why a text is no book.
ghost use Rattle.std.specs.Prelude.{◌≡◌};
ghost use Rattle.book_text.specs.Fault.{kind_number};

use rule_text::RuleFault;

/// The first fault of a book's text.
#[derive(Clone, Copy, Debug, PartialEq, Eq)]
pub struct BookFault {
    /// The row of the fault, counted from 1 in the order of the text; 0 where the fault is of the text as a whole.
    pub row: u32,
    pub kind: BookKind,
}

/// What is wrong with a row, or with the text.
#[derive(Clone, Copy, Debug, PartialEq, Eq)]
pub enum BookKind {
    /// The text has more than 1,048,576 bytes.
    TooLarge,
    /// The text is no UTF-8.
    NotUtf8,
    /// The first row is no `book` record, or there is no row.
    NoBookRecord,
    /// A later row is a `book` record.
    SecondBookRecord,
    /// The first field names no kind of record.
    UnknownKind,
    /// The row has fewer fields than its kind has, or a further field that isn't empty.
    FieldCount,
    /// A field is no name of the form that it should have, or not one of the words that may stand there.
    BadName,
    /// A field is no number of 1 to 5 digits, or its value is out of range.
    BadNumber,
    /// The first day is after the last.
    BadDays,
    /// An earlier record has this name already.
    Duplicate,
    /// No record has the code, module or position that a field names.
    UnknownName,
    /// The text of the rule is no rule.
    BadRule(RuleFault),
    /// The row is one more than the format allows of its kind.
    Limit(Which),
}

/// What there are too many of.
#[derive(Clone, Copy, Debug, PartialEq, Eq)]
pub enum Which {
    Codes,
    Supplements,
    Constructs,
    Groups,
    Modules,
    Positions,
    Variants,
    /// The variants of one position.
    Choices,
}

impl BookKind {
    /// The number by which a program's output names the kind, from 1 to 13.
    pub fn number(&self) -> u32
        ensures { result ≡ kind_number self.now }
    {
        match self {
            BookKind::TooLarge => 1,
            BookKind::NotUtf8 => 2,
            BookKind::NoBookRecord => 3,
            BookKind::SecondBookRecord => 4,
            BookKind::UnknownKind => 5,
            BookKind::FieldCount => 6,
            BookKind::BadName => 7,
            BookKind::BadNumber => 8,
            BookKind::BadDays => 9,
            BookKind::Duplicate => 10,
            BookKind::UnknownName => 11,
            BookKind::BadRule(_) => 12,
            BookKind::Limit(_) => 13,
        }
    }
}

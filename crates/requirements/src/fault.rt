//! Why a text has no requirements.
ghost use Rattle.std.specs.Prelude.{◌≡◌};
ghost use Rattle.requirements.specs.Fault.{kind_number};

use book_text::BookKind;

/// The first fault of a text of requirements.
#[derive(Clone, Copy, Debug, PartialEq, Eq)]
pub struct RequirementFault {
    /// The row of the fault, counted from 1 in the order of the text; 0 where the fault is of the text as a whole.
    pub row: u32,
    pub kind: RequirementKind,
}

/// What is wrong with a row, or with the text.
#[derive(Clone, Copy, Debug, PartialEq, Eq)]
pub enum RequirementKind {
    /// What a book's text may have wrong, too. Of its kinds there come `TooLarge`, `NotUtf8`, `UnknownKind`, `FieldCount`,
    /// `BadName`, `BadNumber`, `BadDays`, `Duplicate` and `BadRule`.
    AsInBooks(BookKind),
    /// The row is one more than there may be.
    TooMany,
}

impl RequirementKind {
    /// The number by which a program's output names the kind, from 1 to 13.
    pub fn number(&self) -> u32
        ensures { result ≡ kind_number self.now }
    {
        match self {
            RequirementKind::AsInBooks(kind) => kind.number(),
            RequirementKind::TooMany => 13,
        }
    }
}

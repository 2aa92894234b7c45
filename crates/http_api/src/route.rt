//! The paths that lead somewhere.
ghost use Rattle.std.specs.Prelude.{◌≡◌};
ghost use Rattle.http_api.specs.Route.{draft_end, book_end, list_path};

use pb_base::Id;

/// Where a path leads.
#[derive(Clone, Copy)]
pub enum Route {
    /// `/drafts/NAME` and what may stand behind it.
    Draft(Id, DraftPage),
    /// `/books/N` and what may stand behind it.
    Book(u32, BookPage),
    /// `/orders/N`
    Order(u32),
    /// `/books` or `/orders`
    Listed(ListPage),
    /// `/orders/after/N`
    OrdersAfter(u32),
}

/// What a path asks of a draft.
#[derive(Clone, Copy)]
pub enum DraftPage {
    Text,
    /// `/owner`
    Owner,
    /// `/check`
    Check,
    /// `/release`
    Release,
}

/// What a path asks of a book.
#[derive(Clone, Copy)]
pub enum BookPage {
    Text,
    /// `/certificate`
    Certificate,
    /// `/withdraw`
    Withdraw,
    /// `/free`
    Free,
    /// `/why`
    Why,
}

/// What a path lists.
#[derive(Clone, Copy)]
pub enum ListPage {
    /// `/books`
    Books,
    /// `/orders`
    Orders,
}

/// A route without its name or number.
#[derive(Clone, Copy)]
pub enum Kind {
    Draft(DraftPage),
    Book(BookPage),
    Order,
    Listed(ListPage),
    OrdersAfter,
}

impl DraftPage {
    /// What stands behind the name.
    pub fn end(self) -> &'static [u8]
        ensures { result.now ≡ draft_end self }
    {
        match self {
            DraftPage::Text => b"",
            DraftPage::Owner => b"/owner",
            DraftPage::Check => b"/check",
            DraftPage::Release => b"/release",
        }
    }
}

impl BookPage {
    /// What stands behind the number.
    pub fn end(self) -> &'static [u8]
        ensures { result.now ≡ book_end self }
    {
        match self {
            BookPage::Text => b"",
            BookPage::Certificate => b"/certificate",
            BookPage::Withdraw => b"/withdraw",
            BookPage::Free => b"/free",
            BookPage::Why => b"/why",
        }
    }
}

impl ListPage {
    /// The path.
    pub fn path(self) -> &'static [u8]
        ensures { result.now ≡ list_path self }
    {
        match self {
            ListPage::Books => b"/books",
            ListPage::Orders => b"/orders",
        }
    }
}

//! What a path and a method ask for.
ghost use Rattle.std.specs.Prelude.{◌≡◌};
ghost use Rattle.http_api.specs.Request.{method_of, request_of};

use crate::route::{BookPage, DraftPage, ListPage, Route};
use desk_words::What;
use http::Method;
use pb_base::Id;
use std::alloc::Global;

/// A method that some path has, or any other.
#[derive(Clone, Copy)]
pub enum Verb {
    Get,
    Put,
    Post,
    Other,
}

/// What a path and its method ask for, before the body is looked at.
#[derive(Drop)]
pub enum Request {
    /// A call that needs no body.
    Whole(What),
    /// The body is the text of a draft.
    PutDraft(Id),
    GiveDraft(Id),
    Check(Id),
    Release(Id),
    /// What can still be chosen of the book of this number.
    Free(u32),
    /// How an order to the book of this number would be accepted.
    Why(u32),
    /// The order of this number of the caller's.
    PlaceOrder(u32),
}

impl Verb {
    /// The method of these bytes. Want of memory changes nothing: only a method that no path has takes any.
    pub fn of(alloc: Global, method: &[u8]) -> Verb
        ensures { result ≡ method_of method.now }
    {
        match Method::from_bytes(alloc, method) {
            Ok(method) => Verb::named(method.as_str().as_bytes()),
            Err(_) => Verb::Other,
        }
    }

    fn named(method: &[u8]) -> Verb
        ensures { result ≡ method_of method.now }
    {
        match method {
            b"GET" => Verb::Get,
            b"PUT" => Verb::Put,
            b"POST" => Verb::Post,
            _ => Verb::Other,
        }
    }
}

/// What a path and a method ask for, or None where the path doesn't have the method.
pub fn request_of(route: Route, verb: Verb) -> Option<Request>
    ensures { result ≡ request_of route verb }
{
    match route {
        Route::Draft(draft, page) => draft_request(draft, page, verb),
        Route::Book(book, page) => book_request(book, page, verb),
        Route::Order(number) => order_request(number, verb),
        Route::Listed(page) => list_request(page, verb),
        Route::OrdersAfter(number) => orders_after(number, verb),
    }
}

fn draft_request(draft: Id, page: DraftPage, verb: Verb) -> Option<Request>
    ensures { result ≡ request_of (Route.Draft draft page) verb }
{
    match (page, verb) {
        (DraftPage::Text, Verb::Get) => Some(Request::Whole(What::ReadDraft { draft })),
        (DraftPage::Text, Verb::Put) => Some(Request::PutDraft(draft)),
        (DraftPage::Owner, Verb::Get) => Some(Request::Whole(What::ReadOwner { draft })),
        (DraftPage::Owner, Verb::Post) => Some(Request::GiveDraft(draft)),
        (DraftPage::Check, Verb::Post) => Some(Request::Check(draft)),
        (DraftPage::Release, Verb::Post) => Some(Request::Release(draft)),
        _ => None,
    }
}

fn book_request(book: u32, page: BookPage, verb: Verb) -> Option<Request>
    ensures { result ≡ request_of (Route.Book book page) verb }
{
    match (page, verb) {
        (BookPage::Text, Verb::Get) => Some(Request::Whole(What::ReadBook { book })),
        (BookPage::Certificate, Verb::Get) => Some(Request::Whole(What::ReadCert { book })),
        (BookPage::Withdraw, Verb::Post) => Some(Request::Whole(What::Withdraw { book })),
        (BookPage::Free, Verb::Post) => Some(Request::Free(book)),
        (BookPage::Why, Verb::Post) => Some(Request::Why(book)),
        _ => None,
    }
}

fn order_request(number: u32, verb: Verb) -> Option<Request>
    ensures { result ≡ request_of (Route.Order number) verb }
{
    match verb {
        Verb::Get => Some(Request::Whole(What::ReadOrder { number })),
        Verb::Put => Some(Request::PlaceOrder(number)),
        _ => None,
    }
}

fn list_request(page: ListPage, verb: Verb) -> Option<Request>
    ensures { result ≡ request_of (Route.Listed page) verb }
{
    match (page, verb) {
        (ListPage::Books, Verb::Get) => Some(Request::Whole(What::ReadBooks)),
        (ListPage::Orders, Verb::Get) => Some(Request::Whole(What::ReadOrders { after: 0 })),
        _ => None,
    }
}

fn orders_after(number: u32, verb: Verb) -> Option<Request>
    ensures { result ≡ request_of (Route.OrdersAfter number) verb }
{
    match verb {
        Verb::Get => Some(Request::Whole(What::ReadOrders { after: number })),
        _ => None,
    }
}

//! The router that finds a path's route.
ghost use Rattle.std.specs.Prelude.{◌≡◌, ℕ, List, [], Some, IfOk, IfSome, OnOk, is_some, true};
ghost use Rattle.http_api.specs.Route.{Leads, kind_of};
ghost use Rattle.http_api.specs.Routes.{CanTake, Knows, TakesRoute, with_routes};
ghost use Rattle.http_api.specs.declared.route.Route.{Route};
ghost use Rattle.matchit.specs.Route.{parse_route};

use crate::item::{name_in, number_in};
use crate::route::{BookPage, DraftPage, Kind, ListPage, Route};
use matchit::{InsertError, Router};
use pb_base::Memory;
use std::alloc::Global;
use std::marker::Model;

/// All paths that lead somewhere, to be asked for many messages.
#[derive(Drop)]
pub struct Routes {
    router: Router<Kind>,
}

impl Model for Routes {
    ghost use Rattle.http_api.specs.Routes.{Knows};

    ghost Value = { Unit {0} };

    ghost view = { λ _. tt };

    ghost invariant = { λ r. Knows r.router };
}

impl Routes {
    /// The routes of the desk.
    pub fn new(alloc: Global) -> Result<Routes, Memory> {
        let router = full_router(alloc)?;
        Ok(Routes { router })
    }

    /// Where a path leads, or None where it leads nowhere.
    pub fn find(&self, path: &[u8]) -> Option<Route>
        ensures found { IfSome result (λ route. Leads path.now route) }
        ensures only { (route : Route) → Leads path.now route → result ≡ Some route }
    {
        let Ok(text) = str::from_utf8(path) else {
            return None;
        };
        match self.router.at(text) {
            Ok(found) => route_at(*found.value, path),
            Err(_) => None,
        }
    }
}

// The route of this kind to which a path leads.
fn route_at(kind: Kind, path: &[u8]) -> Option<Route>
    ensures found { IfSome result (λ route. Leads path.now route) }
    ensures only { (route : Route) → Leads path.now route → kind_of route ≡ kind → result ≡ Some route }
{
    match kind {
        Kind::Draft(page) => draft_at(path, page),
        Kind::Book(page) => book_at(path, page),
        Kind::Order => order_at(path),
        Kind::Listed(page) => list_at(path, page),
        Kind::OrdersAfter => orders_after(path),
    }
}

fn draft_at(path: &[u8], page: DraftPage) -> Option<Route>
    ensures found { IfSome result (λ route. Leads path.now route) }
    ensures only { (name : List ℕ) → Leads path.now (Route.Draft name page)
        → result ≡ Some (Route.Draft name page) }
{
    let name = name_in(path, b"/drafts/", page.end())?;
    Some(Route::Draft(name, page))
}

fn book_at(path: &[u8], page: BookPage) -> Option<Route>
    ensures found { IfSome result (λ route. Leads path.now route) }
    ensures only { (number : ℕ) → Leads path.now (Route.Book number page)
        → result ≡ Some (Route.Book number page) }
{
    let number = number_in(path, b"/books/", page.end())?;
    Some(Route::Book(number, page))
}

fn order_at(path: &[u8]) -> Option<Route>
    ensures found { IfSome result (λ route. Leads path.now route) }
    ensures only { (number : ℕ) → Leads path.now (Route.Order number) → result ≡ Some (Route.Order number) }
{
    let number = number_in(path, b"/orders/", b"")?;
    Some(Route::Order(number))
}

fn list_at(path: &[u8], page: ListPage) -> Option<Route>
    ensures found { IfSome result (λ route. Leads path.now route) }
    ensures only { Leads path.now (Route.Listed page) → result ≡ Some (Route.Listed page) }
{
    if path == page.path() {
        Some(Route::Listed(page))
    } else {
        None
    }
}

fn orders_after(path: &[u8]) -> Option<Route>
    ensures found { IfSome result (λ route. Leads path.now route) }
    ensures only { (number : ℕ) → Leads path.now (Route.OrdersAfter number)
        → result ≡ Some (Route.OrdersAfter number) }
{
    let number = number_in(path, b"/orders/after/", b"")?;
    Some(Route::OrdersAfter(number))
}

// A router with each route.
fn full_router(alloc: Global) -> Result<Router<Kind>, Memory>
    ensures { IfOk result (λ router. Knows router) }
{
    let mut router = Router::new(alloc);
    match add_all(&mut router) {
        Ok(()) => Ok(router),
        Err(Memory) => Err(Memory),
    }
}

// Adds each route to a router that has none.
fn add_all(router: &mut Router<Kind>) -> Result<(), Memory>
    requires { router.old ≡ [] }
    ensures { OnOk result (Knows router.new) }
{
    let routes = [
        ("/drafts/{item}", Kind::Draft(DraftPage::Text)),
        ("/drafts/{item}/owner", Kind::Draft(DraftPage::Owner)),
        ("/drafts/{item}/check", Kind::Draft(DraftPage::Check)),
        ("/drafts/{item}/release", Kind::Draft(DraftPage::Release)),
        ("/books/{item}", Kind::Book(BookPage::Text)),
        (
            "/books/{item}/certificate",
            Kind::Book(BookPage::Certificate),
        ),
        ("/books/{item}/withdraw", Kind::Book(BookPage::Withdraw)),
        ("/books/{item}/free", Kind::Book(BookPage::Free)),
        ("/books/{item}/why", Kind::Book(BookPage::Why)),
        ("/orders/{item}", Kind::Order),
        ("/books", Kind::Listed(ListPage::Books)),
        ("/orders", Kind::Listed(ListPage::Orders)),
        ("/orders/after/{item}", Kind::OrdersAfter),
    ];
    add_each(router, &routes)
}

// Adds these routes one after the other.
fn add_each(router: &mut Router<Kind>, routes: &[(&str, Kind)]) -> Result<(), Memory>
    requires { is_some (with_routes routes.now router.old) ≡ true }
    ensures { OnOk result (with_routes routes.now router.old ≡ Some router.new) }
{
    for route in routes {
        add(router, route.0, route.1)?;
    }
    Ok(())
}

fn add(router: &mut Router<Kind>, text: &str, kind: Kind) -> Result<(), Memory>
    requires { CanTake router.old (parse_route text.now) }
    ensures { OnOk result (TakesRoute router.old (parse_route text.now) kind router.new) }
{
    match router.insert(text, kind) {
        Ok(()) => Ok(()),
        Err(InsertError::OutOfMemory) => Err(Memory),
        Err(InsertError::Conflict { .. }) => unreachable!(),
        Err(InsertError::InvalidParam) => unreachable!(),
        Err(InsertError::InvalidParamSegment) => unreachable!(),
        Err(InsertError::InvalidCatchAll) => unreachable!(),
    }
}

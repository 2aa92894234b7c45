//! What may be handed from thread to thread.
use book_model::Book;
use pb_base::{Body, CodeList, Id};
use std::collections::BTreeMap;

fn is_shared<T: Send + Sync>() {}

// Books beside their texts, maps and names, as a server keeps them.
struct Shelf {
    books: Vec<Book>,
    texts: Vec<Body>,
    orders: BTreeMap<Id, CodeList>,
    drafts: BTreeMap<u32, Body>,
    name: Id,
}

#[test]
fn books_beside_maps_cross_threads(_rt: HostRuntime) {
    is_shared::<Shelf>();
}

//! Which entries a set of codes meets.
ghost use Rattle.std.specs.Prelude.{◌≡◌, length};
ghost use Rattle.pb_base.specs.Sets.{has};
ghost use Rattle.blame.specs.Entries.{meets_all, meets_entry};

use crate::entries::Entry;
use book_model::{Book, breaks, fires};
use pb_base::{CodeSet, Day};

/// Whether a set meets all these entries.
pub(crate) fn meets_all(book: &Book, day: Day, set: &CodeSet, entries: &[Entry]) -> bool
    requires { length set.now ≡ length book.now.codes }
    ensures { result ≡ meets_all book.now day set.now entries.now }
{
    entries.iter().all(|entry| meets(book, day, set, *entry))
}

/// Whether a set meets an entry.
pub(crate) fn meets(book: &Book, day: Day, set: &CodeSet, entry: Entry) -> bool
    requires { length set.now ≡ length book.now.codes }
    ensures { result ≡ meets_entry book.now day set.now entry }
{
    match entry {
        Entry::Supplement(place) => meets_supplement(book, day, set, place),
        Entry::Construct(place) => meets_construct(book, day, set, place),
        Entry::Chosen(code) => has_code(set, code),
    }
}

fn meets_supplement(book: &Book, day: Day, set: &CodeSet, place: u32) -> bool
    requires { length set.now ≡ length book.now.codes }
    ensures { result ≡ meets_entry book.now day set.now (Entry.Supplement place) }
{
    match book.supplements().get(place as usize) {
        Some(supplement) => !fires(supplement, day, set),
        None => true,
    }
}

fn meets_construct(book: &Book, day: Day, set: &CodeSet, place: u32) -> bool
    requires { length set.now ≡ length book.now.codes }
    ensures { result ≡ meets_entry book.now day set.now (Entry.Construct place) }
{
    match book.constructs().get(place as usize) {
        Some(construct) => !breaks(construct, day, set),
        None => true,
    }
}

fn has_code(set: &CodeSet, code: u32) -> bool
    ensures { result ≡ has set.now code }
{
    code < set.len() && set.has(code)
}

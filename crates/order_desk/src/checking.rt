//! The certificates of books' rows, each checked alone.
ghost use Rattle.std.specs.Prelude.{◌≡◌, ℕ, ◌<◌, length, slice_index_or};
ghost use Rattle.std.specs.List.{AllZip};
ghost use Rattle.order_desk.specs.Checked.{AreChecked, IsChecked};

use keeper::BookRow;
use pb_base::{Body, Fail};
use release::{FromFault, Released, from_cert};
use std::alloc::Global;
use std::mem::replace;
use std::thread;
use std::thread::Threads;

/// The place of a book's row while a desk is started. Once the certificate is checked the row has neither text nor certificate:
/// the release that they make has them.
#[derive(Drop)]
pub struct BookPlace {
    pub row: BookRow,
    /// What text and certificate make. It is want of memory until the certificate is checked.
    pub made: Result<Released, Fail<FromFault>>,
}

/// Checks one certificate after the other.
pub(crate) fn check_all(alloc: Global, places: &mut [BookPlace])
    ensures { AreChecked places.old places.new }
{
    for place in places.iter_mut() {
        check_one(alloc, place);
    }
}

/// Checks them by so many workers, each those of a run of neighbours.
pub(crate) fn check_by<R: Threads + Sync>(
    rt: &R,
    alloc: Global,
    places: &mut [BookPlace],
    workers: u32,
)
    requires { 0 < workers }
    ensures { AreChecked places.old places.new }
{
    check_each(rt, alloc, places, workers as usize);
}

// The same, told of each place by its number.
fn check_each<R: Threads + Sync>(rt: &R, alloc: Global, places: &mut [BookPlace], workers: usize)
    requires { 0 < workers }
    ensures same { length places.new ≡ length places.old }
    ensures each { (k : ℕ) (d : _) → k < length places.old
        → IsChecked (slice_index_or places.old k d).row (slice_index_or places.new k d) }
{
    thread::for_each_mut(
        rt,
        places,
        workers,
        &|_, place| {
            check_one(alloc, place);
        },
    );
}

// Moves text and certificate out of the row to what they make.
fn check_one(alloc: Global, place: &mut BookPlace)
    ensures { IsChecked place.old.row place.new }
{
    let text = replace(&mut place.row.text, Body::new(alloc));
    let cert = replace(&mut place.row.cert, Body::new(alloc));
    place.made = from_cert(alloc, text, cert);
}

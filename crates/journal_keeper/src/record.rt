//! A record of a journal, as it stands in the bytes of a file.

use keeper::{BookRow, DraftRow, OrderRow};
use pb_base::{Body, Memory};
use std::alloc::Global;

/// What one put set. The texts stand in the bytes of the file.
#[derive(Clone, Copy)]
pub(crate) enum Record<'a> {
    Draft {
        name: &'a [u8],
        owner: &'a [u8],
        revision: u64,
        text: &'a [u8],
    },
    Book {
        number: u64,
        draft: &'a [u8],
        revision: u64,
        text: &'a [u8],
        cert: &'a [u8],
    },
    Order {
        caller: &'a [u8],
        number: u64,
        book: u64,
        day: u64,
        codes: &'a [u8],
    },
    Withdrawn(u64),
}

//! A row of each kind: its key is a digit, and each other field hangs on what it says, another byte.

use keeper::{BookRow, DraftRow, OrderRow};
use pb_base::Body;
use std::alloc::{AllocError, Global};

fn body(alloc: Global, bytes: &[u8]) -> Result<Body, AllocError> {
    Ok(Body::of(bytes.to_vec(alloc)?))
}

pub(crate) fn draft(alloc: Global, digit: u8, says: u8) -> Result<DraftRow, AllocError> {
    Ok(DraftRow {
        name: body(alloc, &[digit])?,
        owner: body(alloc, &[b'O', says])?,
        revision: u64::from(says),
        text: body(alloc, &[says, 0, 255])?,
    })
}

pub(crate) fn is_draft(row: &DraftRow, digit: u8, says: u8) -> bool {
    row.name.as_slice() == [digit].as_slice()
        && row.owner.as_slice() == [b'O', says].as_slice()
        && row.revision == u64::from(says)
        && row.text.as_slice() == [says, 0, 255].as_slice()
}

pub(crate) fn book(alloc: Global, digit: u8, says: u8) -> Result<BookRow, AllocError> {
    Ok(BookRow {
        number: number(digit),
        draft: body(alloc, &[b'T', says])?,
        revision: u64::from(says),
        text: body(alloc, &[says])?,
        cert: body(alloc, &[says, says])?,
    })
}

pub(crate) fn is_book(row: &BookRow, digit: u8, says: u8) -> bool {
    row.number == number(digit)
        && row.draft.as_slice() == [b'T', says].as_slice()
        && row.revision == u64::from(says)
        && row.text.as_slice() == [says].as_slice()
        && row.cert.as_slice() == [says, says].as_slice()
}

pub(crate) fn order(alloc: Global, digit: u8, says: u8) -> Result<OrderRow, AllocError> {
    Ok(OrderRow {
        caller: body(alloc, &[b'H', digit])?,
        number: number(digit),
        book: u64::from(says),
        day: u64::from(says) + 1,
        codes: body(alloc, &[b'M', says, b' ', b'G'])?,
    })
}

pub(crate) fn is_order(row: &OrderRow, digit: u8, says: u8) -> bool {
    row.caller.as_slice() == [b'H', digit].as_slice()
        && row.number == number(digit)
        && row.book == u64::from(says)
        && row.day == u64::from(says) + 1
        && row.codes.as_slice() == [b'M', says, b' ', b'G'].as_slice()
}

pub(crate) fn number(digit: u8) -> u64 {
    u64::from(digit % 16)
}

//! What the tests begin with.

use keeper::{MemoryKeeper, Rows};
use order_desk::{Desk, NotStarted};
use pb_outside::{MemoryLink, MemorySink, MemorySource};
use std::alloc::Global;
use std::process::Abort;
use std::test::Fail;

/// A link by which these bytes come.
pub(crate) fn link_of(alloc: Global, stream: &[u8]) -> Result<MemoryLink, Fail> {
    let source = MemorySource::new(stream.to_vec(alloc)?, Vec::new(alloc), Vec::new(alloc));
    let sink = MemorySink::new(alloc, 10_000, Vec::new(alloc))?;
    Ok(MemoryLink::new(source, sink))
}

/// The desk of an empty store.
pub(crate) fn started<A: Abort>(rt: &A, alloc: Global) -> Desk<MemoryKeeper> {
    let rows = Rows {
        form: 0,
        drafts: Vec::new(alloc),
        books: Vec::new(alloc),
        orders: Vec::new(alloc),
        withdrawn: Vec::new(alloc),
    };
    match Desk::start(alloc, MemoryKeeper::new(rows, Vec::new(alloc)), "s.db") {
        Ok(desk) => desk,
        Err(NotStarted { .. }) => panic!(rt; "the desk starts"),
    }
}

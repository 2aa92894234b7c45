//! Rows for the tests, and a text that shows those that are loaded.
ghost use Rattle.std.specs.Prelude.{◌≡◌, [], IfOk};

use disk::MemoryDisk;
use journal_keeper::JournalKeeper;
use keeper::{BookRow, DraftRow, Keeper, OrderRow, Rows};
use pb_base::{Body, Text};
use pb_outside::OutError;
use std::alloc::Global;
use std::test::Fail;

fn body(alloc: Global, byte: u8) -> Result<Body, Fail> {
    Ok(Body::of([byte].to_vec(alloc)?))
}

// A disk in memory with room for all that the tests write.
pub(crate) fn disk(
    alloc: Global,
    content: &[u8],
    fails: &[u64],
    stop: Option<u64>,
) -> Result<MemoryDisk, Fail>
    ensures { IfOk result (λ disk. disk.calls ≡ []) }
{
    let content = content.to_vec(alloc)?;
    Ok(MemoryDisk::new(content, 4096, 100, fails.to_vec(alloc)?, stop)?)
}

/// Puts row number `step`: a draft, a book, an order, a withdrawn number, and then the same draft with another text.
pub(crate) fn put(
    alloc: Global,
    keeper: &mut JournalKeeper<MemoryDisk>,
    step: u8,
) -> Result<Result<(), OutError>, Fail> {
    Ok(match step {
        0 | 4 => keeper.put_draft(&DraftRow {
            name: body(alloc, b'T')?,
            owner: body(alloc, b'A')?,
            revision: 1,
            text: body(alloc, b'a' + step)?,
        }),
        1 => keeper.put_book(&BookRow {
            number: 1,
            draft: body(alloc, b'T')?,
            revision: 1,
            text: body(alloc, b'x')?,
            cert: body(alloc, b'y')?,
        }),
        2 => keeper.put_order(&OrderRow {
            caller: body(alloc, b'H')?,
            number: 7,
            book: 1,
            day: 40,
            codes: body(alloc, b'M')?,
        }),
        _ => keeper.put_withdrawn(1),
    })
}

/// The form, and of each row what tells it from the others.
pub(crate) fn shown(alloc: Global, rows: &Rows) -> Result<Text, Fail> {
    let mut text = Text::new(alloc);
    text.put_number(rows.form)?;
    for row in &rows.drafts {
        text.put(b" ")?;
        text.put(row.text.as_slice())?;
    }
    for row in &rows.books {
        text.put(b" ")?;
        text.put(row.cert.as_slice())?;
    }
    for row in &rows.orders {
        text.put(b" ")?;
        text.put(row.codes.as_slice())?;
    }
    for number in &rows.withdrawn {
        text.put(b" ")?;
        text.put_number(*number)?;
    }
    Ok(text)
}

/// The text of the rows that a keeper which is started on this file has.
pub(crate) fn started(alloc: Global, file: &[u8]) -> Result<Text, Fail> {
    let mut keeper = JournalKeeper::new(alloc, disk(alloc, file, &[], None)?);
    keeper.begin("")?;
    let rows = keeper.load()?;
    shown(alloc, &rows)
}

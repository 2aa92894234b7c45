//! Rows while they are gathered, in maps by their keys.
ghost use Rattle.std.specs.Prelude.{◌≡◌, [], map, IfOk, OnOk};
ghost use Rattle.std.specs.BTreeMap.{insert_entry};
ghost use Rattle.std.specs.Cmp.Lexicographic.{slice_cmp};
ghost use Rattle.std.specs.Ordering.{nat_cmp, ordering_then};
ghost use Rattle.keeper.specs.Put.{put};
ghost use Rattle.keeper.specs.Keys.{by_name, by_number, by_caller};
ghost use Rattle.keeper.specs.Rows.{kept_of, bare};
ghost use Rattle.journal_keeper.specs.Record.{effect};
ghost use Rattle.journal_keeper.specs.Reading.{entry_of};
ghost use Rattle.journal_keeper.specs.Tables.{draft_of, book_of, order_of, number_of_entry, kept_by};

use crate::record::Record;
use keeper::{BookRow, DraftRow, OrderRow, Rows};
use pb_base::{Body, Memory};
use std::alloc::Global;
use std::collections::BTreeMap;

/// What a draft has beside its name.
#[derive(Drop)]
pub(crate) struct DraftFields {
    owner: Body,
    revision: u64,
    text: Body,
}

/// What a book has beside its number.
#[derive(Drop)]
pub(crate) struct BookFields {
    draft: Body,
    revision: u64,
    text: Body,
    cert: Body,
}

/// What an order has beside its caller and its number.
#[derive(Drop)]
pub(crate) struct OrderFields {
    book: u64,
    day: u64,
    codes: Body,
}

/// The rows of the tables so far. Setting a row takes the time of a search in its table.
#[derive(Drop)]
pub(crate) struct Tables {
    drafts: BTreeMap<Vec<u8>, DraftFields>,
    books: BTreeMap<u64, BookFields>,
    orders: BTreeMap<(Vec<u8>, u64), OrderFields>,
    withdrawn: BTreeMap<u64, ()>,
}

fn body(alloc: Global, bytes: &[u8]) -> Result<Body, Memory>
    ensures { IfOk result (λ body. body ≡ bytes.now) }
{
    Ok(Body::of(Vec::from_slice(alloc, bytes)?))
}

impl Tables {
    /// No rows.
    pub(crate) fn new(alloc: Global) -> Tables
        ensures { kept_by result ≡ bare 2 }
    {
        Tables {
            drafts: BTreeMap::new(alloc),
            books: BTreeMap::new(alloc),
            orders: BTreeMap::new(alloc),
            withdrawn: BTreeMap::new(alloc),
        }
    }

    /// Sets what a record sets.
    pub(crate) fn set(&mut self, alloc: Global, read: Record<'_>) -> Result<(), Memory>
        ensures { OnOk result (kept_by self.new ≡ effect (entry_of read.entry) (kept_by self.old)) }
    {
        match read {
            Record::Draft {
                name,
                owner,
                revision,
                text,
            } => set_draft(alloc, &mut self.drafts, name, owner, revision, text),
            Record::Book {
                number,
                draft,
                revision,
                text,
                cert,
            } => set_book(alloc, &mut self.books, number, draft, revision, text, cert),
            Record::Order {
                caller,
                number,
                book,
                day,
                codes,
            } => set_order(alloc, &mut self.orders, caller, number, book, day, codes),
            Record::Withdrawn(number) => set_withdrawn(&mut self.withdrawn, number),
        }
    }

    /// The rows, in the order of their keys.
    pub(crate) fn into_rows(self, alloc: Global) -> Result<Rows, Memory>
        ensures { IfOk result (λ rows. kept_of rows ≡ kept_by self) }
    {
        Ok(Rows {
            form: 2,
            drafts: drafts_of(alloc, self.drafts)?,
            books: books_of(alloc, self.books)?,
            orders: orders_of(alloc, self.orders)?,
            withdrawn: withdrawn_of(alloc, self.withdrawn)?,
        })
    }
}

#[tactic(auto, using(crate::proofs::Sets::draft_set))]
fn set_draft(
    alloc: Global,
    table: &mut BTreeMap<Vec<u8>, DraftFields>,
    name: &[u8],
    owner: &[u8],
    revision: u64,
    text: &[u8],
) -> Result<(), Memory>
    ensures { OnOk result (map draft_of table.new.entries ≡ put by_name (record {
      name = name.now;
      owner = owner.now;
      revision = revision;
      text = text.now;
    }) (map draft_of table.old.entries)) }
{
    let name = Vec::from_slice(alloc, name)?;
    let fields = DraftFields {
        owner: body(alloc, owner)?,
        revision,
        text: body(alloc, text)?,
    };
    table.insert(name, fields)?;
    Ok(())
}

#[tactic(auto, using(crate::proofs::Sets::book_set))]
fn set_book(
    alloc: Global,
    table: &mut BTreeMap<u64, BookFields>,
    number: u64,
    draft: &[u8],
    revision: u64,
    text: &[u8],
    cert: &[u8],
) -> Result<(), Memory>
    ensures { OnOk result (map book_of table.new.entries ≡ put by_number (record {
      number = number;
      draft = draft.now;
      revision = revision;
      text = text.now;
      cert = cert.now;
    }) (map book_of
        table.old.entries)) }
{
    let fields = BookFields {
        draft: body(alloc, draft)?,
        revision,
        text: body(alloc, text)?,
        cert: body(alloc, cert)?,
    };
    table.insert(number, fields)?;
    Ok(())
}

#[tactic(auto, using(crate::proofs::Sets::order_set))]
fn set_order(
    alloc: Global,
    table: &mut BTreeMap<(Vec<u8>, u64), OrderFields>,
    caller: &[u8],
    number: u64,
    book: u64,
    day: u64,
    codes: &[u8],
) -> Result<(), Memory>
    ensures { OnOk result (map order_of table.new.entries ≡ put by_caller (record {
      caller = caller.now;
      number = number;
      book = book;
      day = day;
      codes = codes.now;
    }) (map order_of table.old.entries)) }
{
    let caller = Vec::from_slice(alloc, caller)?;
    let fields = OrderFields {
        book,
        day,
        codes: body(alloc, codes)?,
    };
    table.insert((caller, number), fields)?;
    Ok(())
}

#[tactic(auto, using(crate::proofs::Sets::withdrawn_set))]
fn set_withdrawn(table: &mut BTreeMap<u64, ()>, number: u64) -> Result<(), Memory>
    ensures { OnOk result (map number_of_entry table.new.entries
        ≡ put nat_cmp number (map number_of_entry table.old.entries)) }
{
    table.insert(number, ())?;
    Ok(())
}

fn drafts_of(
    alloc: Global,
    mut table: BTreeMap<Vec<u8>, DraftFields>,
) -> Result<Vec<DraftRow>, Memory>
    ensures { IfOk result (λ rows. rows.items ≡ map draft_of table.entries) }
{
    let mut rows = Vec::with_capacity(alloc, table.len())?;
    while let Some((name, fields)) = table.pop_first() {
        rows.push(DraftRow {
            name: Body::of(name),
            owner: fields.owner,
            revision: fields.revision,
            text: fields.text,
        })?;
    }
    Ok(rows)
}

fn books_of(alloc: Global, mut table: BTreeMap<u64, BookFields>) -> Result<Vec<BookRow>, Memory>
    ensures { IfOk result (λ rows. rows.items ≡ map book_of table.entries) }
{
    let mut rows = Vec::with_capacity(alloc, table.len())?;
    while let Some((number, fields)) = table.pop_first() {
        rows.push(BookRow {
            number,
            draft: fields.draft,
            revision: fields.revision,
            text: fields.text,
            cert: fields.cert,
        })?;
    }
    Ok(rows)
}

fn orders_of(
    alloc: Global,
    mut table: BTreeMap<(Vec<u8>, u64), OrderFields>,
) -> Result<Vec<OrderRow>, Memory>
    ensures { IfOk result (λ rows. rows.items ≡ map order_of table.entries) }
{
    let mut rows = Vec::with_capacity(alloc, table.len())?;
    while let Some(((caller, number), fields)) = table.pop_first() {
        rows.push(OrderRow {
            caller: Body::of(caller),
            number,
            book: fields.book,
            day: fields.day,
            codes: fields.codes,
        })?;
    }
    Ok(rows)
}

fn withdrawn_of(alloc: Global, mut table: BTreeMap<u64, ()>) -> Result<Vec<u64>, Memory>
    ensures { IfOk result (λ numbers. numbers.items ≡ map number_of_entry table.entries) }
{
    let mut numbers = Vec::with_capacity(alloc, table.len())?;
    while let Some((number, _)) = table.pop_first() {
        numbers.push(number)?;
    }
    Ok(numbers)
}

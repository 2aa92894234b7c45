//! The writes of the keeper. Each makes its room first, then writes one row, and then changes what the desk keeps, which takes no
//! memory. An error leaves all as it was.
ghost use Rattle.std.specs.Prelude.{◌≡◌, ◌+◌, ◌-◌, ◌<◌, ◌≤◌, ◌∷◌, ◌++◌, [], IfOk, OnOk, OnErr, Ok, Err, Some, true, length, slice_get, slice_set};
ghost use Rattle.std.specs.List.{flat_map};
ghost use Rattle.std.specs.Option.{option_map};
ghost use Rattle.std.specs.BTreeMap.{insert_entry};
ghost use Rattle.pb_outside.specs.declared.error.OutError.TheVariants as OutError;
ghost use Rattle.keeper.specs.Causes.{HasCause};
ghost use Rattle.keeper.specs.Rows as kept;
ghost use Rattle.order_desk.specs.Rows.{book_row, draft_row, order_row, codes_text};
ghost use Rattle.order_desk.specs.Tables.{by_key, by_name};
ghost use Rattle.order_desk.specs.Writing.{IsOneCall};
ghost use Rattle.order_desk.specs.declared.kept_book.KeptBook.{KeptBook};

use crate::draft::NewDraft;
use crate::kept_book::BookToKeep;
use crate::{Draft, KeptBook, OrderKey, SharedText};
use desk_words::OrderWords;
use keeper::{BookRow, DraftRow, Keeper, OrderRow};
use pb_base::{Body, CodeName, Id, Memory, Text};
use pb_outside::OutError;
use std::alloc::Global;
use std::collections::BTreeMap;
use std::collections::btree_map::Entry;
use std::sync::Arc;

/// The bytes as a body of their own.
pub(crate) fn body_of(alloc: Global, bytes: &[u8]) -> Result<Body, Memory>
    ensures { IfOk result (λ body. body ≡ bytes.now) }
{
    let bytes = Vec::from_slice(alloc, bytes)?;
    Ok(Body::of(bytes))
}

/// Two texts as bodies of their own.
pub(crate) fn bodies_of(alloc: Global, first: &[u8], second: &[u8]) -> Result<(Body, Body), Memory>
    ensures { IfOk result (λ bodies. (bodies.0 ≡ first.now) × (bodies.1 ≡ second.now)) }
{
    let first = body_of(alloc, first)?;
    match body_of(alloc, second) {
        Ok(second) => Ok((first, second)),
        Err(Memory) => Err(Memory),
    }
}

/// Keeps a draft under its name.
pub(crate) fn write_draft<P: Keeper>(
    alloc: Global,
    drafts: &mut BTreeMap<Id, Draft>,
    keeper: &mut P,
    name: Id,
    draft: NewDraft,
) -> Result<(), OutError>
    ensures done { OnOk result (drafts.new.entries ≡ insert_entry by_name drafts.old.entries name draft) }
    ensures told { OnOk result (P.told keeper.new
        ≡ option_map (kept.with_draft (draft_row (name, draft))) (P.told keeper.old)) }
    ensures unchanged { OnErr result (drafts.new.entries ≡ drafts.old.entries) }
    ensures untold { OnErr result (P.told keeper.new ≡ P.told keeper.old) }
    ensures count { HasCause result (P.failures keeper.old) (P.failures keeper.new) }
    ensures once { IsOneCall result (P.calls keeper.old) (P.calls keeper.new) }
{
    let entry = drafts.entry(name)?;
    match write_draft_row(alloc, keeper, &name, draft) {
        Ok(draft) => {
            entry.insert_entry(draft);
            Ok(())
        }
        Err(error) => match entry {
            Entry::Vacant(_) => Err(error),
            Entry::Occupied(_) => Err(error),
        },
    }
}

// Writes the row of a draft, and gives the draft, whose text stays in the row.
fn write_draft_row<P: Keeper>(
    alloc: Global,
    keeper: &mut P,
    name: &Id,
    draft: NewDraft,
) -> Result<Draft, OutError>
    ensures same { IfOk result (λ same. same ≡ draft) }
    ensures told { OnOk result (P.told keeper.new
        ≡ option_map (kept.with_draft (draft_row (name.now, draft))) (P.told keeper.old)) }
    ensures untold { OnErr result (P.told keeper.new ≡ P.told keeper.old) }
    ensures count { HasCause result (P.failures keeper.old) (P.failures keeper.new) }
    ensures once { IsOneCall result (P.calls keeper.old) (P.calls keeper.new) }
{
    let owner = draft.owner;
    let revision = draft.revision;
    let row = row_of_draft(alloc, name, draft)?;
    keeper.put_draft(&row)?;
    Ok(Draft {
        owner,
        revision,
        text: SharedText::of(row),
    })
}

/// A draft that stood in a store, with its text in a row that it can share.
pub(crate) fn shared_draft(alloc: Global, name: &Id, draft: NewDraft) -> Result<Draft, Memory>
    ensures { IfOk result (λ same. same ≡ draft) }
{
    let owner = draft.owner;
    let revision = draft.revision;
    let row = row_of_draft(alloc, name, draft)?;
    Ok(Draft {
        owner,
        revision,
        text: SharedText::of(row),
    })
}

// The row of a draft, with the draft's own text.
fn row_of_draft(alloc: Global, name: &Id, draft: NewDraft) -> Result<Arc<DraftRow>, Memory>
    ensures { IfOk result (λ row. row.value ≡ draft_row (name.now, draft)) }
{
    match bodies_of(alloc, name.bytes(), draft.owner.bytes()) {
        Ok((name, owner)) => {
            let row = DraftRow {
                name,
                owner,
                revision: u64::from(draft.revision),
                text: draft.text,
            };
            Ok(Arc::new(alloc, row)?)
        }
        Err(Memory) => Err(Memory),
    }
}

/// Keeps a book behind the others, under the next number.
pub(crate) fn write_book<P: Keeper>(
    alloc: Global,
    books: &mut Vec<KeptBook>,
    keeper: &mut P,
    book: BookToKeep,
) -> Result<(), OutError>
    ensures done { OnOk result (books.new.items ≡ books.old.items ++ book ∷ []) }
    ensures told { OnOk result (P.told keeper.new
        ≡ option_map (kept.with_book (book_row (length books.old.items + 1) book)) (P.told keeper.old)) }
    ensures unchanged { OnErr result (books.new.items ≡ books.old.items) }
    ensures untold { OnErr result (P.told keeper.new ≡ P.told keeper.old) }
    ensures count { HasCause result (P.failures keeper.old) (P.failures keeper.new) }
    ensures once { IsOneCall result (P.calls keeper.old) (P.calls keeper.new) }
{
    books.reserve(1)?;
    match write_book_row(alloc, keeper, books.len() as u64 + 1, book) {
        Ok(book) => {
            books.push_reserved(book);
            Ok(())
        }
        Err(error) => Err(error),
    }
}

// Writes the row of the book of this number, and gives the book without the texts of the row.
fn write_book_row<P: Keeper>(
    alloc: Global,
    keeper: &mut P,
    number: u64,
    book: BookToKeep,
) -> Result<KeptBook, OutError>
    ensures same { IfOk result (λ same. same ≡ book) }
    ensures told { OnOk result (P.told keeper.new
        ≡ option_map (kept.with_book (book_row number book)) (P.told keeper.old)) }
    ensures untold { OnErr result (P.told keeper.new ≡ P.told keeper.old) }
    ensures count { HasCause result (P.failures keeper.old) (P.failures keeper.new) }
    ensures once { IsOneCall result (P.calls keeper.old) (P.calls keeper.new) }
{
    let (book, row) = row_of_book(alloc, number, book)?;
    keeper.put_book(&row)?;
    Ok(book)
}

// The book, and its row with the texts that were copied for it.
fn row_of_book(alloc: Global, number: u64, book: BookToKeep) -> Result<(KeptBook, BookRow), Memory>
    ensures same { IfOk result (λ both. both.0 ≡ book) }
    ensures row { IfOk result (λ both. both.1 ≡ book_row number book) }
{
    let BookToKeep {
        draft,
        revision,
        released,
    } = book;
    match body_of(alloc, draft.bytes()) {
        Ok(name) => {
            let (released, text, cert) = released.into_parts();
            let row = BookRow {
                number,
                draft: name,
                revision: u64::from(revision),
                text,
                cert,
            };
            let kept = KeptBook {
                draft,
                revision,
                released,
                withdrawn: false,
            };
            Ok((kept, row))
        }
        Err(Memory) => Err(Memory),
    }
}

/// Puts the book at a place, counted from 0, out of force.
pub(crate) fn write_withdrawn<P: Keeper>(
    books: &mut Vec<KeptBook>,
    keeper: &mut P,
    place: usize,
) -> Result<(), OutError>
    requires { place < length books.old.items }
    ensures done { OnOk result ((book : KeptBook) → slice_get books.old.items place ≡ Some book
        → books.new.items ≡ slice_set books.old.items place (record book { withdrawn = true })) }
    ensures told { OnOk result (P.told keeper.new
        ≡ option_map (kept.with_withdrawn (place + 1)) (P.told keeper.old)) }
    ensures unchanged { OnErr result (books.new.items ≡ books.old.items) }
    ensures untold { OnErr result (P.told keeper.new ≡ P.told keeper.old) }
    ensures count { HasCause result (P.failures keeper.old) (P.failures keeper.new) }
    ensures once { IsOneCall result (P.calls keeper.old) (P.calls keeper.new) }
{
    keeper.put_withdrawn(place as u64 + 1)?;
    books[place].withdrawn = true;
    Ok(())
}

/// Keeps an order under its caller and number.
pub(crate) fn write_order<P: Keeper>(
    alloc: Global,
    orders: &mut BTreeMap<OrderKey, OrderWords>,
    keeper: &mut P,
    key: OrderKey,
    order: OrderWords,
) -> Result<(), OutError>
    ensures done { OnOk result (orders.new.entries ≡ insert_entry by_key orders.old.entries key order) }
    ensures told { OnOk result (P.told keeper.new
        ≡ option_map (kept.with_order (order_row (key, order))) (P.told keeper.old)) }
    ensures unchanged { OnErr result (orders.new.entries ≡ orders.old.entries) }
    ensures untold { OnErr result (P.told keeper.new ≡ P.told keeper.old) }
    ensures count { HasCause result (P.failures keeper.old) (P.failures keeper.new) }
    ensures once { IsOneCall result (P.calls keeper.old) (P.calls keeper.new) }
{
    let entry = orders.entry(key)?;
    match write_order_row(alloc, keeper, &key, &order) {
        Ok(()) => {
            entry.insert_entry(order);
            Ok(())
        }
        Err(error) => match entry {
            Entry::Vacant(_) => Err(error),
            Entry::Occupied(_) => Err(error),
        },
    }
}

// Writes the row of an order.
fn write_order_row<P: Keeper>(
    alloc: Global,
    keeper: &mut P,
    key: &OrderKey,
    order: &OrderWords,
) -> Result<(), OutError>
    ensures told { OnOk result (P.told keeper.new
        ≡ option_map (kept.with_order (order_row (key.now, order.now))) (P.told keeper.old)) }
    ensures untold { OnErr result (P.told keeper.new ≡ P.told keeper.old) }
    ensures count { HasCause result (P.failures keeper.old) (P.failures keeper.new) }
    ensures once { IsOneCall result (P.calls keeper.old) (P.calls keeper.new) }
{
    let row = row_of_order(alloc, key, order)?;
    keeper.put_order(&row)
}

fn row_of_order(alloc: Global, key: &OrderKey, order: &OrderWords) -> Result<OrderRow, Memory>
    ensures { IfOk result (λ row. row ≡ order_row (key.now, order.now)) }
{
    let caller = body_of(alloc, key.caller.bytes())?;
    match codes_body(alloc, order.codes.as_slice()) {
        Ok(codes) => Ok(OrderRow {
            caller,
            number: u64::from(key.number),
            book: u64::from(order.book),
            day: u64::from(order.day),
            codes,
        }),
        Err(Memory) => Err(Memory),
    }
}

// The codes of an order, parted by one space.
fn codes_body(alloc: Global, codes: &[CodeName]) -> Result<Body, Memory>
    ensures { IfOk result (λ body. body ≡ codes_text codes.now) }
{
    let mut text = Text::new(alloc);
    if let [first, others @ ..] = codes {
        text.put(first.bytes())?;
        put_others(&mut text, others)?;
    }
    Ok(text.into_body())
}

// Puts codes behind a text that ends by one, each after a space.
fn put_others(text: &mut Text, codes: &[CodeName]) -> Result<(), Memory>
    ensures { OnOk result (text.new ≡ text.old ++ flat_map (λ code. 32 ∷ code) codes.now) }
{
    for code in codes {
        text.put(b" ")?;
        text.put(code.bytes())?;
    }
    Ok(())
}

//! The lines that tell how an order would be accepted.
ghost use Rattle.std.specs.Prelude.{◌≡◌, ◌++◌, ◌∷◌, [], IfOk, OnOk};
ghost use Rattle.std.specs.List.{flat_map, list_all};
ghost use Rattle.blame.specs.AskText.{entry_behind, how_blamed};
ghost use Rattle.order_repair.specs.RepairText.{add_text, added_line, change_text, clash_text, code_in, codes_text, leave_text, name_behind, rule_behind, set_at, with_code};

use crate::answer::Change;
use blame::{Blamed, Entry, put_entries};
use book_model::{Book, position_id};
use parts_usage::Unfit;
use pb_base::{CodeName, CodeSet, Memory, Text, put_names, put_number};
use std::alloc::Global;
use supplement::Added;

/// Puts `adds CODE by ENTRY` behind a text.
pub(crate) fn put_added(text: &mut Text, book: &Book, added: Added) -> Result<(), Memory>
    ensures { OnOk result (text.new ≡ text.old ++ added_line book.now added) }
{
    text.put(b"adds")?;
    put_entry(text, book, Entry::Chosen(added.code))?;
    text.put(b" by")?;
    put_entry(text, book, Entry::Supplement(added.rule))?;
    text.put(b"\n")
}

/// Puts `clash CODE .. by ENTRY ..` behind a text.
pub(crate) fn put_clash(
    alloc: Global,
    text: &mut Text,
    book: &Book,
    clash: &Blamed,
) -> Result<(), Memory>
    ensures { OnOk result (text.new ≡ text.old ++ clash_text book.now clash.now) }
{
    text.put(b"clash")?;
    let codes = codes_in(alloc, &clash.entries)?;
    put_codes(alloc, text, book, &codes)?;
    text.put(how_blamed(&clash.needed))?;
    put_rules(text, book, &clash.entries)?;
    text.put(b"\n")
}

// ` by` where each entry is known to be needed, else ` within`.
fn how_blamed(needed: &[bool]) -> &'static [u8]
    ensures { result.now ≡ how_blamed needed.now }
{
    if are_needed(needed) {
        b" by"
    } else {
        b" within"
    }
}

fn are_needed(needed: &[bool]) -> bool
    ensures { result ≡ list_all (λ is_needed. is_needed) needed.now }
{
    needed.iter().all(|is_needed| *is_needed)
}

/// Puts `leave CODE ..` behind a text, where there are some.
pub(crate) fn put_leave(
    alloc: Global,
    text: &mut Text,
    book: &Book,
    left: &[u32],
) -> Result<(), Memory>
    ensures { OnOk result (text.new ≡ text.old ++ leave_text book.now left.now) }
{
    if left.is_empty() {
        return Ok(());
    }
    text.put(b"leave")?;
    put_codes(alloc, text, book, left)?;
    text.put(b"\n")
}

/// Puts `add CODE ..` behind a text, where there are some, or `unfit POSITION COUNT with CODE ..`.
pub(crate) fn put_change(text: &mut Text, book: &Book, change: &Change) -> Result<(), Memory>
    ensures { OnOk result (text.new ≡ text.old ++ change_text book.now change.now) }
{
    match change {
        Change::Add(added) => put_add(text, added),
        Change::Unfit { car, unfit } => put_unfit(text, book, car, unfit),
    }
}

fn put_add(text: &mut Text, added: &[CodeName]) -> Result<(), Memory>
    ensures { OnOk result (text.new ≡ text.old ++ add_text added.now) }
{
    if added.is_empty() {
        return Ok(());
    }
    text.put(b"add")?;
    put_each(text, added)?;
    text.put(b"\n")
}

fn put_each(text: &mut Text, names: &[CodeName]) -> Result<(), Memory>
    ensures { OnOk result (text.new ≡ text.old ++ flat_map name_behind names.now) }
{
    for name in names {
        put_name(text, name)?;
    }
    Ok(())
}

fn put_name(text: &mut Text, name: &CodeName) -> Result<(), Memory>
    ensures { OnOk result (text.new ≡ text.old ++ name_behind name.now) }
{
    text.put(b" ")?;
    text.put(name.bytes())
}

fn put_unfit(text: &mut Text, book: &Book, car: &CodeSet, unfit: &Unfit) -> Result<(), Memory>
    ensures { OnOk result (text.new ≡ text.old ++ change_text book.now (Change.Unfit car.now unfit.now)) }
{
    text.put(b"unfit ")?;
    text.put(position_id(book, unfit.position))?;
    put_number(text, u64::from(unfit.count))?;
    text.put(b" with")?;
    put_names(text, book.codes(), car)?;
    text.put(b"\n")
}

// The chosen codes among entries.
fn codes_in(alloc: Global, entries: &[Entry]) -> Result<Vec<u32>, Memory>
    ensures { IfOk result (λ codes. codes.items ≡ flat_map code_in entries.now) }
{
    let mut codes = Vec::new(alloc);
    for entry in entries {
        put_code(&mut codes, *entry)?;
    }
    Ok(codes)
}

fn put_code(codes: &mut Vec<u32>, entry: Entry) -> Result<(), Memory>
    ensures { OnOk result (codes.new.items ≡ codes.old.items ++ code_in entry) }
{
    match entry {
        Entry::Supplement(_) | Entry::Construct(_) => {}
        Entry::Chosen(code) => codes.push(code)?,
    }
    Ok(())
}

// The rules among entries, each behind a space.
fn put_rules(text: &mut Text, book: &Book, entries: &[Entry]) -> Result<(), Memory>
    ensures { OnOk result (text.new ≡ text.old ++ flat_map (rule_behind book.now) entries.now) }
{
    for entry in entries {
        put_rule(text, book, *entry)?;
    }
    Ok(())
}

fn put_rule(text: &mut Text, book: &Book, entry: Entry) -> Result<(), Memory>
    ensures { OnOk result (text.new ≡ text.old ++ rule_behind book.now entry) }
{
    match entry {
        Entry::Supplement(_) => put_entry(text, book, entry),
        Entry::Construct(_) => put_entry(text, book, entry),
        Entry::Chosen(_) => Ok(()),
    }
}

fn put_entry(text: &mut Text, book: &Book, entry: Entry) -> Result<(), Memory>
    ensures { OnOk result (text.new ≡ text.old ++ entry_behind book.now entry) }
{
    put_entries(text, book, &[entry])
}

// The names of the codes at these places, each behind a space and in record order.
fn put_codes(alloc: Global, text: &mut Text, book: &Book, places: &[u32]) -> Result<(), Memory>
    ensures { OnOk result (text.new ≡ text.old ++ codes_text book.now places.now) }
{
    let codes = book.codes();
    let set = set_at(alloc, codes.len(), places)?;
    put_names(text, codes, &set)
}

fn set_at(alloc: Global, n: u32, places: &[u32]) -> Result<CodeSet, Memory>
    ensures { IfOk result (λ set. set ≡ set_at n places.now) }
{
    let mut set = CodeSet::none(alloc, n)?;
    for place in places {
        with_code(&mut set, *place);
    }
    Ok(set)
}

fn with_code(set: &mut CodeSet, code: u32)
    ensures { set.new ≡ with_code set.old code }
{
    if code < set.len() {
        set.with(code);
    }
}

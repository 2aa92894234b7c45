//! The answer to whether a car meets a rule.
ghost use Rattle.std.specs.Prelude.{◌≡◌, ◌++◌, IfOk, OnOk};
ghost use Rattle.std.specs.List.{flat_map, list_all};
ghost use Rattle.blame.specs.AskText.{entry_name, entry_behind, how_blamed, told_text, ask_text};

use crate::blamed::{Blamed, Told};
use crate::entries::Entry;
use book_model::{Book, code_name, construct_id, supplement_id};
use pb_base::{Body, Memory, Text, put_names, put_number};
use std::alloc::Global;

/// `car CODE ..`, `none by ENTRY ..`, `none within ENTRY ..` where the need of some entry wasn't decided, or `undecided after N`.
pub fn ask_text(alloc: Global, book: &Book, told: &Told) -> Result<Body, Memory>
    ensures { IfOk result (λ text. text ≡ ask_text book.now told.now) }
{
    let mut text = Text::new(alloc);
    put_told(&mut text, book, told)?;
    text.put(b"\n")?;
    Ok(text.into_body())
}

fn put_told(text: &mut Text, book: &Book, told: &Told) -> Result<(), Memory>
    ensures { OnOk result (text.new ≡ text.old ++ told_text book.now told.now) }
{
    match told {
        Told::Car(car) => {
            text.put(b"car")?;
            put_names(text, book.codes(), car)
        }
        Told::NoCar(blamed) => put_blamed(text, book, blamed),
        Told::Undecided(learnt) => {
            text.put(b"undecided after")?;
            put_number(text, learnt.len() as u64)
        }
    }
}

fn put_blamed(text: &mut Text, book: &Book, blamed: &Blamed) -> Result<(), Memory>
    ensures { OnOk result (text.new ≡ text.old ++ told_text book.now (Told.NoCar blamed.now)) }
{
    text.put(b"none")?;
    text.put(how_blamed(&blamed.needed))?;
    put_entries(text, book, &blamed.entries)
}

// ` by` where each entry is known to be needed, else ` within`.
fn how_blamed(needed: &[bool]) -> &[u8]
    ensures { result.now ≡ how_blamed needed.now }
{
    if are_needed(needed) {
        b" by"
    } else {
        b" within"
    }
}

fn are_needed(needed: &[bool]) -> bool
    ensures { result ≡ list_all (λ is_needed. is_needed) needed.now }
{
    needed.iter().all(|is_needed| *is_needed)
}

/// Puts the ids of rules and the names of codes behind a text, each behind a space.
pub fn put_entries(text: &mut Text, book: &Book, entries: &[Entry]) -> Result<(), Memory>
    ensures { OnOk result (text.new ≡ text.old ++ flat_map (entry_behind book.now) entries.now) }
{
    for entry in entries {
        put_entry(text, book, *entry)?;
    }
    Ok(())
}

fn put_entry(text: &mut Text, book: &Book, entry: Entry) -> Result<(), Memory>
    ensures { OnOk result (text.new ≡ text.old ++ entry_behind book.now entry) }
{
    text.put(b" ")?;
    text.put(entry_name(book, entry))
}

// No bytes where the book has no such record or code.
fn entry_name(book: &Book, entry: Entry) -> &[u8]
    ensures { result.now ≡ entry_name book.now entry }
{
    match entry {
        Entry::Supplement(place) => supplement_id(book, place),
        Entry::Construct(place) => construct_id(book, place),
        Entry::Chosen(code) => code_name(book, code),
    }
}

//! Both bodies of completing, over rules that are drawn.
ghost use Rattle.std.specs.Prelude.{◌≡◌, IfOk, length};

use book_model::Book;
use book_text::read_book;
use pb_base::{CodeSet, Memory, Text};
use std::alloc::Global;
use std::test::Fail;
use supplement::{Completed, Completer, complete_plainly};

// Six codes, and eight rules that are drawn from a number.
fn put_book(text: &mut Text, seed: u32) -> Result<(), Memory> {
    text.put(b"book,S,1,2\ncode,A,\ncode,B,\ncode,C,\ncode,D,\ncode,E,\ncode,F,\n")?;
    let mut draw = seed;
    for place in 0..8u32 {
        draw = draw.wrapping_mul(1664525).wrapping_add(1013904223 + place);
        put_rule(text, place, draw / 65536)?;
    }
    Ok(())
}

// A rule of one of three ranks, over two codes, and active on day 1 as three of four are.
fn put_rule(text: &mut Text, place: u32, draw: u32) -> Result<(), Memory> {
    text.put(b"supplement,S")?;
    text.put_number(u64::from(place))?;
    text.put(b",")?;
    text.put_number(u64::from(draw / 144 % 3))?;
    text.put(b",")?;
    put_code(text, draw / 432 % 6)?;
    text.put(b",")?;
    put_code(text, draw / 4 % 6)?;
    text.put(joined_by(draw % 4))?;
    put_code(text, draw / 24 % 6)?;
    text.put(b",")?;
    text.put_number(u64::from(1 + draw / 2592 % 4 / 3))?;
    text.put(b",2\n")
}

fn put_code(text: &mut Text, code: u32) -> Result<(), Memory> {
    match code {
        0 => text.put(b"A"),
        1 => text.put(b"B"),
        2 => text.put(b"C"),
        3 => text.put(b"D"),
        4 => text.put(b"E"),
        _ => text.put(b"F"),
    }
}

fn joined_by(shape: u32) -> &'static [u8] {
    match shape {
        0 => b"/",
        1 => b"+",
        2 => b"+-",
        _ => b"/-",
    }
}

fn drawn_book(alloc: Global, seed: u32) -> Result<Book, Fail> {
    let mut text = Text::new(alloc);
    put_book(&mut text, seed)?;
    match read_book(alloc, text.bytes()) {
        Ok(book) => Ok(book),
        Err(_) => Err(Fail::from("a book")),
    }
}

// An order of one code, or of none where the book has no such code.
fn ordered(alloc: Global, book: &Book, code: u32) -> Result<CodeSet, Memory>
    ensures { IfOk result (λ set. length set ≡ length book.now.codes) }
{
    let mut set = CodeSet::none(alloc, book.codes().len())?;
    if code < set.len() {
        set.with(code);
    }
    Ok(set)
}

fn completed_slowly(alloc: Global, book: &Book, code: u32) -> Result<Completed, Memory> {
    complete_plainly(alloc, book, 1, ordered(alloc, book, code)?)
}

fn completed_quickly(alloc: Global, book: &Book, code: u32) -> Result<Completed, Memory> {
    let set = ordered(alloc, book, code)?;
    Completer::new(alloc, book, 1)?.complete(alloc, set)
}

fn are_same(slow: &Completed, fast: &Completed) -> bool {
    if slow.set.len() != fast.set.len() {
        return false;
    }
    for code in 0..slow.set.len() {
        if slow.set.has(code) != fast.set.has(code) {
            return false;
        }
    }
    slow.added.as_slice() == fast.added.as_slice()
}

// How many codes an order of one code grows by, if both bodies agree.
fn growth(alloc: Global, book: &Book, code: u32) -> Result<Option<usize>, Memory> {
    let slow = completed_slowly(alloc, book, code)?;
    let fast = completed_quickly(alloc, book, code)?;
    Ok(if are_same(&slow, &fast) {
        Some(fast.added.as_slice().len())
    } else {
        None
    })
}

// The most that such an order grows by, if both bodies agree on each.
fn most_growth(alloc: Global, book: &Book) -> Result<Option<usize>, Memory> {
    let mut most = 0;
    for code in 0..6u32 {
        match growth(alloc, book, code)? {
            Some(count) => most = most.max(count),
            None => return Ok(None),
        }
    }
    Ok(Some(most))
}

fn drawn_growth(alloc: Global, seed: u32) -> Result<usize, Fail> {
    let book = drawn_book(alloc, seed)?;
    let most = most_growth(alloc, &book)?;
    Ok(most.ok_or("the bodies differ")?)
}

#[test]
fn both_bodies_agree_on_drawn_rules(rt: HostRuntime) -> Result<(), Fail> {
    let mut most = 0;
    for seed in 0..150u32 {
        most = most.max(drawn_growth(rt.alloc(), seed)?);
    }
    assert!(rt; most >= 4, "some order grows by four codes");
    Ok(())
}

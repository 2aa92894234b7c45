//! How many searches it takes to tell what can be chosen. No contract says it: a body that points no search at what no car has
//! shown yet takes one for nearly each code.
ghost use Rattle.std.specs.Prelude.{◌<◌, length};

use book_model::Book;
use book_sample::sample_book;
use book_text::read_book;
use left_cars::{CodeState, Freedom, free_counted};
use pb_base::Memory;
use std::alloc::Global;
use std::test::Fail;

const CODES: u32 = 2_000;

// As many searches may find a car.
const MOST_FOUND: u32 = 25;

fn generated_book(alloc: Global) -> Result<Book, Fail> {
    let text = sample_book(alloc, 1, CODES)?;
    let Ok(book) = read_book(alloc, text.as_slice()) else {
        return Err(Fail::from("no book"));
    };
    Ok(book)
}

// What can be chosen on the first day beside a code, where a search that learns a single clause is left. So each search that finds
// no car is refuted by propagation, and each that finds one meets no conflict.
fn free_of(alloc: Global, book: &Book, code: u32, found: &mut u32) -> Result<Freedom, Memory>
    requires { code < length book.now.codes }
{
    free_counted(alloc, book, 1, &[code], 1, found)
}

fn free_beside_first(alloc: Global, book: &Book, found: &mut u32) -> Result<Freedom, Fail> {
    if book.codes().len() == 0 {
        return Err(Fail::from("no code"));
    }
    Ok(free_of(alloc, book, 0, found)?)
}

fn is_decided(state: &CodeState) -> bool {
    !matches!(state, CodeState::Undecided(_))
}

fn all_decided(states: &[CodeState]) -> bool {
    states.iter().all(|state| is_decided(state))
}

fn are_decided(freedom: &Freedom) -> bool {
    match freedom {
        Freedom::Codes(states) => all_decided(states),
        Freedom::NoneLeft => false,
        Freedom::NotDecided(_) => false,
    }
}

#[test]
fn few_searches_find_a_car(rt: HostRuntime) -> Result<(), Fail> {
    let alloc = rt.alloc();
    let book = generated_book(alloc)?;
    let mut found = 0;
    let freedom = free_beside_first(alloc, &book, &mut found)?;
    assert!(rt; are_decided(&freedom));
    assert!(rt; found <= MOST_FOUND);
    Ok(())
}

//! Lines and orders that an outside generator gives, with ample memory.

use book_sample::{Sampler, sample_book};
use desk_words::OrderWords;
use std::alloc::Global;
use std::test::Fail;

// Whether the line of this number, counted from 1, is this text.
fn has_line(text: &[u8], number: usize, wanted: &[u8]) -> bool {
    text.split(|b| *b == b'\n').nth(number.saturating_sub(1)) == Some(wanted)
}

fn is_small_book(text: &[u8]) -> bool {
    has_line(text, 1, b"book,SAMPLE,1,1000")
        && has_line(
            text,
            22,
            b"supplement,S0001,50,K0006,-K0004+-K0005+-K0006+-K0007,,",
        )
        && has_line(
            text,
            29,
            b"variant,V0004,P0001,A0004,1,K0004+K0001/K0004+-K0001,,",
        )
}

// It has a bound code, and the last of its lines is known.
fn is_bound_book(text: &[u8]) -> bool {
    has_line(text, 238, b"construct,Z0015,K0060,-K0048,,")
        && has_line(
            text,
            243,
            b"variant,V0063,P0015,A0063,5,K0063+K0015/K0063+-K0015,,",
        )
}

#[test]
fn lines_are_those_of_an_outside_generator(rt: HostRuntime) -> Result<(), Fail> {
    let alloc = rt.alloc();
    assert!(rt; is_small_book(sample_book(alloc, 1, 8)?.as_slice()));
    assert!(rt; is_bound_book(sample_book(alloc, 7, 64)?.as_slice()));
    Ok(())
}

// Whether the order names these codes, which are parted by blanks.
fn names(order: &OrderWords, codes: &[u8]) -> bool {
    let mut wanted = codes.split(|b| *b == b' ');
    for code in order.codes.as_slice() {
        if wanted.next() != Some(code.bytes()) {
            return false;
        }
    }
    wanted.next().is_none()
}

fn next_is(alloc: Global, orders: &mut Sampler, day: u32, codes: &[u8]) -> Result<bool, Fail> {
    let order = orders.next_order(alloc)?;
    Ok(order.book == 1 && order.day == day && names(&order, codes))
}

#[test]
fn orders_are_those_of_an_outside_generator(rt: HostRuntime) -> Result<(), Fail> {
    let alloc = rt.alloc();
    let mut orders = Sampler::after_book(1, 8);
    assert!(rt; next_is(alloc, &mut orders, 420, b"K0002 K0004")?);
    assert!(rt; next_is(alloc, &mut orders, 830, b"K0001 K0004")?);
    assert!(rt; next_is(alloc, &mut orders, 624, b"K0003 K0006")?);
    Ok(())
}

//! Where a field of a text without a quotation mark ends. Sixteen bytes are looked at together.
ghost use Rattle.std.specs.Prelude.{◌≡◌, ◌≤◌, ◌+◌, length};
ghost use Rattle.book_text.specs.Plain.{EndsField, IsRunIn, NoFieldEnds, first_set};

use std::simd::prelude::*;

const LANES: usize = 16;

/// Where the first field of a text ends.
pub fn field_end(text: &[u8]) -> usize
    ensures { EndsField text.now result }
{
    let mut at = 0;
    'loads: while LANES <= text.len() - at {
        let run = run_in_load(text, at);
        if run < LANES {
            return at + run;
        }
        at += LANES;
    }
    end_behind(text, at)
}

// The same, where none of the first bytes, so many, ends it.
fn end_behind(text: &[u8], from: usize) -> usize
    requires within { from ≤ length text.now }
    requires before { NoFieldEnds text.now 0 from }
    ensures { EndsField text.now result }
{
    for place in from..text.len() {
        let byte = text[place];
        if byte == b',' || byte == b'\n' || byte == b'\r' {
            return place;
        }
    }
    text.len()
}

// How many of the sixteen bytes from a place, from the first, end no field.
#[inline(always)]
fn run_in_load(text: &[u8], at: usize) -> usize
    requires { at + LANES ≤ length text.now }
    ensures { IsRunIn text.now at LANES result }
{
    let load = u8x16::from_slice(&text[at..]);
    let lines = load.simd_eq(u8x16::splat(b'\n')) | load.simd_eq(u8x16::splat(b'\r'));
    let ends = load.simd_eq(u8x16::splat(b',')) | lines;
    first_set(ends.to_bitmask(), LANES)
}

// The place of the lowest bit that is set, or `lanes`.
#[inline(always)]
fn first_set(mask: u64, lanes: usize) -> usize
    ensures { result ≡ first_set mask lanes }
{
    if mask == 0 {
        return lanes;
    }
    mask.trailing_zeros() as usize
}

//! The variables of the codes of two books.
ghost use Rattle.std.specs.Prelude.{◌≡◌, ◌+◌, ◌<◌, ◌^◌, IfOk, length};
ghost use Rattle.std.specs.List.{AllByRecursion};
ghost use Rattle.book_compare.specs.Numbering.{numbers_of, further, joint_codes};

use pb_base::{CodeTable, Memory};
use std::alloc::Global;

/// The variable of each code of the second book, and how many codes only that book has.
#[derive(Drop)]
pub(crate) struct Numbering {
    pub(crate) numbers: Vec<u32>,
    pub(crate) further: u32,
}

impl Numbering {
    /// The first book's codes keep their places as variables, and the next one is always true. Codes that only the second book has come
    /// behind it.
    pub(crate) fn of(
        alloc: Global,
        first: &CodeTable,
        second: &CodeTable,
    ) -> Result<Numbering, Memory>
        requires { length first.now + 1 + length second.now < 2 ^ 32 }
        ensures numbers { IfOk result (λ n. n.numbers.items ≡ numbers_of first.now second.now) }
        ensures further { IfOk result (λ n. n.further ≡ further first.now second.now) }
    {
        let behind = first.len() + 1;
        let mut next = behind;
        let mut numbers = Vec::new(alloc);
        for place in 0..second.len() {
            match first.place_of(second.name_of(place)) {
                Some(shared) => numbers.push(shared)?,
                None => {
                    numbers.push(next)?;
                    next += 1;
                }
            }
        }
        Ok(Numbering {
            numbers,
            further: next - behind,
        })
    }
}

//! The size of a generated book.
ghost use Rattle.std.specs.Prelude.{◌≡◌, ◌%◌, ◌≤◌};

use std::marker::Model;

/// The start of the draws, how many codes the generated book has, and how many orders are judged. The number of codes is a
/// multiple of 4 from 8 to 2,000.
#[derive(Drop)]
pub struct SampleSize {
    start: u32,
    codes: u32,
    orders: u32,
}

impl Model for SampleSize {
    ghost use Rattle.command_words.specs.Size.{IsSampleCodes, Size};

    ghost Value = { Size };

    ghost view = { λ s. record { start = s.start; codes = s.codes; orders = s.orders } };

    ghost invariant = { λ s. IsSampleCodes s.codes };
}

impl SampleSize {
    pub fn of(start: u32, codes: u32, orders: u32) -> SampleSize
        requires whole { codes % 4 ≡ 0 }
        requires least { 8 ≤ codes }
        requires most { codes ≤ 2000 }
        ensures { result ≡ record { start = start; codes = codes; orders = orders } }
    {
        SampleSize {
            start,
            codes,
            orders,
        }
    }

    /// From which the draws of the book and the orders follow.
    pub fn start(&self) -> u32
        ensures { result ≡ self.now.start }
    {
        self.start
    }

    /// The number of codes.
    pub fn codes(&self) -> u32
        ensures value { result ≡ self.now.codes }
        ensures whole { result % 4 ≡ 0 }
        ensures least { 8 ≤ result }
        ensures most { result ≤ 2000 }
    {
        self.codes
    }

    /// The number of orders.
    pub fn orders(&self) -> u32
        ensures { result ≡ self.now.orders }
    {
        self.orders
    }
}

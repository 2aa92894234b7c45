//! The law of generated books.
ghost use Rattle.book_sample.specs.Law.{MaySample, GivesBook};

/// The text of every generated book reads as a book within all limits, which can be released, and each order has codes of it, none twice, and a day of its term. The call does nothing.
pub fn sample_law(start: u32, codes: u32)
    requires { MaySample codes }
    ensures { GivesBook start codes }
{}

//! What is asked of the supplementing rules of a slice.

/// A question about the constructible sets of codes of a slice. Rules are named by their places among the supplementing rules of
/// the book, counted from 0. Something is wrong where a set shows what it asks for.
#[derive(Clone, Copy, Debug, PartialEq, Eq)]
pub enum SupplementQuestion {
    /// The rule fires over a constructible set, and with its code the set is not constructible.
    Breaks(u32),
    /// Both rules fire over a constructible set, and one that has fired keeps the other from firing.
    Swaps { first: u32, second: u32 },
}

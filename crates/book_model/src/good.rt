//! Which sets of codes a book allows on a day.
ghost use Rattle.std.specs.Prelude.{◌≡◌, length, All};
ghost use Rattle.std.specs.List.{list_any};
ghost use Rattle.book_model.specs.Book.{SupplementFits, ConstructFits};
ghost use Rattle.book_model.specs.Good.{fires, breaks, is_good};

use crate::activity::active;
use crate::book::Book;
use crate::record::{Construct, Supplement};
use pb_base::{CodeSet, Day};

/// Whether a set of the book's codes is good on a day: no active supplementing rule adds to it, and no active constructibility rule is broken.
pub fn is_good(book: &Book, day: Day, set: &CodeSet) -> bool
    requires { length set.now ≡ length book.now.codes }
    ensures { result ≡ is_good book.now day set.now }
{
    let closed = !any_fires(book.supplements(), day, set);
    let constructible = !any_breaks(book.constructs(), day, set);
    closed && constructible
}

fn any_fires(supplements: &[Supplement], day: Day, set: &CodeSet) -> bool
    requires { All (SupplementFits (length set.now)) supplements.now }
    ensures { result ≡ list_any (fires day set.now) supplements.now }
{
    supplements.iter().any(|s| fires(s, day, set))
}

fn any_breaks(constructs: &[Construct], day: Day, set: &CodeSet) -> bool
    requires { All (ConstructFits (length set.now)) constructs.now }
    ensures { result ≡ list_any (breaks day set.now) constructs.now }
{
    constructs.iter().any(|c| breaks(c, day, set))
}

/// Whether a supplementing rule adds its code to a set: it is active, its formula is true and its code is absent.
pub fn fires(supplement: &Supplement, day: Day, set: &CodeSet) -> bool
    requires { SupplementFits (length set.now) supplement.now }
    ensures { result ≡ fires day set.now supplement.now }
{
    active(supplement.from, supplement.until, day)
        && supplement.rule.holds(set)
        && !set.has(supplement.code)
}

/// Whether a set breaks a constructibility rule: it is active, and its demand is not met.
pub fn breaks(construct: &Construct, day: Day, set: &CodeSet) -> bool
    requires { ConstructFits (length set.now) construct.now }
    ensures { result ≡ breaks day set.now construct.now }
{
    active(construct.from, construct.until, day) && !construct.demand.is_met(set)
}

//! What constructibility rules demand of a set of codes.
ghost use Rattle.std.specs.Prelude.{◌≡◌, true, ◌<◌, All, length, min};
ghost use Rattle.book_model.specs.Book.{DemandFits, demands_group};
ghost use Rattle.book_model.specs.Good.{is_met, present};

use crate::places::Places;
use pb_base::{CodeSet, Formula};

/// What a constructibility rule demands of a set of codes.
#[derive(Drop)]
pub enum Demand {
    /// The formula holds: where the code at this place is present, or always where there is None.
    Rule { on: Option<u32>, rule: Formula },
    /// Exactly one of these codes is present.
    One(Places),
    /// At most one of these codes is present.
    Most(Places),
}

impl Demand {
    /// Whether a set meets the demand. A group's codes are counted no further than the second that is present.
    pub fn is_met(&self, set: &CodeSet) -> bool
        requires { DemandFits (length set.now) self.now }
        ensures { result ≡ is_met set.now self.now }
    {
        match self {
            Demand::Rule { on: None, rule } => rule.holds(set),
            Demand::Rule {
                on: Some(code),
                rule,
            } => !set.has(*code) || rule.holds(set),
            group => group.is_group_met(set),
        }
    }

    // Apart from the rules, which are many more and so cost one test of their kind.
    #[inline(never)]
    fn is_group_met(&self, set: &CodeSet) -> bool
        requires fits { DemandFits (length set.now) self.now }
        requires group { demands_group self.now ≡ true }
        ensures { result ≡ is_met set.now self.now }
    {
        match self {
            Demand::Rule { .. } => unreachable!(),
            Demand::One(group) => count_to_two(group.codes(), set) == 1,
            Demand::Most(group) => count_to_two(group.codes(), set) <= 1,
        }
    }
}

// How many of these codes are in the set, counted no further than two.
fn count_to_two(codes: &[u32], set: &CodeSet) -> u32
    requires { All (λ code. code < length set.now) codes.now }
    ensures { result ≡ min (present set.now codes.now) 2 }
{
    let mut found = 0;
    for code in codes {
        if set.has(*code) {
            if found == 1 {
                return 2;
            }
            found = 1;
        }
    }
    found
}

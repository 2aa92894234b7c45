//! The constructibility rules that many sets of codes break.
ghost use Rattle.std.specs.Prelude.{◌≡◌, ◌+◌, ◌≤◌, All, IfOk, length, map};
ghost use Rattle.std.specs.List.{position_from};
ghost use Rattle.pb_base.specs.declared.limits.TheConstants.{MOST_CONSTRUCTS, MOST_GROUPS};
ghost use Rattle.book_model.specs.Book.{ConstructFits};
ghost use Rattle.book_model.specs.Good.{breaks};
ghost use Rattle.parts_usage.specs.Broken.{first_broken_of, guard_of, guards_of};

use book_model::{Book, Construct, Demand, breaks};
use pb_base::{CodeSet, Day, Memory};
use std::alloc::Global;
use std::marker::Model;

/// For each constructibility rule of a book the code without which it isn't broken, if it has one: a short table. It is made
/// once and then serves any number of sets: of a rule of a code that a set lacks no more than this code is looked at. It
/// doesn't borrow the book, so that who owns it may keep it beside it.
#[derive(Drop)]
pub struct GuardTable {
    codes: Vec<Option<u32>>,
}

impl Model for GuardTable {
    ghost use Rattle.std.specs.Prelude.{List, Option, ℕ};

    ghost Value = { List (Option ℕ) };

    ghost view = { λ t. t.codes.items };
}

impl GuardTable {
    /// The table of this book.
    pub fn of(alloc: Global, book: &Book) -> Result<GuardTable, Memory>
        ensures { IfOk result (λ table. table ≡ guards_of book.now) }
    {
        let codes = codes_of(alloc, book.constructs())?;
        Ok(GuardTable { codes })
    }

    /// The same as `first_broken`.
    pub fn first_broken(&self, book: &Book, day: Day, set: &CodeSet) -> Option<u32>
        requires guards { self.now ≡ guards_of book.now }
        requires codes { length set.now ≡ length book.now.codes }
        ensures { result ≡ first_broken_of book.now day set.now }
    {
        first_guarded(book.constructs(), &self.codes, day, set)
    }
}

fn codes_of(alloc: Global, constructs: &[Construct]) -> Result<Vec<Option<u32>>, Memory>
    ensures { IfOk result (λ codes. codes.items ≡ map guard_of constructs.now) }
{
    let mut codes = Vec::with_capacity(alloc, constructs.len())?;
    for construct in constructs {
        codes.push(guard_of(construct))?;
    }
    Ok(codes)
}

fn guard_of(construct: &Construct) -> Option<u32>
    ensures { result ≡ guard_of construct.now }
{
    match &construct.demand {
        Demand::Rule { on, .. } => *on,
        Demand::One(_) => None,
        Demand::Most(_) => None,
    }
}

// The place of the first of these rules that the set breaks.
fn first_guarded(
    constructs: &[Construct],
    guards: &[Option<u32>],
    day: Day,
    set: &CodeSet,
) -> Option<u32>
    requires fit { All (ConstructFits (length set.now)) constructs.now }
    requires places { length constructs.now ≤ MOST_CONSTRUCTS + MOST_GROUPS }
    requires guards { guards.now ≡ map guard_of constructs.now }
    ensures { result ≡ position_from (breaks day set.now) 0 constructs.now }
{
    for (place, construct) in constructs.iter().enumerate() {
        if breaks_guarded(guards[place], construct, day, set) {
            return Some(place as u32);
        }
    }
    None
}

// The same as `breaks`. The rule isn't touched where the set lacks its code.
#[inline(always)]
fn breaks_guarded(guard: Option<u32>, construct: &Construct, day: Day, set: &CodeSet) -> bool
    requires fits { ConstructFits (length set.now) construct.now }
    requires guard { guard ≡ guard_of construct.now }
    ensures { result ≡ breaks day set.now construct.now }
{
    if let Some(code) = guard {
        if !set.has(code) {
            return false;
        }
    }
    breaks(construct, day, set)
}

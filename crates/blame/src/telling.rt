//! Whether a car meets a rule, and what is to blame if none does.
ghost use Rattle.std.specs.Prelude.{◌≡◌, ◌<◌, ◌≤◌, All, IfOk, IfSome, length};
ghost use Rattle.pb_base.specs.declared.limits.TheConstants.{MOST_BUDGET, MOST_CODES};
ghost use Rattle.book_model.specs.Book.{RuleFits};
ghost use Rattle.blame.specs.Entries.{all_entries, EntryFits, Among};
ghost use Rattle.blame.specs.Blame.{AreBlamed, AreFew, IsBlame, IsNone, IsTold};

use crate::blamed::{Blamed, Told};
use crate::entries::{Entry, all_entries, marked};
use crate::looking::{Looked, look};
use crate::near::{linked_entries, near_entries};
use crate::shrinking::{shrink, shrink_hinted};
use crate::used::marks_by;
use book_model::Book;
use clause_pool::{Kernel, Ref};
use item_search::Outcome;
use pb_base::{Day, Formula, Memory};
use std::alloc::Global;

// More entries than that are many.
const MOST_GUARDED: usize = 64;

/// A car of the day that has these codes and meets the rule. If there is none, entries that are to blame: active rules of the day
/// and some of the codes, of which no set that meets them all meets the rule. Each of them is needed, unless a search without it was
/// left; fewer others may do. Codes are told by their places in the book, counted from 0. A search is left where so many clauses
/// were learnt for it, each of which says what propagation did not.
pub fn find_or_blame(
    alloc: Global,
    book: &Book,
    day: Day,
    chosen: &[u32],
    rule: &Formula,
    budget: u32,
) -> Result<Told, Memory>
    requires chosen { All (λ c. c < length book.now.codes) chosen.now }
    requires few { length chosen.now ≤ MOST_CODES }
    requires rule { RuleFits (length book.now.codes) rule.now }
    requires some { 0 < budget }
    requires most { budget ≤ MOST_BUDGET }
    ensures { IfOk result (IsTold book.now day chosen.now rule.now budget) }
{
    let _codes = book.codes();
    let all = all_entries(alloc, book, day, chosen)?;
    let near = near_among(alloc, book, day, chosen, rule, budget, &all)?;
    match near {
        Some(blamed) => Ok(Told::NoCar(blamed)),
        None => find_among_all(alloc, book, day, chosen, rule, budget, all),
    }
}

/// What is to blame of the codes and of the rules in which one of them stands, where these alone leave no set that meets the rule.
/// Where they leave one, the same of all rules that are linked with the codes, unless these are half of all rules or more. Where these
/// leave one too, or a search was left, nothing is said.
pub fn blame_near(
    alloc: Global,
    book: &Book,
    day: Day,
    chosen: &[u32],
    rule: &Formula,
    budget: u32,
) -> Result<Option<Blamed>, Memory>
    requires chosen { All (λ c. c < length book.now.codes) chosen.now }
    requires few { length chosen.now ≤ MOST_CODES }
    requires rule { RuleFits (length book.now.codes) rule.now }
    requires some { 0 < budget }
    requires most { budget ≤ MOST_BUDGET }
    ensures { IfOk result (λ found. IfSome found (AreBlamed book.now day chosen.now rule.now budget)) }
{
    let _codes = book.codes();
    let all = all_entries(alloc, book, day, chosen)?;
    near_among(alloc, book, day, chosen, rule, budget, &all)
}

/// What is to blame by a hint: the clause at a place of a kernel over the active rules of the day, of which the clauses begin at these
/// starts, supplementing rules first, each in record order. Of the rules on which the clause rests, and of the codes of which it has
/// the literals, those that are to blame, where no set meets them all and the rule. Where one does, or a search was left, nothing is
/// said.
pub fn blame_by(
    alloc: Global,
    book: &Book,
    day: Day,
    chosen: &[u32],
    rule: &Formula,
    budget: u32,
    kernel: &Kernel,
    at: Ref,
    starts: &[Ref],
) -> Result<Option<Blamed>, Memory>
    requires chosen { All (λ c. c < length book.now.codes) chosen.now }
    requires few { length chosen.now ≤ MOST_CODES }
    requires rule { RuleFits (length book.now.codes) rule.now }
    requires some { 0 < budget }
    requires most { budget ≤ MOST_BUDGET }
    ensures { IfOk result (λ found. IfSome found (AreBlamed book.now day chosen.now rule.now budget)) }
{
    let _codes = book.codes();
    let all = all_entries(alloc, book, day, chosen)?;
    let marks = marks_by(alloc, kernel, at, starts, chosen)?;
    let used = marked(alloc, &all, &marks)?;
    blame_some(alloc, book, day, chosen, rule, budget, &all, used)
}

// What is to blame of the codes and of the rules that are near to them, if these alone leave no set that meets the rule.
fn near_among(
    alloc: Global,
    book: &Book,
    day: Day,
    chosen: &[u32],
    rule: &Formula,
    budget: u32,
    all: &[Entry],
) -> Result<Option<Blamed>, Memory>
    requires all { all.now ≡ all_entries book.now day chosen.now }
    requires fit { All (EntryFits book.now day) all.now }
    requires few { AreFew all.now }
    requires rule { RuleFits (length book.now.codes) rule.now }
    requires some { 0 < budget }
    requires most { budget ≤ MOST_BUDGET }
    ensures { IfOk result (λ found. IfSome found (AreBlamed book.now day chosen.now rule.now budget)) }
{
    let near = near_entries(alloc, book, chosen, all)?;
    let count = near.len();
    if count <= chosen.len() {
        return Ok(None);
    }
    let found = blame_some(alloc, book, day, chosen, rule, budget, all, near)?;
    match found {
        Some(blamed) => Ok(Some(blamed)),
        None => linked_among(alloc, book, day, chosen, rule, budget, all, count),
    }
}

// The same of the rules that are linked with the codes, where these entries are more than so many, and fewer than half of all.
fn linked_among(
    alloc: Global,
    book: &Book,
    day: Day,
    chosen: &[u32],
    rule: &Formula,
    budget: u32,
    all: &[Entry],
    near: usize,
) -> Result<Option<Blamed>, Memory>
    requires all { all.now ≡ all_entries book.now day chosen.now }
    requires fit { All (EntryFits book.now day) all.now }
    requires few { AreFew all.now }
    requires rule { RuleFits (length book.now.codes) rule.now }
    requires some { 0 < budget }
    requires most { budget ≤ MOST_BUDGET }
    ensures { IfOk result (λ found. IfSome found (AreBlamed book.now day chosen.now rule.now budget)) }
{
    let linked = linked_entries(alloc, book, chosen, all)?;
    if linked.len() <= near || linked.len() >= all.len() / 2 {
        return Ok(None);
    }
    blame_some(alloc, book, day, chosen, rule, budget, all, linked)
}

// What is to blame of some entries, if these alone leave no set that meets the rule. Where they are many, clauses that are learnt
// with guards speak of most of these, and a search without takes less work.
fn blame_some(
    alloc: Global,
    book: &Book,
    day: Day,
    chosen: &[u32],
    rule: &Formula,
    budget: u32,
    all: &[Entry],
    first: Vec<Entry>,
) -> Result<Option<Blamed>, Memory>
    requires all { all.now ≡ all_entries book.now day chosen.now }
    requires fit { All (EntryFits book.now day) all.now }
    requires few { AreFew all.now }
    requires among { Among all.now first.items }
    requires rule { RuleFits (length book.now.codes) rule.now }
    requires some { 0 < budget }
    requires most { budget ≤ MOST_BUDGET }
    ensures { IfOk result (λ found. IfSome found (AreBlamed book.now day chosen.now rule.now budget)) }
{
    if first.len() > MOST_GUARDED {
        return blame_many(alloc, book, day, chosen, rule, budget, all, first);
    }
    let found = shrink_hinted(alloc, book, day, rule, budget, first)?;
    Ok(found)
}

// The same by a search without guards.
fn blame_many(
    alloc: Global,
    book: &Book,
    day: Day,
    chosen: &[u32],
    rule: &Formula,
    budget: u32,
    all: &[Entry],
    first: Vec<Entry>,
) -> Result<Option<Blamed>, Memory>
    requires all { all.now ≡ all_entries book.now day chosen.now }
    requires fit { All (EntryFits book.now day) all.now }
    requires few { AreFew all.now }
    requires among { Among all.now first.items }
    requires rule { RuleFits (length book.now.codes) rule.now }
    requires some { 0 < budget }
    requires most { budget ≤ MOST_BUDGET }
    ensures { IfOk result (λ found. IfSome found (AreBlamed book.now day chosen.now rule.now budget)) }
{
    let looked = look(alloc, book, day, rule, &first, budget)?;
    let Looked { outcome, marks } = looked;
    match outcome {
        Outcome::NotShown(_) => {
            let blamed = blamed_of(alloc, book, day, rule, budget, first, &marks)?;
            Ok(Some(blamed))
        }
        Outcome::Shown(_) => Ok(None),
        Outcome::Left(_) => Ok(None),
    }
}

// The same by a search over all entries.
fn find_among_all(
    alloc: Global,
    book: &Book,
    day: Day,
    chosen: &[u32],
    rule: &Formula,
    budget: u32,
    all: Vec<Entry>,
) -> Result<Told, Memory>
    requires all { all.items ≡ all_entries book.now day chosen.now }
    requires fit { All (EntryFits book.now day) all.items }
    requires few { AreFew all.items }
    requires rule { RuleFits (length book.now.codes) rule.now }
    requires some { 0 < budget }
    requires most { budget ≤ MOST_BUDGET }
    ensures { IfOk result (IsTold book.now day chosen.now rule.now budget) }
{
    let looked = look(alloc, book, day, rule, &all, budget)?;
    let Looked { outcome, marks } = looked;
    match outcome {
        Outcome::Shown(car) => Ok(Told::Car(car)),
        Outcome::Left(learnt) => Ok(Told::Undecided(learnt)),
        Outcome::NotShown(_) => {
            let blamed = blamed_of(alloc, book, day, rule, budget, all, &marks)?;
            Ok(Told::NoCar(blamed))
        }
    }
}

// Of entries that no set meets together with the rule, those that are to blame. The marked ones are tried first, after a search over
// them. Where the first search used most of them a second one gives little.
fn blamed_of(
    alloc: Global,
    book: &Book,
    day: Day,
    rule: &Formula,
    budget: u32,
    entries: Vec<Entry>,
    marks: &[bool],
) -> Result<Blamed, Memory>
    requires fit { All (EntryFits book.now day) entries.items }
    requires few { AreFew entries.items }
    requires rule { RuleFits (length book.now.codes) rule.now }
    requires none { IsNone book.now day rule.now entries.items }
    requires some { 0 < budget }
    requires most { budget ≤ MOST_BUDGET }
    ensures blame { IfOk result (λ m. IsBlame book.now day rule.now budget m.entries.items m.needed.items) }
    ensures among { IfOk result (λ m. Among entries.items m.entries.items) }
{
    let used = marked(alloc, &entries, marks)?;
    if used.len() > entries.len() - entries.len() / 4 {
        return shrink_marked(alloc, book, day, rule, budget, entries, marks);
    }
    let blamed = blamed_again(alloc, book, day, rule, budget, entries, used)?;
    Ok(blamed)
}

// The same by a search over some of them.
fn blamed_again(
    alloc: Global,
    book: &Book,
    day: Day,
    rule: &Formula,
    budget: u32,
    entries: Vec<Entry>,
    used: Vec<Entry>,
) -> Result<Blamed, Memory>
    requires fit { All (EntryFits book.now day) entries.items }
    requires few { AreFew entries.items }
    requires used { Among entries.items used.items }
    requires rule { RuleFits (length book.now.codes) rule.now }
    requires none { IsNone book.now day rule.now entries.items }
    requires some { 0 < budget }
    requires most { budget ≤ MOST_BUDGET }
    ensures blame { IfOk result (λ m. IsBlame book.now day rule.now budget m.entries.items m.needed.items) }
    ensures among { IfOk result (λ m. Among entries.items m.entries.items) }
{
    let looked = look(alloc, book, day, rule, &used, budget)?;
    match looked.outcome {
        Outcome::NotShown(_) => {
            let marks = &looked.marks;
            let blamed = shrink_marked(alloc, book, day, rule, budget, used, marks)?;
            Ok(blamed)
        }
        Outcome::Shown(_) => shrink(alloc, book, day, rule, budget, entries),
        Outcome::Left(_) => shrink(alloc, book, day, rule, budget, entries),
    }
}

// The same, where only the marked ones are tried if no set meets them all.
fn shrink_marked(
    alloc: Global,
    book: &Book,
    day: Day,
    rule: &Formula,
    budget: u32,
    entries: Vec<Entry>,
    marks: &[bool],
) -> Result<Blamed, Memory>
    requires fit { All (EntryFits book.now day) entries.items }
    requires few { AreFew entries.items }
    requires rule { RuleFits (length book.now.codes) rule.now }
    requires none { IsNone book.now day rule.now entries.items }
    requires some { 0 < budget }
    requires most { budget ≤ MOST_BUDGET }
    ensures blame { IfOk result (λ m. IsBlame book.now day rule.now budget m.entries.items m.needed.items) }
    ensures among { IfOk result (λ m. Among entries.items m.entries.items) }
{
    let some = marked(alloc, &entries, marks)?;
    let found = shrink_hinted(alloc, book, day, rule, budget, some)?;
    match found {
        Some(blamed) => Ok(blamed),
        None => shrink(alloc, book, day, rule, budget, entries),
    }
}

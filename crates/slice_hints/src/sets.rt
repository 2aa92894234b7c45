//! Sets that are good on a day, and the questions that they answer.
//! The sets that were found so far, each of which may answer questions to come.
ghost use Rattle.std.specs.Prelude.{◌≡◌, ℕ, ◌<◌, ◌==◌, [], All, IfOk, IfSome, OnOk, length, true};
ghost use Rattle.pb_base.specs.Rule.{holds};
ghost use Rattle.book_model.specs.Contents.{Contents};
ghost use Rattle.book_model.specs.Good.{is_good};
ghost use Rattle.clausify.specs.Questions.{goal, QuestionFits};
ghost use Rattle.book_model.specs.Book.{ConstructFits, SupplementFits};
ghost use Rattle.slice_hints.specs.Found.{IsFound, KnowsUsages, breaks_anew, fires_anew, is_spoilt};
ghost use Rattle.std.specs.List.{list_any};

use crate::found::{Found, meets};
use book_model::{Book, Construct, Supplement, active, breaks, fires, is_good};
use clausify::{Question, is_active};
use pb_base::{CodeSet, Day, Memory};
use std::alloc::Global;
use std::marker::Model;
use std::mem::replace;

// The most sets that are kept.
const MOST_SETS: usize = 512;

// The bit of a table's word that the sets share for which none is left.
const LAST_BIT: usize = 63;

/// Sets that were found. Tables say which of them have a code, and over which the formula of a variant is true, so that
/// a question finds a set without a search. What a table says is a hint: a set is asked before it answers. Contracts see the
/// list of sets.
#[derive(Drop)]
pub struct Sets {
    found: Vec<Found>,
    // A bit for each set.
    all: u64,
    // By code, those that have it.
    with_code: Vec<u64>,
    // By variant, those over which its formula is true.
    using: Vec<u64>,
}

impl Model for Sets {
    ghost use Rattle.std.specs.Prelude.{List};
    ghost use Rattle.slice_hints.specs.declared.found.Found.{Found};

    ghost Value = { List Found };

    ghost view = { λ s. s.found.items };
}

impl Sets {
    /// No sets, of a book.
    pub fn new(alloc: Global, book: &Book) -> Result<Sets, Memory>
        ensures { IfOk result (λ sets. sets ≡ []) }
    {
        Ok(Sets {
            found: Vec::new(alloc),
            all: 0,
            with_code: vec![in alloc; 0; book.codes().len() as usize]?,
            using: vec![in alloc; 0; book.variants().len()]?,
        })
    }

    /// Keeps a further set, unless there are enough.
    pub fn put(&mut self, found: Found) -> Result<(), Memory>
        ensures { (b : Contents) (day : ℕ) → All (IsFound b day) self.old → IsFound b day found
            → All (IsFound b day) self.new }
    {
        if self.found.len() < MOST_SETS {
            self.mark(&found);
            self.found.push(found)?;
        }
        Ok(())
    }

    // Enters the next set into the tables.
    fn mark(&mut self, found: &Found)
        ensures { self.new ≡ self.old }
    {
        let bit = 1 << self.found.len().min(LAST_BIT);
        self.all |= bit;
        mark_codes(&mut self.with_code, &found.set, bit);
        mark_used(&mut self.using, &found.usages, bit);
    }

    /// Keeps those sets of an earlier day that are good on this one too. The last of them is the first.
    pub fn put_earlier(
        &mut self,
        book: &Book,
        day: Day,
        earlier: &mut Vec<Found>,
    ) -> Result<(), Memory>
        requires found { All (IsFound book.now day) self.old }
        requires usages { All (KnowsUsages book.now) earlier.old.items }
        ensures found { All (IsFound book.now day) self.new }
        ensures usages { All (KnowsUsages book.now) earlier.new.items }
    {
        while let Some(found) = earlier.pop() {
            self.put_good(book, day, found)?;
        }
        Ok(())
    }

    // Keeps a set of an earlier day, if it is good on this one.
    fn put_good(&mut self, book: &Book, day: Day, found: Found) -> Result<(), Memory>
        requires found { All (IsFound book.now day) self.old }
        requires usages { KnowsUsages book.now found }
        ensures { All (IsFound book.now day) self.new }
    {
        if !is_good_on(book, day, &found.set) {
            return Ok(());
        }
        self.put(found)
    }

    /// Goes on from a day to another one: keeps those sets that are good on it too.
    pub fn go_on(&mut self, alloc: Global, book: &Book, before: Day, day: Day) -> Result<(), Memory>
        requires found { All (IsFound book.now before) self.old }
        ensures found { OnOk result (All (IsFound book.now day) self.new) }
    {
        if !any_spoilt(book, before, day, &self.found) {
            return Ok(());
        }
        let found = replace(&mut self.found, Vec::new(alloc));
        self.clear_tables();
        self.put_each(book, before, day, found)
    }

    // Keeps those sets of an earlier day that are good on this one too.
    fn put_each(
        &mut self,
        book: &Book,
        before: Day,
        day: Day,
        found: Vec<Found>,
    ) -> Result<(), Memory>
        requires found { All (IsFound book.now day) self.old }
        requires earlier { All (IsFound book.now before) found.items }
        ensures { OnOk result (All (IsFound book.now day) self.new) }
    {
        for one in found {
            self.put_unspoilt(book, before, day, one)?;
        }
        Ok(())
    }

    // Keeps a set of an earlier day, if no rule is against it on this one.
    fn put_unspoilt(
        &mut self,
        book: &Book,
        before: Day,
        day: Day,
        found: Found,
    ) -> Result<(), Memory>
        requires found { All (IsFound book.now day) self.old }
        requires earlier { IsFound book.now before found }
        ensures { All (IsFound book.now day) self.new }
    {
        if is_spoilt(book, before, day, &found) {
            return Ok(());
        }
        self.put(found)
    }

    // No set is in the tables.
    fn clear_tables(&mut self)
        ensures { self.new ≡ self.old }
    {
        self.all = 0;
        for sets in self.with_code.iter_mut() {
            *sets = 0;
        }
        for sets in self.using.iter_mut() {
            *sets = 0;
        }
    }

    /// Hands the sets on to a later day, the first of them last.
    pub fn hand_on(mut self, earlier: &mut Vec<Found>) -> Result<(), Memory>
        ensures { (b : Contents) → All (KnowsUsages b) self
            → OnOk result (All (KnowsUsages b) earlier.new.items) }
    {
        earlier.clear();
        while let Some(found) = self.found.pop() {
            earlier.push(found)?;
        }
        Ok(())
    }

    /// Those that have a code.
    fn with_code(&self, code: u32) -> u64 {
        match self.with_code.get(code as usize) {
            Some(sets) => *sets,
            None => 0,
        }
    }

    /// Those over which the formula of a variant is true.
    pub fn using(&self, variant: u32) -> u64 {
        match self.using.get(variant as usize) {
            Some(sets) => *sets,
            None => 0,
        }
    }

    // Those over which the formula of some active variant of a position is true.
    fn covering(&self, book: &Book, day: Day, position: u32) -> u64
        requires { position < length book.now.positions }
    {
        let mut sets = 0;
        for variant in book.variants_of(position) {
            if is_active(book, day, *variant) {
                sets |= self.using(*variant);
            }
        }
        sets
    }

    // Those that may meet the goal of a question.
    fn hinted(&self, book: &Book, day: Day, question: Question) -> u64
        requires { QuestionFits book.now question }
    {
        match question {
            Question::Void => self.all,
            Question::Necessary(code) => self.all & !self.with_code(code),
            Question::Inadmissible(code) => self.with_code(code),
            Question::Superfluous(variant) => self.using(variant),
            Question::Ambiguous {
                position: _,
                first,
                second,
            } => self.using(first) & self.using(second),
            Question::Uncovered(position) => self.all & !self.covering(book, day, position),
        }
    }

    /// Whether there is none.
    pub fn is_empty(&self) -> bool
        ensures { result ≡ (length self.now == 0) }
    {
        self.found.is_empty()
    }

    /// The set that was found last.
    pub fn latest(&self) -> Option<&Found> {
        self.found.last()
    }

    /// A set that meets the goal of a question on this day, where one is found.
    pub fn met(&self, book: &Book, day: Day, question: Question) -> Option<&Found>
        requires found { All (IsFound book.now day) self.now }
        requires fits { QuestionFits book.now question }
        ensures found { IfSome result (λ f. IsFound book.now day f.now) }
        ensures met { IfSome result (λ f. holds (goal book.now day question) f.now.set ≡ true) }
    {
        let place = self.hinted(book, day, question).trailing_zeros() as usize;
        if place < LAST_BIT {
            return met_at(book, day, &self.found, place, question);
        }
        if place > LAST_BIT || question.is_to_close() {
            return None;
        }
        met_by_any(book, day, &self.found, question)
    }

    /// Whether no set has the code, or every one: with which value a set would be new, if it would.
    pub fn new_value(&self, code: u32) -> Option<bool> {
        let sets = self.with_code(code);
        if sets == 0 {
            return Some(true);
        }
        if sets == self.all {
            return Some(false);
        }
        None
    }
}

// The set at this place, if it meets the goal of a question.
fn met_at<'a>(
    book: &Book,
    day: Day,
    found: &'a [Found],
    place: usize,
    question: Question,
) -> Option<&'a Found>
    requires found { All (IsFound book.now day) found.now }
    requires fits { QuestionFits book.now question }
    ensures found { IfSome result (λ f. IsFound book.now day f.now) }
    ensures met { IfSome result (λ f. holds (goal book.now day question) f.now.set ≡ true) }
{
    if place >= found.len() {
        return None;
    }
    let found = &found[place];
    if !meets(book, day, found, question) {
        return None;
    }
    Some(found)
}

// The first set without a bit of its own that meets the goal of a question. The others were ruled out by their bits.
fn met_by_any<'a>(
    book: &Book,
    day: Day,
    found: &'a [Found],
    question: Question,
) -> Option<&'a Found>
    requires found { All (IsFound book.now day) found.now }
    requires fits { QuestionFits book.now question }
    ensures found { IfSome result (λ f. IsFound book.now day f.now) }
    ensures met { IfSome result (λ f. holds (goal book.now day question) f.now.set ≡ true) }
{
    for place in LAST_BIT..found.len() {
        match met_at(book, day, found, place, question) {
            Some(met) => return Some(met),
            None => {}
        }
    }
    None
}

// Whether some of these sets, which are good on a day, isn't on another one.
fn any_spoilt(book: &Book, before: Day, day: Day, found: &[Found]) -> bool
    requires { All (IsFound book.now before) found.now }
    ensures { result ≡ list_any (λ f. is_spoilt book.now before day f.set) found.now }
{
    found.iter().any(|one| is_spoilt(book, before, day, one))
}

// Whether a set that is good on a day isn't on another one: a rule is against it that wasn't active before.
fn is_spoilt(book: &Book, before: Day, day: Day, found: &Found) -> bool
    requires { IsFound book.now before found.now }
    ensures { result ≡ is_spoilt book.now before day found.now.set }
{
    any_fires_anew(book.supplements(), before, day, &found.set)
        || any_breaks_anew(book.constructs(), before, day, &found.set)
}

fn any_fires_anew(supplements: &[Supplement], before: Day, day: Day, set: &CodeSet) -> bool
    requires { All (SupplementFits (length set.now)) supplements.now }
    ensures { result ≡ list_any (fires_anew before day set.now) supplements.now }
{
    supplements
        .iter()
        .any(|rule| fires_anew(rule, before, day, set))
}

fn fires_anew(rule: &Supplement, before: Day, day: Day, set: &CodeSet) -> bool
    requires { SupplementFits (length set.now) rule.now }
    ensures { result ≡ fires_anew before day set.now rule.now }
{
    !active(rule.from, rule.until, before) && fires(rule, day, set)
}

fn any_breaks_anew(constructs: &[Construct], before: Day, day: Day, set: &CodeSet) -> bool
    requires { All (ConstructFits (length set.now)) constructs.now }
    ensures { result ≡ list_any (breaks_anew before day set.now) constructs.now }
{
    constructs
        .iter()
        .any(|rule| breaks_anew(rule, before, day, set))
}

fn breaks_anew(rule: &Construct, before: Day, day: Day, set: &CodeSet) -> bool
    requires { ConstructFits (length set.now) rule.now }
    ensures { result ≡ breaks_anew before day set.now rule.now }
{
    !active(rule.from, rule.until, before) && breaks(rule, day, set)
}

// Whether a set is of the codes of a book, and good on a day.
fn is_good_on(book: &Book, day: Day, set: &CodeSet) -> bool
    ensures counted { result ≡ true → length set.now ≡ length book.now.codes }
    ensures good { result ≡ true → is_good book.now day set.now ≡ true }
{
    set.len() == book.codes().len() && is_good(book, day, set)
}

// Enters a set into the table of codes.
fn mark_codes(with_code: &mut [u64], set: &CodeSet, bit: u64) {
    for (code, sets) in with_code.iter_mut().enumerate() {
        if code < set.len() as usize && set.has(code as u32) {
            *sets |= bit;
        }
    }
}

// Enters a set into the table of variants.
fn mark_used(using: &mut [u64], usages: &[bool], bit: u64) {
    for (variant, sets) in using.iter_mut().enumerate() {
        if usages.get(variant) == Some(&true) {
            *sets |= bit;
        }
    }
}

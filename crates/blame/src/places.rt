//! The entries in which a code stands, and the codes of an entry. They are hints: nothing is claimed of them.

use crate::codes::push_codes;
use crate::entries::Entry;
use crate::plain::push_clause;
use crate::values::is_met;
use book_model::Book;
use clause_pool::Lit;
use pb_base::Memory;
use std::alloc::Global;

/// For each code the entries in which it stands, and for each entry its codes, and its literals where it is a clause.
#[derive(Drop)]
pub(crate) struct Places {
    // By code, and of one code by entry. For each code where its own begin and end.
    stands: Vec<Stand>,
    firsts: Vec<usize>,
    stand_ends: Vec<usize>,
    // The codes of all entries, and for each where they end.
    codes: Vec<u32>,
    ends: Vec<usize>,
    // The literals of the entries that are clauses, and for each entry where its own end. Others have none.
    lits: Vec<Lit>,
    lit_ends: Vec<usize>,
}

/// That a code stands in the entry at a place, and how, where this is a clause.
#[derive(Clone, Copy, PartialEq, Eq, PartialOrd, Ord)]
pub(crate) struct Stand {
    code: u32,
    pub(crate) entry: usize,
    /// In a clause, which value of the code makes it true.
    pub(crate) value: Option<bool>,
}

impl Places {
    /// Where the codes stand.
    pub(crate) fn of(alloc: Global, book: &Book, entries: &[Entry]) -> Result<Places, Memory> {
        let codes = book.codes().len() as usize;
        let mut places = Places {
            stands: Vec::new(alloc),
            firsts: vec![in alloc; 0; codes]?,
            stand_ends: vec![in alloc; 0; codes]?,
            codes: Vec::new(alloc),
            ends: Vec::new(alloc),
            lits: Vec::new(alloc),
            lit_ends: Vec::new(alloc),
        };
        for entry in entries {
            places.push(book, *entry)?;
        }
        places.stands.sort_unstable();
        places.find_ends();
        Ok(places)
    }

    // Puts an entry behind the others.
    fn push(&mut self, book: &Book, entry: Entry) -> Result<(), Memory> {
        let place = self.ends.len();
        let first = self.lits.len();
        push_entry_clause(&mut self.lits, book, entry)?;
        if self.lits.len() == first {
            self.push_codes_of(book, entry, place)?;
        } else {
            self.push_lits_from(first, place)?;
        }
        let end = self.codes.len();
        self.ends.push(end)?;
        let lit_end = self.lits.len();
        self.lit_ends.push(lit_end)?;
        Ok(())
    }

    // The same of the codes of one that isn't a clause.
    fn push_codes_of(&mut self, book: &Book, entry: Entry, place: usize) -> Result<(), Memory> {
        let first = self.codes.len();
        push_codes(&mut self.codes, book, entry)?;
        for at in first..self.codes.len() {
            if let Some(code) = self.codes.get(at) {
                self.stands.push(Stand {
                    code: *code,
                    entry: place,
                    value: None,
                })?;
            }
        }
        Ok(())
    }

    // The same of one that is a clause, by its literals, which are the last ones, from a place on.
    fn push_lits_from(&mut self, first: usize, place: usize) -> Result<(), Memory> {
        for at in first..self.lits.len() {
            if let Some(lit) = self.lits.get(at) {
                self.codes.push(lit.var())?;
                self.stands.push(Stand {
                    code: lit.var(),
                    entry: place,
                    value: Some(lit.positive()),
                })?;
            }
        }
        Ok(())
    }

    // For each code where its own begin and end.
    fn find_ends(&mut self) {
        for (at, stand) in self.stands.iter().enumerate() {
            let code = stand.code as usize;
            if code < self.firsts.len() && code < self.stand_ends.len() {
                if self.stand_ends[code] == 0 {
                    self.firsts[code] = at;
                }
                self.stand_ends[code] = at + 1;
            }
        }
    }

    /// The entries in which a code stands.
    pub(crate) fn of_code(&self, code: u32) -> &[Stand] {
        let first = end_at(&self.firsts, code as usize);
        match self
            .stands
            .get(first..end_at(&self.stand_ends, code as usize))
        {
            Some(stands) => stands,
            None => &[],
        }
    }

    /// The codes of the entry at a place.
    pub(crate) fn codes(&self, place: usize) -> &[u32] {
        let first = match place.checked_sub(1) {
            Some(before) => end_at(&self.ends, before),
            None => 0,
        };
        match self.codes.get(first..end_at(&self.ends, place)) {
            Some(codes) => codes,
            None => &[],
        }
    }

    /// The literals of the entry at a place, if it is a clause, else none.
    pub(crate) fn clause(&self, place: usize) -> &[Lit] {
        let first = match place.checked_sub(1) {
            Some(before) => end_at(&self.lit_ends, before),
            None => 0,
        };
        match self.lits.get(first..end_at(&self.lit_ends, place)) {
            Some(lits) => lits,
            None => &[],
        }
    }

    /// Whether the entry at a place, which is active, is met by a set that is told by truth values.
    pub(crate) fn is_met(&self, book: &Book, values: &[bool], place: usize, entry: Entry) -> bool {
        let clause = self.clause(place);
        if clause.is_empty() {
            return is_met(book, values, entry);
        }
        clause.iter().any(|lit| values.get(lit.var() as usize) == Some(&lit.positive()))
    }
}

fn end_at(ends: &[usize], place: usize) -> usize {
    match ends.get(place) {
        Some(end) => *end,
        None => 0,
    }
}

// Puts the literals of an entry behind others, if it is a clause.
fn push_entry_clause(lits: &mut Vec<Lit>, book: &Book, entry: Entry) -> Result<(), Memory> {
    match entry {
        Entry::Supplement(_) => Ok(()),
        Entry::Construct(place) => match book.constructs().get(place as usize) {
            Some(construct) => push_clause(lits, &construct.demand),
            None => Ok(()),
        },
        Entry::Chosen(code) => {
            lits.push(Lit::new(code, true))?;
            Ok(())
        }
    }
}

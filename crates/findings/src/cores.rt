//! Clauses that may show that a question has no set, so that no search is begun for it. No answer hangs on it: a clause is looked at
//! before it counts, since it may rest on periods that the slice isn't in.
use book_model::Book;
use clause_pool::{Kernel, Lit, Ref};
use clausify::Question;
use pb_base::Memory;
use std::alloc::Global;

/// By what is asked, the latest clause of complements of what that assumes, and of periods.
#[derive(Drop)]
pub(crate) struct Cores {
    // By the code of a literal that is assumed alone.
    by_lit: Vec<Option<u32>>,
    // By variant, its place in its position, and where its pairs begin.
    ranks: Vec<usize>,
    pair_starts: Vec<usize>,
    by_pair: Vec<Option<u32>>,
    by_position: Vec<Option<u32>>,
}

impl Cores {
    /// None yet, over so many variables.
    pub(crate) fn none(alloc: Global, book: &Book, vars: u32) -> Result<Cores, Memory> {
        let mut cores = Cores {
            by_lit: vec![in alloc; None; (vars as usize).wrapping_mul(2)]?,
            ranks: vec![in alloc; 0; book.variants().len()]?,
            pair_starts: vec![in alloc; 0; book.variants().len()]?,
            by_pair: Vec::new(alloc),
            by_position: vec![in alloc; None; book.positions().len()]?,
        };
        let mut pairs: usize = 0;
        for position in 0..book.positions().len() {
            pairs = cores.number(book.variants_of(position as u32), pairs);
        }
        cores.by_pair.resize(pairs, None)?;
        Ok(cores)
    }

    // Numbers the pairs of a position from this number on, and gives the next one.
    fn number(&mut self, variants: &[u32], from: usize) -> usize {
        let mut pairs = from;
        for (rank, variant) in variants.iter().enumerate() {
            if let Some(entry) = self.ranks.get_mut(*variant as usize) {
                *entry = rank;
            }
            if let Some(entry) = self.pair_starts.get_mut(*variant as usize) {
                *entry = pairs;
            }
            let behind = variants.len().wrapping_sub(rank).wrapping_sub(1);
            pairs = pairs.wrapping_add(behind);
        }
        pairs
    }

    fn pair_place(&self, first: u32, second: u32) -> Option<usize> {
        let one = *self.ranks.get(first as usize)?;
        let other = *self.ranks.get(second as usize)?;
        let start = *self.pair_starts.get(first as usize)?;
        Some(start.wrapping_add(other).wrapping_sub(one).wrapping_sub(1))
    }

    /// The clause for a pair, or for one of the two literals alone.
    pub(crate) fn of_pair(&self, first: u32, second: u32, lits: &[Lit]) -> Option<Ref> {
        if let Some(at) = entry_at(&self.by_pair, self.pair_place(first, second)?) {
            return Some(at);
        }
        for lit in lits {
            if let Some(at) = entry_at(&self.by_lit, lit.code() as usize) {
                return Some(at);
            }
        }
        None
    }

    /// The clause for a question that assumes these literals.
    pub(crate) fn at(&self, question: Question, assumed: &[Lit]) -> Option<Ref> {
        match question {
            Question::Void => None,
            Question::Ambiguous {
                position: _,
                first,
                second,
            } => self.of_pair(first, second, assumed),
            Question::Uncovered(position) => entry_at(&self.by_position, position as usize),
            _ => entry_at(&self.by_lit, assumed.first()?.code() as usize),
        }
    }

    /// The clause at a place of the kernel is one for a question that assumes these literals.
    pub(crate) fn put(&mut self, kernel: &Kernel, question: Question, assumed: &[Lit], at: Ref) {
        match question {
            Question::Void => {}
            Question::Ambiguous {
                position: _,
                first,
                second,
            } => self.put_pair(kernel, first, second, assumed, at),
            Question::Uncovered(position) => put(&mut self.by_position, position as usize, at),
            _ => {
                if let Some(lit) = assumed.first() {
                    put(&mut self.by_lit, lit.code() as usize, at);
                }
            }
        }
    }

    /// The same for a pair. Where the clause speaks of one of the two literals alone, it is one for that.
    pub(crate) fn put_pair(
        &mut self,
        kernel: &Kernel,
        first: u32,
        second: u32,
        lits: &[Lit],
        at: Ref,
    ) {
        if let Some(place) = self.pair_place(first, second) {
            put(&mut self.by_pair, place, at);
        }
        if let Some(lit) = alone_in(kernel, lits, at) {
            put(&mut self.by_lit, lit.code() as usize, at);
        }
    }
}

// The one of these literals whose complement the clause at a place has, if it has no other one's.
fn alone_in(kernel: &Kernel, lits: &[Lit], at: Ref) -> Option<Lit> {
    let pool = kernel.pool();
    if at >= pool.len() {
        return None;
    }
    let mut alone = None;
    for lit in pool.lits(at) {
        let other = lit.not();
        if lits.iter().any(|one| *one == other) {
            if alone.is_some() {
                return None;
            }
            alone = Some(other);
        }
    }
    alone
}

fn entry_at(entries: &[Option<u32>], place: usize) -> Option<Ref> {
    match entries.get(place) {
        Some(Some(at)) => Some(*at as usize),
        _ => None,
    }
}

fn put(entries: &mut [Option<u32>], place: usize, at: Ref) {
    if let Some(entry) = entries.get_mut(place) {
        *entry = u32::try_from(at).ok();
    }
}

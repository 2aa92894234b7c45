//! Where the variables and clauses of a slice stand in a later one. What a record made stands between two starts of a layout, in
//! the same order in both, so all of it moves together where the record is active in both; a goal moves where its gate, moved,
//! is the gate of the other. No contract speaks of it: what is derived again over moved clauses is checked as it is derived.
ghost use Rattle.std.specs.Prelude.{◌<◌, All, length};

use book_model::{Book, Construct, Position, Supplement, active};
use chains::PlaceMap;
use clause_pool::{Lit, Ref};
use clausify::{Gate, Layout, Start};
use pb_base::{Day, Memory};
use std::alloc::Global;

/// The first days of a slice and of a later one.
#[derive(Clone, Copy)]
pub(crate) struct Days {
    pub(crate) before: Day,
    pub(crate) now: Day,
}

// Whether something is there before, and now.
#[derive(Clone, Copy)]
struct There {
    before: bool,
    now: bool,
}

// The variables and clauses from a start on and before the end.
#[derive(Clone, Copy)]
struct Run {
    start: Start,
    end: Start,
}

/// By variable and by clause of the slice before, where it stands now.
#[derive(Drop)]
pub(crate) struct Moves {
    vars: Vec<Option<u32>>,
    clauses: Vec<Option<u32>>,
    // The variable of the next goal now.
    next_goal: u32,
}

impl Moves {
    /// Those between two slices of a book, of these layouts.
    pub(crate) fn of(
        alloc: Global,
        book: &Book,
        days: Days,
        before: &Layout,
        now: &Layout,
    ) -> Result<Moves, Memory> {
        let mut moves = Moves {
            vars: Vec::new(alloc),
            clauses: Vec::new(alloc),
            next_goal: now.goals.var,
        };
        moves.keep_codes(book.codes().len())?;
        let there = records_of(alloc, book, days)?;
        moves.add_records(before, now, &there)?;
        moves.add_goals(book, before, now, &there)?;
        Ok(moves)
    }

    // The codes and the variable that is always true stay, and so does the clause that says so.
    fn keep_codes(&mut self, codes: u32) -> Result<(), Memory> {
        put_vars(&mut self.vars, 0, codes)?;
        self.vars.push(Some(codes))?;
        self.clauses.push(Some(0))?;
        Ok(())
    }

    // What the records make, of which these are there.
    fn add_records(
        &mut self,
        before: &Layout,
        now: &Layout,
        there: &[There],
    ) -> Result<(), Memory> {
        let mut from: usize = 0;
        let mut to: usize = 0;
        for record in there {
            let run = run_if(record.before, before, from);
            let moved = run_if(record.now, now, to);
            self.add_run(run, moved)?;
            from = place_after(from, record.before);
            to = place_after(to, record.now);
        }
        Ok(())
    }

    // What a record made that had a run before, and has this one now.
    fn add_run(&mut self, before: Option<Run>, now: Option<Run>) -> Result<(), Memory> {
        let Some(before) = before else {
            return Ok(());
        };
        match now {
            Some(now) => {
                put_vars(&mut self.vars, now.start.var, now.end.var)?;
                put_places(&mut self.clauses, now.start.clause, now.end.clause)
            }
            None => {
                let vars = before.end.var.saturating_sub(before.start.var) as usize;
                put_nones(&mut self.vars, vars)?;
                let clauses = before.end.clause.saturating_sub(before.start.clause);
                put_nones(&mut self.clauses, clauses)
            }
        }
    }

    // The goals of the questions of each position, where these records are there.
    fn add_goals(
        &mut self,
        book: &Book,
        before: &Layout,
        now: &Layout,
        there: &[There],
    ) -> Result<(), Memory> {
        let rules = book.supplements().len();
        let mut from = rules.saturating_add(book.constructs().len());
        for (place, position) in book.positions().iter().enumerate() {
            let until = from.saturating_add(book.variants_of(place as u32).len());
            let Some(variants) = there.get(from..until) else {
                return Ok(());
            };
            self.add_pairs(before, now, variants)?;
            if position.mandatory {
                self.add_uncovered(before, now, variants)?;
            }
            from = until;
        }
        Ok(())
    }

    // Those of two of these variants each.
    fn add_pairs(
        &mut self,
        before: &Layout,
        now: &Layout,
        variants: &[There],
    ) -> Result<(), Memory> {
        for (k, first) in variants.iter().enumerate() {
            for second in &variants[k + 1..] {
                self.add_goal(before, now, first.and(*second))?;
            }
        }
        Ok(())
    }

    // That none of these variants is used. It is made step by step, one fewer than there are variants.
    fn add_uncovered(
        &mut self,
        before: &Layout,
        now: &Layout,
        variants: &[There],
    ) -> Result<(), Memory> {
        let were = variants.iter().filter(|there| there.before).count();
        let are = variants.iter().filter(|there| there.now).count();
        for step in 1..variants.len() {
            let there = There {
                before: step < were,
                now: step < are,
            };
            self.add_goal(before, now, there)?;
        }
        Ok(())
    }

    // A further goal, or a step of one.
    fn add_goal(&mut self, before: &Layout, now: &Layout, there: There) -> Result<(), Memory> {
        if there.before {
            let gate = if there.now {
                self.moved_gate(before, now)
            } else {
                None
            };
            self.put_goal(gate)?;
        }
        if there.now {
            self.next_goal = self.next_goal.saturating_add(1);
        }
        Ok(())
    }

    // The next goal before is the next one now, which has this gate, or it is gone.
    fn put_goal(&mut self, gate: Option<Gate>) -> Result<(), Memory> {
        match gate {
            Some(gate) => {
                self.vars.push(Some(self.next_goal))?;
                put_places(
                    &mut self.clauses,
                    gate.clause,
                    gate.clause.saturating_add(3),
                )
            }
            None => {
                self.vars.push(None)?;
                put_nones(&mut self.clauses, 3)
            }
        }
    }

    // The gate of the next goal now, if it is that of the next variable before, moved.
    fn moved_gate(&self, before: &Layout, now: &Layout) -> Option<Gate> {
        let var = short(self.vars.len())?;
        let old = before.gates.gate(var)?;
        let new = now.gates.gate(self.next_goal)?;
        let left = self.literal_now(old.left)?;
        let right = self.literal_now(old.right)?;
        if new.joint != old.joint || new.left != left || new.right != right {
            return None;
        }
        Some(new)
    }

    // What a literal is now, if it has a variable.
    fn literal_now(&self, lit: Lit) -> Option<Lit> {
        match self.vars.get(lit.var() as usize) {
            Some(Some(var)) => Some(Lit::new(*var, lit.positive())),
            _ => None,
        }
    }
}

impl PlaceMap for Moves {
    fn place(&self, at: Ref) -> Option<Ref> {
        match self.clauses.get(at) {
            Some(Some(place)) => Some(*place as usize),
            _ => None,
        }
    }

    fn literal(&self, lit: Lit) -> Option<Lit> {
        self.literal_now(lit)
    }

    fn put(&mut self, place: Option<Ref>) -> Result<(), Memory> {
        let place = match place {
            Some(at) => short(at),
            None => None,
        };
        self.clauses.push(place)?;
        Ok(())
    }
}

impl Days {
    fn there(self, from: Day, until: Day) -> There {
        There {
            before: active(from, until, self.before),
            now: active(from, until, self.now),
        }
    }

    // Whether the variant at a place, of this position, is a choice.
    fn there_at(self, book: &Book, position: &Position, variant: u32) -> There
        requires { variant < length book.now.variants }
    {
        let record = &book.variants()[variant as usize];
        let there = self.there(position.from, position.until);
        there.and(self.there(record.from, record.until))
    }
}

impl There {
    fn and(self, other: There) -> There {
        There {
            before: self.before && other.before,
            now: self.now && other.now,
        }
    }
}

// A place as it is kept. One of more than 32 bits isn't found again.
fn short(at: usize) -> Option<u32> {
    u32::try_from(at).ok()
}

// The variables from one on and before another.
fn put_vars(vars: &mut Vec<Option<u32>>, from: u32, until: u32) -> Result<(), Memory> {
    for var in from..until {
        vars.push(Some(var))?;
    }
    Ok(())
}

// The places from one on and before another.
fn put_places(clauses: &mut Vec<Option<u32>>, from: Ref, until: Ref) -> Result<(), Memory> {
    for at in from..until {
        clauses.push(short(at))?;
    }
    Ok(())
}

// So many that are gone.
fn put_nones(list: &mut Vec<Option<u32>>, count: usize) -> Result<(), Memory> {
    for _ in 0..count {
        list.push(None)?;
    }
    Ok(())
}

// What the record made whose start has this place, if it is there.
fn run_if(is_there: bool, layout: &Layout, place: usize) -> Option<Run> {
    if !is_there {
        return None;
    }
    let start = *layout.starts.get(place)?;
    let end = *layout
        .starts
        .get(place.wrapping_add(1))
        .unwrap_or(&layout.goals);
    Some(Run { start, end })
}

// The place behind this one, if that is taken.
fn place_after(place: usize, is_taken: bool) -> usize {
    if is_taken {
        return place.wrapping_add(1);
    }
    place
}

// The records of a book in the order in which a layout has them.
fn records_of(alloc: Global, book: &Book, days: Days) -> Result<Vec<There>, Memory> {
    let mut all = Vec::new(alloc);
    put_supplements(&mut all, days, book.supplements())?;
    put_constructs(&mut all, days, book.constructs())?;
    put_usages(&mut all, days, book)?;
    Ok(all)
}

fn put_supplements(
    all: &mut Vec<There>,
    days: Days,
    supplements: &[Supplement],
) -> Result<(), Memory> {
    for supplement in supplements {
        all.push(days.there(supplement.from, supplement.until))?;
    }
    Ok(())
}

fn put_constructs(
    all: &mut Vec<There>,
    days: Days,
    constructs: &[Construct],
) -> Result<(), Memory> {
    for construct in constructs {
        all.push(days.there(construct.from, construct.until))?;
    }
    Ok(())
}

// The variants of each position.
fn put_usages(all: &mut Vec<There>, days: Days, book: &Book) -> Result<(), Memory> {
    for (place, position) in book.positions().iter().enumerate() {
        put_variants(all, days, book, position, book.variants_of(place as u32))?;
    }
    Ok(())
}

fn put_variants(
    all: &mut Vec<There>,
    days: Days,
    book: &Book,
    position: &Position,
    variants: &[u32],
) -> Result<(), Memory>
    requires { All (λ v. v < length book.now.variants) variants.now }
{
    for variant in variants {
        all.push(days.there_at(book, position, *variant))?;
    }
    Ok(())
}

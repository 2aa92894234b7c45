//! Which literals are true, in the order in which they became so.
ghost use Rattle.std.specs.Prelude.{◌≡◌, ℕ, ◌+◌, ◌-◌, ◌*◌, ◌/◌, ◌<◌, ◌≤◌, ◌^◌, [], ◌∷◌, ◌++◌, length, take, slice_index, slice_index_or, IfOk, OnOk, IfSome, IfNone, Some, None, true, false};
ghost use Rattle.clause_pool.specs.Literal.{complement};
ghost use Rattle.clause_pool.specs.Clause.{has};
ghost use Rattle.propagate.specs.Trail.{IsAbsent, AreRising};
ghost use Rattle.propagate.specs.Assignment.{IsAssigned, none_assigned, with_literal, with_level, first_literals, first_levels, cut_to, value_over, known, end_of, OpensBehind};

use clause_pool::Lit;
use pb_base::Memory;
use std::alloc::Global;
use std::marker::Model;

// What is known of a literal.
#[derive(Clone, Copy)]
enum Truth {
    Open,
    Holds,
    Fails,
}

/// The literals that are true: a trail, with the truth of each literal and the place of each variable beside
/// it.
#[derive(Drop)]
pub(crate) struct Assignment {
    // By the code of a literal.
    values: Vec<Truth>,
    // By variable; it says nothing for a variable that isn't on the trail.
    places: Vec<u32>,
    lits: Vec<Lit>,
    reasons: Vec<Option<u32>>,
    starts: Vec<u32>,
}

impl Model for Assignment {
    ghost use Rattle.std.specs.Prelude.{◌≤◌, ◌<◌, ◌^◌, length, vec_capacity};
    ghost use Rattle.propagate.specs.Assignment.{Assigned, IsAssigned, AreTables};

    ghost Value = { Assigned };

    ghost view = { λ a. record {
      vars = length a.places.items;
      lits = a.lits.items;
      reasons = a.reasons.items;
      starts = a.starts.items;
    } };

    ghost invariant = { λ a. IsAssigned (record {
      vars = length a.places.items;
      lits = a.lits.items;
      reasons = a.reasons.items;
      starts = a.starts.items;
    })
        × AreTables a.values.items a.places.items (record {
          vars = length a.places.items;
          lits = a.lits.items;
          reasons = a.reasons.items;
          starts = a.starts.items;
        })
        × (length a.places.items < 2 ^ 31)
        × (length a.places.items ≤ vec_capacity a.lits)
        × (length a.places.items ≤ vec_capacity a.reasons)
        × (length a.places.items ≤ vec_capacity a.starts) };
}

impl Assignment {
    /// Nothing is true. The room for all variables and as many levels is made here; there is none for 2^31
    /// variables.
    pub(crate) fn new(alloc: Global, vars: u32) -> Result<Assignment, Memory>
        ensures none { IfOk result (λ a. a ≡ none_assigned vars) }
        ensures small { OnOk result (vars < 2 ^ 31) }
    {
        if vars >= 1 << 31 {
            return Err(Memory);
        }
        let room = vars as usize;
        Ok(Assignment {
            values: vec![in alloc; Truth::Open; room + room]?,
            places: vec![in alloc; 0; room]?,
            lits: Vec::with_capacity(alloc, room)?,
            reasons: Vec::with_capacity(alloc, room)?,
            starts: Vec::with_capacity(alloc, room)?,
        })
    }

    /// The number of variables.
    pub(crate) fn vars(&self) -> u32
        ensures { result ≡ self.now.vars }
    {
        self.places.len() as u32
    }

    /// The literals that are true, the earliest first.
    pub(crate) fn lits(&self) -> &[Lit]
        ensures value { result.now ≡ self.now.lits }
        ensures assigned { IsAssigned self.now }
        ensures small { self.now.vars < 2 ^ 31 }
    {
        &self.lits
    }

    /// What is known of every assignment; the call does nothing.
    pub(crate) fn assigned_law(&self)
        ensures assigned { IsAssigned self.now }
        ensures small { self.now.vars < 2 ^ 31 }
    {
        let _lits = &self.lits;
    }

    /// The number of levels.
    pub(crate) fn level(&self) -> usize
        ensures levels { result ≡ length self.now.starts }
        ensures small { result < 2 ^ 31 }
    {
        self.starts.len()
    }

    // What is known of a literal, by its code.
    #[inline(always)]
    fn truth(&self, code: u32) -> Truth
        requires { code < self.now.vars + self.now.vars }
        ensures value { known result ≡ value_over self.now.lits code }
        ensures assigned { IsAssigned self.now }
    {
        self.values[code as usize]
    }

    /// Whether a literal is true or false, by its code.
    #[inline(always)]
    pub(crate) fn value(&self, code: u32) -> Option<bool>
        requires { code < self.now.vars + self.now.vars }
        ensures value { result ≡ value_over self.now.lits code }
        ensures assigned { IsAssigned self.now }
    {
        match self.truth(code) {
            Truth::Open => None,
            Truth::Holds => Some(true),
            Truth::Fails => Some(false),
        }
    }

    /// Whether a literal is true, by its code.
    #[inline(always)]
    pub(crate) fn is_true(&self, code: u32) -> bool
        requires { code < self.now.vars + self.now.vars }
        ensures { result ≡ has self.now.lits code }
    {
        match self.truth(code) {
            Truth::Holds => true,
            Truth::Open | Truth::Fails => false,
        }
    }

    /// Whether a literal is false, by its code.
    #[inline(always)]
    pub(crate) fn is_false(&self, code: u32) -> bool
        requires { code < self.now.vars + self.now.vars }
        ensures { result ≡ has self.now.lits (complement code) }
    {
        match self.truth(code) {
            Truth::Fails => true,
            Truth::Open | Truth::Holds => false,
        }
    }

    /// Where the literals of the levels up to this one end.
    pub(crate) fn end_of(&self, level: usize) -> usize
        ensures { result ≡ end_of self.now level }
    {
        match self.starts.get(level) {
            Some(start) => *start as usize,
            None => self.lits.len(),
        }
    }

    /// The clause that made the literal at this place true.
    pub(crate) fn reason_at(&self, place: usize) -> Option<u32>
        requires { place < length self.now.lits }
        ensures { result ≡ slice_index_or self.now.reasons place None }
    {
        self.reasons[place]
    }

    /// The place of a variable on the trail.
    pub(crate) fn place_of(&self, var: u32) -> Option<usize>
        requires { var < self.now.vars }
        ensures within { IfSome result (λ place. place < length self.now.lits) }
        ensures variable { IfSome result (λ place. slice_index self.now.lits place / 2 ≡ var) }
        ensures assigned { IsAssigned self.now }
        ensures none { IfNone result (IsAbsent self.now.lits var) }
    {
        self.assigned_law();
        match self.truth(2 * var) {
            Truth::Open => None,
            Truth::Holds | Truth::Fails => Some(self.places[var as usize] as usize),
        }
    }

    /// The level of the literal at this place of the trail.
    pub(crate) fn level_at(&self, place: usize) -> usize
        requires { place < length self.now.lits }
        ensures level { result ≤ length self.now.starts }
        ensures before { (m : ℕ) → m < result → end_of self.now m ≤ place }
        ensures behind { place < end_of self.now result }
    {
        count_upto(&self.starts, place)
    }

    /// Whether a literal was false before this place of the trail.
    pub(crate) fn was_false(&self, code: u32, end: usize) -> bool
        requires { code < self.now.vars + self.now.vars }
        ensures { result ≡ has (take end self.now.lits) (complement code) }
    {
        if !self.is_false(code) {
            return false;
        }
        match self.place_of(code / 2) {
            Some(place) => place < end,
            None => false,
        }
    }

    /// Makes a literal true that is open.
    #[inline(always)]
    pub(crate) fn put(&mut self, lit: Lit, reason: Option<u32>)
        requires below { lit < self.old.vars + self.old.vars }
        requires not_true { has self.old.lits lit ≡ false }
        requires not_false { has self.old.lits (complement lit) ≡ false }
        ensures literal { self.new ≡ with_literal self.old lit reason }
        ensures assigned { IsAssigned self.new }
    {
        self.values[lit.code() as usize] = Truth::Holds;
        self.values[lit.not().code() as usize] = Truth::Fails;
        self.places[lit.var() as usize] = self.lits.len() as u32;
        self.lits.push_reserved(lit);
        self.reasons.push_reserved(reason);
    }

    /// Opens a level.
    pub(crate) fn open_level(&mut self)
        requires { length self.old.starts < self.old.vars }
        ensures { self.new ≡ with_level self.old }
    {
        self.starts.push(self.lits.len() as u32).unwrap();
    }

    // Takes back all literals behind the first so many.
    fn keep_literals(&mut self, end: usize)
        requires counted { length self.old.reasons ≡ length self.old.lits }
        requires end { end ≤ length self.old.lits }
        requires within { (i : ℕ) → i < length self.old.starts → slice_index self.old.starts i ≤ end }
        ensures { self.new ≡ first_literals self.old end }
    {
        open_behind(&mut self.values, &self.lits, end);
        self.lits.truncate(end);
        self.reasons.truncate(end);
    }

    // Forgets all levels behind this one, but not their literals.
    fn keep_levels(&mut self, level: usize)
        requires { level ≤ length self.old.starts }
        ensures { self.new ≡ first_levels self.old level }
    {
        self.starts.truncate(level);
    }

    /// Takes back all levels behind this one.
    pub(crate) fn cut(&mut self, level: usize)
        requires { level ≤ length self.old.starts }
        ensures { self.new ≡ cut_to self.old level }
    {
        let end = self.end_of(level);
        self.assigned_law();
        self.keep_levels(level);
        self.keep_literals(end);
    }
}

// Opens the literals behind the first so many.
#[inline(always)]
fn open_behind(values: &mut [Truth], lits: &[Lit], end: usize)
    requires end { end ≤ length lits.now }
    requires literals { (l : ℕ) → has lits.now l ≡ true → l < length values.old }
    requires complements { (l : ℕ) → has lits.now l ≡ true → complement l < length values.old }
    ensures opened { OpensBehind values.old values.new lits.now end end }
    ensures count { length values.new ≡ length values.old }
{
    let mut at = lits.len();
    while end < at {
        at -= 1;
        let lit = lits[at];
        values[lit.code() as usize] = Truth::Open;
        values[lit.not().code() as usize] = Truth::Open;
    }
}

// How many of these rising numbers aren't above this one.
fn count_upto(starts: &[u32], place: usize) -> usize
    requires { AreRising starts.now }
    ensures count { result ≤ length starts.now }
    ensures upto { (m : ℕ) → m < result → slice_index starts.now m ≤ place }
    ensures above { (m : ℕ) → result ≤ m → m < length starts.now
        → place < slice_index starts.now m }
{
    starts.partition_point(|start| *start as usize <= place)
}

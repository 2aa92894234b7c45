//! The clauses of groups of codes, in any pool, each behind a guard or none.
ghost use Rattle.std.specs.Prelude.{◌≡◌, ◌≤◌, ◌++◌, ◌∷◌, None, [], OnErr, OnOk, length, map};
ghost use Rattle.pb_base.specs.declared.limits.TheConstants.{MOST_GROUP_CODES};
ghost use Rattle.clausify.specs.Items.{any_literals, apart_literals, clause_where};
ghost use Rattle.clausify.specs.Joints.{GrowsBy};
ghost use Rattle.clausify.specs.Pairs.{pairs};
ghost use Rattle.clausify.specs.Encoding.{EncodesAlone};

use crate::encoder::Encoder;
use clause_pool::{Lit, Pool};
use pb_base::Memory;
use pb_base::limits::MOST_GROUP_CODES;

// The guard's literal and one of each code.
const MOST_LITERALS: usize = MOST_GROUP_CODES + 1;

/// One of these codes is present where the guard is, or always where there is none.
pub fn add_any(pool: &mut Pool, guard: Option<u32>, codes: &[u32]) -> Result<(), Memory>
    requires { length codes.now ≤ MOST_GROUP_CODES }
    ensures ok { OnOk result (pool.new.clauses
        ≡ pool.old.clauses ++ clause_where guard (any_literals codes.now) ∷ []) }
    ensures err { OnErr result (pool.new.clauses ≡ pool.old.clauses) }
{
    let mut lits = [Lit::new(guard.unwrap_or(0), false); MOST_LITERALS];
    for (place, code) in codes.iter().enumerate() {
        lits[place + 1] = Lit::new(*code, true);
    }
    let lits = &lits[..codes.len() + 1];
    match guard {
        None => pool.add(&lits[1..])?,
        Some(_) => pool.add(lits)?,
    };
    Ok(())
}

/// No two of these codes are present where the guard is, or ever where there is none.
pub fn add_apart(pool: &mut Pool, guard: Option<u32>, codes: &[u32]) -> Result<(), Memory>
    ensures ok { OnOk result (pool.new.clauses
        ≡ pool.old.clauses ++ map (clause_where guard) (map apart_literals (pairs codes.now))) }
    ensures grows { GrowsBy pool.old.clauses pool.new.clauses }
{
    for (place, first) in codes.iter().enumerate() {
        add_apart_from(pool, guard, *first, &codes[place + 1..])?;
    }
    Ok(())
}

// The first code is not present beside one of the later ones.
fn add_apart_from(
    pool: &mut Pool,
    guard: Option<u32>,
    first: u32,
    later: &[u32],
) -> Result<(), Memory>
    ensures ok { let apart = map apart_literals (map (λ second. (first, second)) later.now) in
        OnOk result (pool.new.clauses ≡ pool.old.clauses ++ map (clause_where guard) apart) }
    ensures grows { GrowsBy pool.old.clauses pool.new.clauses }
{
    for second in later {
        add_pair(pool, guard, first, *second)?;
    }
    Ok(())
}

// The two codes are not present together.
fn add_pair(pool: &mut Pool, guard: Option<u32>, first: u32, second: u32) -> Result<(), Memory>
    ensures ok { OnOk result (pool.new.clauses
        ≡ pool.old.clauses ++ clause_where guard (apart_literals (first, second)) ∷ []) }
    ensures err { OnErr result (pool.new.clauses ≡ pool.old.clauses) }
{
    let first = Lit::new(first, false);
    let second = Lit::new(second, false);
    match guard {
        None => pool.add(&[first, second])?,
        Some(guard) => pool.add(&[Lit::new(guard, false), first, second])?,
    };
    Ok(())
}

impl Encoder {
    /// One of these codes is present where the guard is, or always where there is none.
    pub fn any_where(&mut self, guard: Option<u32>, codes: &[u32]) -> Result<(), Memory>
        requires { length codes.now ≤ MOST_GROUP_CODES }
        ensures { let any = clause_where guard (any_literals codes.now) in
            OnOk result (EncodesAlone self.old self.new (any ∷ [])) }
    {
        add_any(&mut self.pool, guard, codes)
    }

    /// No two of these codes are present where the guard is, or ever where there is none.
    pub fn apart_where(&mut self, guard: Option<u32>, codes: &[u32]) -> Result<(), Memory>
        ensures { let apart = map (clause_where guard) (map apart_literals (pairs codes.now)) in
            OnOk result (EncodesAlone self.old self.new apart) }
    {
        add_apart(&mut self.pool, guard, codes)
    }

    /// One of these codes is present.
    pub fn any_of(&mut self, codes: &[u32]) -> Result<(), Memory>
        requires { length codes.now ≤ MOST_GROUP_CODES }
        ensures { let any = clause_where None (any_literals codes.now) in
            OnOk result (EncodesAlone self.old self.new (any ∷ [])) }
    {
        self.any_where(None, codes)
    }

    /// No two of these codes are present.
    pub fn apart(&mut self, codes: &[u32]) -> Result<(), Memory>
        ensures { let apart = map (clause_where None) (map apart_literals (pairs codes.now)) in
            OnOk result (EncodesAlone self.old self.new apart) }
    {
        self.apart_where(None, codes)
    }
}

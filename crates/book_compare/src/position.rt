//! The clauses of positions, behind those of the two books.
ghost use Rattle.std.specs.Prelude.{◌≡◌, ◌+◌, ◌++◌, ◌<◌, [], ◌∷◌, All, IfOk, OnOk, length, map, true, false};
ghost use Rattle.clause_pool.specs.Literal.{literal};
ghost use Rattle.clause_pool.specs.Clause.{clause_of};
ghost use Rattle.clausify.specs.Formulas.{either_clauses};
ghost use Rattle.book_compare.specs.Asked.{key_literals, keys_literals, asked_keys};
ghost use Rattle.book_compare.specs.Keys.{any_clauses, any_literal, either_all, either_literal, joins, position_goal};
ghost use Rattle.book_compare.specs.Asking.{Takes, TakesKey, TakesKeys, TakesPosition, TakesPositions, key_of};
ghost use Rattle.book_compare.specs.Comparing.{IsComparing};
ghost use Rattle.book_compare.specs.Together.{place_keys, searched_clauses, searched_variables, searched_goals, together_goals};

use crate::comparing::Comparing;
use crate::joint::Joint as Both;
use crate::keys::{keys_of, literals_with, usages_at};
use crate::place::Place;
use book_model::Book;
use chosen_parts::PartUse;
use clause_pool::{Lit, Pool};
use clausify::{Joint, Usage, tie};
use inquiry::Coded;
use pb_base::Memory;
use std::alloc::Global;

/// The clauses in the making, the variable that is taken next, and the literals of which one has to be true at the position in the
/// making.
#[derive(Drop)]
pub(crate) struct Asking {
    pub(crate) pool: Pool,
    pub(crate) next: u32,
    pub(crate) ways: Vec<Lit>,
}

/// The clauses of these positions, one behind the other.
pub(crate) fn encoded(
    alloc: Global,
    comparing: &Comparing,
    places: &[Place],
) -> Result<Coded, Memory>
    requires { IsComparing comparing.now }
    ensures clauses { let c = comparing.now in let clauses = searched_clauses c.first.now c.second.now c.day in
        IfOk result (λ coded. coded.pool.clauses ≡ clauses places.now) }
    ensures vars { let c = comparing.now in let variables = searched_variables c.first.now c.second.now c.day in
        IfOk result (λ coded. coded.vars ≡ variables places.now) }
    ensures goals { let c = comparing.now in let goals = searched_goals c.first.now c.second.now c.day in
        IfOk result (λ coded. coded.goals.items ≡ goals places.now) }
{
    let mut asking = Asking::behind(alloc, &comparing.joint)?;
    let goals = add_positions(alloc, &mut asking, comparing, places)?;
    Ok(asking.encoded(goals))
}

// The clauses of these positions, and the literals that ask of them.
fn add_positions(
    alloc: Global,
    asking: &mut Asking,
    comparing: &Comparing,
    places: &[Place],
) -> Result<Vec<Lit>, Memory>
    requires { IsComparing comparing.now }
    ensures made { let c = comparing.now in let keys = place_keys c.first.now c.second.now c.day places.now in
        OnOk result (TakesPositions (length c.first.now.codes) asking.old asking.new keys) }
    ensures goals { let c = comparing.now in let keys = place_keys c.first.now c.second.now c.day places.now in
        IfOk result (λ goals. goals.items ≡ together_goals asking.old.next keys) }
{
    let mut goals = Vec::new(alloc);
    for place in places {
        let lit = add_position(alloc, asking, comparing, *place)?;
        goals.push(lit)?;
    }
    Ok(goals)
}

// The clauses of a position, and the literal that asks of it.
fn add_position(
    alloc: Global,
    asking: &mut Asking,
    comparing: &Comparing,
    place: Place,
) -> Result<Lit, Memory>
    requires { IsComparing comparing.now }
    ensures made { let c = comparing.now in let keys = asked_keys c.first.now c.second.now c.day place.id in
        OnOk result (TakesPosition (length c.first.now.codes) asking.old asking.new keys) }
    ensures goal { let c = comparing.now in let keys = asked_keys c.first.now c.second.now c.day place.id in
        IfOk result (λ l. l ≡ position_goal asking.old.next keys) }
{
    let first = comparing.first;
    let second = comparing.second;
    let own = usages_at(alloc, first, &comparing.joint.first, &place.id, place.guess)?;
    let other = usages_at(
        alloc,
        second,
        &comparing.joint.second,
        &place.id,
        place.guess,
    )?;
    let lit = asking.with_usages(alloc, first, &own, second, &other)?;
    Ok(lit)
}

impl Asking {
    // Takes the next variable. Variables that don't fit into 32 bits are want of memory.
    fn take(&mut self) -> Result<u32, Memory>
        ensures taken { IfOk result (λ v. v ≡ self.old.next) }
        ensures next { OnOk result (self.new.next ≡ self.old.next + 1) }
        ensures pool { self.new.pool ≡ self.old.pool }
        ensures ways { self.new.ways ≡ self.old.ways }
    {
        let taken = self.next;
        match taken.checked_add(1) {
            Some(next) => {
                self.next = next;
                Ok(taken)
            }
            None => Err(Memory),
        }
    }

    // A variable that is true where one of the literals is.
    fn either(&mut self, left: Lit, right: Lit) -> Result<Lit, Memory>
        ensures made { OnOk result (Takes self.old self.new (either_clauses self.old.next left right) 1) }
        ensures literal { IfOk result (λ l. l ≡ literal self.old.next true) }
    {
        let var = self.take()?;
        tie(&mut self.pool, Joint::Any, var, left, right)?;
        Ok(Lit::new(var, true))
    }

    // A literal that is true where one of these is. Variable `truth` is always true.
    fn either_all(&mut self, truth: u32, lits: &[Lit]) -> Result<Lit, Memory>
        ensures made { OnOk result (Takes self.old self.new (either_all self.old.next lits.now) (joins lits.now)) }
        ensures literal { IfOk result (λ l. l ≡ either_literal truth self.old.next lits.now) }
    {
        let Some(first) = lits.first() else {
            return Ok(Lit::new(truth, false));
        };
        self.any(*first, &lits[1..])
    }

    // The same of the first one and further ones.
    fn any(&mut self, first: Lit, rest: &[Lit]) -> Result<Lit, Memory>
        ensures made { OnOk result (Takes self.old self.new (any_clauses self.old.next first rest.now) (length rest.now)) }
        ensures literal { IfOk result (λ l. l ≡ any_literal self.old.next first rest.now) }
    {
        let mut named = first;
        for lit in rest {
            named = self.either(named, *lit)?;
        }
        Ok(named)
    }

    // A variable that is true only where both literals are.
    fn way(&mut self, left: Lit, right: Lit) -> Result<(), Memory>
        ensures clauses { OnOk result (self.new.pool.clauses ≡ self.old.pool.clauses
            ++ clause_of (literal self.old.next false ∷ left ∷ []) ∷ clause_of (literal self.old.next false ∷ right ∷ []) ∷ []) }
        ensures next { OnOk result (self.new.next ≡ self.old.next + 1) }
        ensures ways { OnOk result (self.new.ways.items ≡ self.old.ways.items ++ literal self.old.next true ∷ []) }
    {
        let var = self.take()?;
        let absent = Lit::new(var, false);
        self.pool.add(&[absent, left])?;
        self.pool.add(&[absent, right])?;
        self.ways.push(Lit::new(var, true))?;
        Ok(())
    }

    // The two ways in which the books may differ by a key, whose usages have these literals.
    fn key(&mut self, truth: u32, first: &[Lit], second: &[Lit]) -> Result<(), Memory>
        ensures { OnOk result (TakesKey truth self.old self.new (key_of first.now second.now)) }
    {
        let one = self.either_all(truth, first)?;
        let other = self.either_all(truth, second)?;
        self.way(one, other.not())?;
        self.way(one.not(), other)
    }

    // All keys of a position.
    fn keys(
        &mut self,
        alloc: Global,
        first: &Book,
        first_usages: &[Usage],
        second: &Book,
        second_usages: &[Usage],
        keys: &[PartUse],
    ) -> Result<(), Memory>
        requires first { All (λ u. u.variant < length first.now.variants) first_usages.now }
        requires second { All (λ u. u.variant < length second.now.variants) second_usages.now }
        ensures { let literals = map (key_literals first.now first_usages.now second.now second_usages.now) keys.now in
            OnOk result (TakesKeys (length first.now.codes) self.old self.new literals) }
    {
        let truth = first.codes().len();
        for key in keys {
            let one = literals_with(alloc, first, first_usages, key)?;
            let other = literals_with(alloc, second, second_usages, key)?;
            self.key(truth, &one, &other)?;
        }
        Ok(())
    }

    // The last clause: one of the ways is true where the last variable is.
    fn last(&mut self, alloc: Global) -> Result<Lit, Memory>
        ensures clauses { OnOk result (self.new.pool.clauses ≡ self.old.pool.clauses
            ++ clause_of (literal self.old.next false ∷ self.old.ways.items) ∷ []) }
        ensures next { OnOk result (self.new.next ≡ self.old.next + 1) }
        ensures goal { IfOk result (λ l. l ≡ literal self.old.next true) }
    {
        let var = self.take()?;
        let mut last = Vec::with_capacity(alloc, 1)?;
        last.push(Lit::new(var, false))?;
        last.extend_from_slice(&self.ways)?;
        self.pool.add(&last)?;
        Ok(Lit::new(var, true))
    }

    // All clauses of a position with these usages, and the literal that asks of it.
    fn with_usages(
        &mut self,
        alloc: Global,
        first: &Book,
        own: &[Usage],
        second: &Book,
        other: &[Usage],
    ) -> Result<Lit, Memory>
        requires first { All (λ u. u.variant < length first.now.variants) own.now }
        requires second { All (λ u. u.variant < length second.now.variants) other.now }
        ensures made { let keys = keys_literals first.now own.now second.now other.now in
            OnOk result (TakesPosition (length first.now.codes) self.old self.new keys) }
        ensures goal { let keys = keys_literals first.now own.now second.now other.now in
            IfOk result (λ l. l ≡ position_goal self.old.next keys) }
    {
        let uses = keys_of(alloc, first, own, second, other)?;
        self.ways.clear();
        self.keys(alloc, first, own, second, other, &uses)?;
        let lit = self.last(alloc)?;
        Ok(lit)
    }

    fn encoded(self, goals: Vec<Lit>) -> Coded
        ensures clauses { result.pool.clauses ≡ self.pool.clauses }
        ensures vars { result.vars ≡ self.next }
        ensures goals { result.goals.items ≡ goals.items }
    {
        let Asking {
            pool,
            next,
            ways: _ways,
        } = self;
        Coded {
            pool,
            vars: next,
            goals,
        }
    }

    // The clauses of both books, with none of a position.
    fn behind(alloc: Global, joint: &Both) -> Result<Asking, Memory>
        ensures clauses { IfOk result (λ a. a.pool.clauses ≡ joint.now.pool.clauses) }
        ensures next { IfOk result (λ a. a.next ≡ joint.now.vars) }
        ensures ways { IfOk result (λ a. a.ways.items ≡ []) }
    {
        let pool = copy(alloc, &joint.pool)?;
        Ok(Asking {
            pool,
            next: joint.vars,
            ways: Vec::new(alloc),
        })
    }
}

// A further pool of the same clauses.
fn copy(alloc: Global, pool: &Pool) -> Result<Pool, Memory>
    ensures { IfOk result (λ p. p.clauses ≡ pool.now.clauses) }
{
    let mut further = Pool::new(alloc);
    for at in 0..pool.len() {
        further.add(pool.lits(at))?;
    }
    Ok(further)
}

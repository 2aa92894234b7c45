//! Both bodies of propagation: over drawn clauses and calls, and the trails that the worked engine of four variables comes to.
ghost use Rattle.std.specs.Prelude.{◌≡◌, ℕ, ◌*◌, ◌<◌, OnOk, true};
ghost use Rattle.std.specs.Bool.{OnTrue};
ghost use Rattle.clause_pool.specs.Clause.{has};

use clause_pool::{Lit, Pool, Ref};
use pb_base::Memory;
use propagate::Engine;
use std::alloc::Global;
use std::test::Fail;

// The literal of a letter: a is the first variable's positive one, A its negative one.
fn literal_of(letter: u8) -> Lit {
    Lit::new(u32::from(letter % 32).saturating_sub(1), letter >= 97)
}

// Whether all literals of a clause are of these variables.
fn are_below(lits: &[Lit], vars: u32) -> bool
    ensures { OnTrue result ((l : ℕ) → has lits.now l ≡ true → l < 2 * vars) }
{
    for lit in lits {
        if lit.var() >= vars {
            return false;
        }
    }
    true
}

// Adds a clause to the pool and attaches it, unless a level is open or it is of other variables.
fn add(pool: &mut Pool, engine: &mut Engine, lits: &[Lit]) -> Result<(), Memory>
    requires { pool.old.clauses ≡ engine.old.clauses }
    ensures { OnOk result (pool.new.clauses ≡ engine.new.clauses) }
{
    let mark = pool.mark();
    let at = pool.add(lits)?;
    if engine.level() > 0 || !are_below(pool.lits(at), engine.vars()) {
        pool.take_back(mark);
        return Ok(());
    }
    engine.attach(pool, at)
}

// Goes back to this level, where it is below.
fn go_back(engine: &mut Engine, level: u32)
    ensures { engine.new.clauses ≡ engine.old.clauses }
{
    if level < engine.level() {
        engine.back_to(level);
    }
}

// Opens a level with this literal, where it is open.
fn assume(engine: &mut Engine, lit: Lit)
    ensures { engine.new.clauses ≡ engine.old.clauses }
{
    if lit.var() >= engine.vars() || engine.level() >= engine.vars() {
        return;
    }
    if engine.value(lit).is_some() {
        return;
    }
    engine.assume(lit);
}

// Propagates, by the slow program or by the other.
fn propagated(pool: &Pool, engine: &mut Engine, plainly: bool) -> Result<Option<Ref>, Memory>
    requires { pool.now.clauses ≡ engine.old.clauses }
    ensures { engine.new.clauses ≡ engine.old.clauses }
{
    if plainly {
        return Ok(engine.propagate_plainly(pool));
    }
    engine.propagate(pool)
}

// Whether the trail is of these letters.
fn is_of(trail: &[Lit], letters: &[u8]) -> bool {
    if trail.len() != letters.len() {
        return false;
    }
    for k in 0..trail.len() {
        if trail[k] != literal_of(letters[k]) {
            return false;
        }
    }
    true
}

// Goes back to this level, assumes the letter's literal and propagates: whether the trail is of these letters.
fn comes_to(
    pool: &Pool,
    engine: &mut Engine,
    plainly: bool,
    level: u32,
    assumed: u8,
    letters: &[u8],
) -> Result<bool, Memory>
    requires { pool.now.clauses ≡ engine.old.clauses }
    ensures { engine.new.clauses ≡ engine.old.clauses }
{
    go_back(engine, level);
    assume(engine, literal_of(assumed));
    let conflict = propagated(pool, engine, plainly)?;
    Ok(conflict.is_none() && is_of(engine.trail(), letters))
}

// Adds the clauses ab, Acd and BC.
fn add_three(pool: &mut Pool, engine: &mut Engine) -> Result<(), Memory>
    requires { pool.old.clauses ≡ engine.old.clauses }
    ensures { OnOk result (pool.new.clauses ≡ engine.new.clauses) }
{
    add(pool, engine, &[literal_of(b'a'), literal_of(b'b')])?;
    add(
        pool,
        engine,
        &[literal_of(b'A'), literal_of(b'c'), literal_of(b'd')],
    )?;
    add(pool, engine, &[literal_of(b'B'), literal_of(b'C')])
}

// Whether A, then a, and then D besides, come to the trails that they should.
fn three_come(pool: &Pool, engine: &mut Engine, plainly: bool) -> Result<bool, Memory>
    requires { pool.now.clauses ≡ engine.old.clauses }
{
    let first = comes_to(pool, engine, plainly, 0, b'A', b"AbC")?;
    let second = comes_to(pool, engine, plainly, 0, b'a', b"a")?;
    let third = comes_to(pool, engine, plainly, 1, b'D', b"aDcB")?;
    Ok(first && second && third)
}

fn trails_are_right(alloc: Global, plainly: bool) -> Result<bool, Memory> {
    let mut engine = Engine::new(alloc, 4)?;
    let mut pool = Pool::new(alloc);
    add_three(&mut pool, &mut engine)?;
    three_come(&pool, &mut engine, plainly)
}

#[test]
fn the_engine_of_four_variables(rt: HostRuntime) -> Result<(), Fail> {
    let fast = trails_are_right(rt.alloc(), false)?;
    let slow = trails_are_right(rt.alloc(), true)?;
    assert!(rt; fast);
    assert!(rt; slow);
    Ok(())
}

// Drawn numbers.
#[derive(Drop)]
struct Numbers {
    state: u64,
}

// A further drawn number below this one.
fn drawn(numbers: &mut Numbers, bound: u32) -> u32
    requires { 0 < bound }
    ensures { result < bound }
{
    numbers.state = numbers
        .state
        .wrapping_mul(6364136223846793005)
        .wrapping_add(1442695040888963407);
    (numbers.state >> 33) as u32 % bound
}

// A literal of eight variables.
fn drawn_literal(numbers: &mut Numbers) -> Lit {
    Lit::new(drawn(numbers, 8), drawn(numbers, 2) == 0)
}

// Adds a clause of one to four literals, mostly of three or four.
fn add_drawn(numbers: &mut Numbers, pool: &mut Pool, engine: &mut Engine) -> Result<(), Memory>
    requires { pool.old.clauses ≡ engine.old.clauses }
    ensures { OnOk result (pool.new.clauses ≡ engine.new.clauses) }
{
    let lits = [
        drawn_literal(numbers),
        drawn_literal(numbers),
        drawn_literal(numbers),
        drawn_literal(numbers),
    ];
    let len = 1 + (drawn(numbers, 12) as usize + 3) / 4;
    add(pool, engine, &lits[..len])
}

// A number for what is true, false and open, and at which levels.
fn sum_of(engine: &Engine) -> u64 {
    let mut sum = 5;
    for var in 0..engine.vars() {
        let value = match engine.value(Lit::new(var, true)) {
            Some(true) => 2,
            Some(false) => 1,
            None => 0,
        };
        let level = u64::from(engine.level_of(var).unwrap_or(9));
        sum = mixed(mixed(sum, value), level);
    }
    sum
}

// A number for one and then another.
fn mixed(sum: u64, more: u64) -> u64 {
    sum.wrapping_mul(6364136223846793005).wrapping_add(more)
}

// One drawn call: a level more, levels taken back, or propagation, with a number for what it comes to. Behind a clause that is
// false it goes back to level 0.
fn call_drawn(
    numbers: &mut Numbers,
    pool: &Pool,
    engine: &mut Engine,
    plainly: bool,
) -> Result<u64, Memory>
    requires { pool.now.clauses ≡ engine.old.clauses }
    ensures { engine.new.clauses ≡ engine.old.clauses }
{
    let call = drawn(numbers, 8);
    if call < 4 {
        assume(engine, drawn_literal(numbers));
        return Ok(1);
    }
    if call == 4 {
        go_back(engine, drawn(numbers, 4));
        return Ok(2);
    }
    let conflict = propagated(pool, engine, plainly)?;
    if conflict.is_some() {
        go_back(engine, 0);
        return Ok(3);
    }
    Ok(sum_of(engine))
}

// One to sixteen drawn clauses, and then drawn calls: a number for all that they come to.
fn sum_drawn(
    numbers: &mut Numbers,
    pool: &mut Pool,
    engine: &mut Engine,
    plainly: bool,
) -> Result<u64, Memory>
    requires { pool.old.clauses ≡ engine.old.clauses }
{
    let mut sum = 0;
    let clauses = 1 + drawn(numbers, 16);
    for k in 0..60 {
        if k < clauses {
            add_drawn(numbers, pool, engine)?;
        }
        sum = mixed(sum, call_drawn(numbers, pool, engine, plainly)?);
        if k < clauses {
            go_back(engine, 0);
        }
    }
    Ok(sum)
}

fn sum_of_seed(alloc: Global, seed: u64, plainly: bool) -> Result<u64, Memory> {
    let mut engine = Engine::new(alloc, 8)?;
    let mut pool = Pool::new(alloc);
    let mut numbers = Numbers { state: seed };
    sum_drawn(&mut numbers, &mut pool, &mut engine, plainly)
}

#[test]
fn both_bodies_agree_over_drawn_clauses_and_calls(rt: HostRuntime) -> Result<(), Fail> {
    for seed in 0..400 {
        let fast = sum_of_seed(rt.alloc(), seed, false)?;
        let slow = sum_of_seed(rt.alloc(), seed, true)?;
        assert!(rt; fast == slow);
    }
    Ok(())
}

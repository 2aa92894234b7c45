//! A pool that is taken back, and a chain at the size of a large certificate.
ghost use Rattle.std.specs.Prelude.{◌≡◌, ◌<◌, OnOk, length};

use clause_pool::{Kernel, Lit, Pair, Pool, Ref};
use pb_base::{Memory, Text};
use std::alloc::Global;
use std::test::Fail;

fn pos(var: u32) -> Lit {
    Lit::new(var, true)
}

fn neg(var: u32) -> Lit {
    Lit::new(var, false)
}

// A sign and a number.
fn put_lit(text: &mut Text, lit: Lit) -> Result<(), Memory> {
    text.put(if lit.positive() { b"+" } else { b"-" })?;
    text.put_number(u64::from(lit.var()))?;
    text.put(b" ")
}

// The clauses from this place on, each on a line.
fn put_clauses(text: &mut Text, pool: &Pool, from: Ref) -> Result<(), Memory> {
    for at in from..pool.len() {
        for lit in pool.lits(at) {
            put_lit(text, *lit)?;
        }
        text.put(b"\n")?;
    }
    Ok(())
}

// Whether the clauses from this place on are these.
fn are_written(alloc: Global, pool: &Pool, from: Ref, wanted: &[u8]) -> Result<bool, Memory> {
    let mut text = Text::new(alloc);
    put_clauses(&mut text, pool, from)?;
    Ok(text.bytes() == wanted)
}

// Whether two clauses are kept in order, and a third in spare room, which is taken back.
fn are_taken_back(alloc: Global, pool: &mut Pool) -> Result<bool, Memory> {
    pool.add(&[pos(5), neg(0), pos(5), pos(0), neg(4_294_967_295)])?;
    pool.add(&[])?;
    let mark = pool.mark();
    pool.reserve(1, 2)?;
    pool.add_reserved(&[neg(1), pos(0)]);
    let before = are_written(alloc, pool, 0, b"+0 -0 +5 -4294967295 \n\n+0 -1 \n")?;
    pool.take_back(mark);
    let after = are_written(alloc, pool, 0, b"+0 -0 +5 -4294967295 \n\n")?;
    Ok(before && after)
}

#[test]
fn a_pool_keeps_sorted_clauses_and_takes_them_back(rt: HostRuntime) -> Result<(), Fail> {
    let mut pool = Pool::new(rt.alloc());
    let taken_back = are_taken_back(rt.alloc(), &mut pool);
    assert!(rt; matches!(taken_back, Ok(true)));
    Ok(())
}

// Clauses of which each says that a variable implies the next one, and the pairs of the chain over them.
fn put_implications(pool: &mut Pool, pairs: &mut Vec<Pair>, count: u32) -> Result<(), Memory>
    requires { count < 1_000_000 }
{
    pool.add(&[pos(0)])?;
    for var in 0..count {
        pool.add(&[neg(var), pos(var + 1)])?;
        pairs.push(Pair {
            lit: pos(var),
            with: var as usize + 1,
        })?;
    }
    Ok(())
}

// Whether the chain comes to the last variable alone.
fn is_resolved(alloc: Global, kernel: &mut Kernel, pairs: &[Pair]) -> Result<bool, Memory> {
    if pairs.is_empty() {
        return Ok(false);
    }
    let Ok(at) = kernel.resolve(0, pairs) else {
        return Ok(false);
    };
    are_written(alloc, kernel.pool(), at, b"+100000 \n")
}

#[test]
fn a_chain_of_a_hundred_thousand_pairs(rt: HostRuntime) -> Result<(), Fail> {
    let mut pool = Pool::new(rt.alloc());
    let mut pairs = Vec::new(rt.alloc());
    put_implications(&mut pool, &mut pairs, 100_000)?;
    let mut kernel = Kernel::of(rt.alloc(), pool);
    let resolved = is_resolved(rt.alloc(), &mut kernel, &pairs);
    assert!(rt; matches!(resolved, Ok(true)));
    Ok(())
}

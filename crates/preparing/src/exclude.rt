//! Codes that exclude each other. Where the given clauses say of a code that it makes a disjunction false, a clause of two
//! codes is derived for each that the disjunction is of: propagation then goes from code to code, and so do chains. No contract
//! speaks of it.
ghost use Rattle.chains.specs.Growth.{Grows};

use crate::gates::{Part, parts, place};
use chains::derive;
use clause_pool::{Kernel, Lit, Pair, Pool, Ref};
use clausify::Gates;
use pb_base::Memory;
use std::alloc::Global;

// A disjunction of four codes has six pieces. What excludes fewer codes says so in short chains already.
const FEWEST_PIECES: usize = 6;

// A disjunction of 64 codes has so many. Of more codes there are too many pairs.
const MOST_PIECES: usize = 126;

// A clause of two literals, by which a code makes a disjunction false.
#[derive(Clone, Copy)]
struct Exclusion {
    code: Lit,
    disjunction: Lit,
    at: Ref,
}

// A part of a disjunction that a code makes false.
#[derive(Clone, Copy)]
struct Piece {
    part: Part,
    // The place among the pieces of what it is a part of, or none.
    within: Option<usize>,
    // The clause by which the code makes it false, once it is there.
    false_by: Option<Ref>,
    is_needed: bool,
}

/// Derives that codes exclude each other.
#[tactic(auto, using(chains::proofs::GrowthLaws::grows_same))]
pub(crate) fn exclude_codes(
    alloc: Global,
    kernel: &mut Kernel,
    gates: &Gates,
    codes: u32,
) -> Result<(), Memory>
    ensures { Grows kernel.old kernel.new }
{
    let exclusions = exclusions(alloc, kernel.pool(), kernel.given(), gates, codes)?;
    let known = excluded_before(alloc, kernel, codes)?;
    let mut pieces = Vec::new(alloc);
    for exclusion in &exclusions {
        exclude_leaves(kernel, gates, exclusion, codes, &known, &mut pieces)?;
    }
    Ok(())
}

// What the first clauses of a pool say of codes that make disjunctions false.
fn exclusions(
    alloc: Global,
    pool: &Pool,
    given: usize,
    gates: &Gates,
    codes: u32,
) -> Result<Vec<Exclusion>, Memory> {
    let mut all = Vec::new(alloc);
    for at in 0..given {
        if let Some(exclusion) = exclusion_at(pool, at, gates, codes) {
            all.push(exclusion)?;
        }
    }
    Ok(all)
}

fn exclusion_at(pool: &Pool, at: Ref, gates: &Gates, codes: u32) -> Option<Exclusion> {
    let (code, disjunction) = both_false(pool, at)?;
    if code.var() >= codes {
        return None;
    }
    place(gates, disjunction)?;
    Some(Exclusion {
        code,
        disjunction,
        at,
    })
}

// The two literals of which the clause at a place says that they aren't true together, if it has two and both are negative.
fn both_false(pool: &Pool, at: Ref) -> Option<(Lit, Lit)> {
    if at >= pool.len() {
        return None;
    }
    let [first, last] = pool.lits(at) else {
        return None;
    };
    if first.positive() || last.positive() {
        return None;
    }
    Some((first.not(), last.not()))
}

// The pairs of codes of which derived clauses say so, in order.
fn excluded_before(alloc: Global, kernel: &Kernel, codes: u32) -> Result<Vec<(u32, u32)>, Memory> {
    let mut known = Vec::new(alloc);
    let pool = kernel.pool();
    for at in kernel.given()..pool.len() {
        if let Some((first, last)) = both_false(pool, at)
            && last.var() < codes
        {
            known.push((first.var(), last.var()))?;
        }
    }
    known.sort_unstable();
    Ok(known)
}

// Derives that a code excludes each later one that a disjunction is of.
#[tactic(auto, using(chains::proofs::GrowthLaws::grows_same))]
fn exclude_leaves(
    kernel: &mut Kernel,
    gates: &Gates,
    exclusion: &Exclusion,
    codes: u32,
    known: &[(u32, u32)],
    pieces: &mut Vec<Piece>,
) -> Result<(), Memory>
    ensures { Grows kernel.old kernel.new }
{
    take_apart(gates, exclusion.disjunction, pieces)?;
    if pieces.len() < FEWEST_PIECES || pieces.len() > MOST_PIECES {
        return Ok(());
    }
    find_needed(exclusion.code, codes, known, pieces);
    for n in 0..pieces.len() {
        exclude_piece(kernel, exclusion, pieces, n)?;
    }
    Ok(())
}

// Leaves the parts of a disjunction, the outer ones first, and those of its parts.
fn take_apart(gates: &Gates, disjunction: Lit, pieces: &mut Vec<Piece>) -> Result<(), Memory> {
    pieces.clear();
    put_parts(gates, disjunction, None, pieces)?;
    for n in 0..MOST_PIECES {
        let Some(piece) = pieces.get(n).copied() else {
            return Ok(());
        };
        put_parts(gates, piece.part.lit, Some(n), pieces)?;
    }
    Ok(())
}

fn put_parts(
    gates: &Gates,
    lit: Lit,
    within: Option<usize>,
    pieces: &mut Vec<Piece>,
) -> Result<(), Memory> {
    let Some(two) = parts(gates, lit) else {
        return Ok(());
    };
    for part in two {
        pieces.push(Piece {
            part,
            within,
            false_by: None,
            is_needed: false,
        })?;
    }
    Ok(())
}

// Says which pieces lead to a later code that isn't known to be excluded.
fn find_needed(code: Lit, codes: u32, known: &[(u32, u32)], pieces: &mut [Piece]) {
    for n in (0..pieces.len()).rev() {
        let Some(piece) = pieces.get_mut(n) else {
            return;
        };
        let var = piece.part.lit.var();
        if piece.part.lit.positive() && code.var() < var && var < codes {
            piece.is_needed = known.binary_search(&(code.var(), var)).is_err();
        }
        if piece.is_needed
            && let Some(outer) = piece.within
            && let Some(outer) = pieces.get_mut(outer)
        {
            outer.is_needed = true;
        }
    }
}

// Derives that a code makes the piece at this place false, if that is needed.
#[tactic(auto, using(chains::proofs::GrowthLaws::grows_same))]
fn exclude_piece(
    kernel: &mut Kernel,
    exclusion: &Exclusion,
    pieces: &mut Vec<Piece>,
    n: usize,
) -> Result<(), Memory>
    ensures { Grows kernel.old kernel.new }
{
    let Some(step) = step_to(exclusion, pieces, n) else {
        return Ok(());
    };
    let pairs = [step.pair];
    let place = derive(kernel, step.start, &pairs)?;
    if let Some(piece) = pieces.get_mut(n) {
        piece.false_by = place;
    }
    Ok(())
}

// A chain of one pair.
#[derive(Clone, Copy)]
struct Step {
    start: Ref,
    pair: Pair,
}

// The chain by which the code makes a piece false, from the one by which it makes that false that the piece is a part of.
fn step_to(exclusion: &Exclusion, pieces: &[Piece], n: usize) -> Option<Step> {
    let piece = pieces.get(n)?;
    if !piece.is_needed {
        return None;
    }
    let (outer, start) = match piece.within {
        Some(within) => {
            let whole = pieces.get(within)?;
            (whole.part.lit, whole.false_by?)
        }
        None => (exclusion.disjunction, exclusion.at),
    };
    let pair = Pair {
        lit: outer.not(),
        with: piece.part.by,
    };
    Some(Step { start, pair })
}

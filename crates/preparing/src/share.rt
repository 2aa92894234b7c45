//! Disjunctions of the same literals, each with a variable of its own. What is derived of the first of them serves the others,
//! once each of these is known to imply it.
ghost use Rattle.std.specs.Prelude.{◌≤◌, length};
ghost use Rattle.chains.specs.Growth.{Grows};

use crate::exclude::exclude_codes;
use crate::gates::{parts, place};
use chains::derive;
use clause_pool::{Kernel, Lit, Pair, Ref};
use clausify::Gates;
use pb_base::Memory;
use std::alloc::Global;

// Of fewer literals a disjunction that stands alone isn't worth a clause.
const FEWEST_LEAVES: usize = 3;

// A disjunction that is no part of another one.
#[derive(Drop)]
struct Disjunction {
    var: u32,
    // What it is of, in order.
    leaves: Vec<Lit>,
}

// What short clauses say that were derived before: the variables of which one implies another, and with itself a variable of
// which a longer clause speaks.
#[derive(Drop)]
struct Known {
    pairs: Vec<(u32, u32)>,
}

/// By variable, what is known of a disjunction.
#[derive(Drop)]
pub(crate) struct Sharing {
    /// Whether others imply it, or it is of many literals.
    pub(crate) is_shared: Vec<bool>,
    /// The first one of the same literals, or `NO_VAR` where the variable is no disjunction.
    pub(crate) firsts: Vec<u32>,
}

/// The number of no variable.
pub(crate) const NO_VAR: u32 = u32::MAX;

impl Sharing {
    // Nothing is known.
    fn none(alloc: Global, vars: u32) -> Result<Sharing, Memory> {
        Ok(Sharing {
            is_shared: vec![in alloc; false; vars as usize]?,
            firsts: vec![in alloc; NO_VAR; vars as usize]?,
        })
    }

    // All of these are of the same literals.
    fn lead(&mut self, first: &Disjunction, others: &[Disjunction]) {
        put(&mut self.firsts, first.var, first.var);
        for other in others {
            put(&mut self.firsts, other.var, first.var);
        }
    }
}

fn put(firsts: &mut [u32], var: u32, first: u32) {
    if let Some(entry) = firsts.get_mut(var as usize) {
        *entry = first;
    }
}

/// Derives that codes exclude each other, and of disjunctions of the same literals that the first one of them and the others
/// imply each other, and what that one implies.
#[tactic(auto, using(chains::proofs::GrowthLaws::grows_same, chains::proofs::GrowthLaws::grows_twice))]
pub(crate) fn share_disjunctions(
    alloc: Global,
    kernel: &mut Kernel,
    gates: &Gates,
    codes: u32,
    vars: u32,
) -> Result<Sharing, Memory>
    ensures { Grows kernel.old kernel.new }
{
    exclude_codes(alloc, kernel, gates, codes)?;
    share_all(alloc, kernel, gates, vars)
}

// Derives what disjunctions of the same literals say of each other.
#[tactic(auto, using(chains::proofs::GrowthLaws::grows_same))]
fn share_all(
    alloc: Global,
    kernel: &mut Kernel,
    gates: &Gates,
    vars: u32,
) -> Result<Sharing, Memory>
    ensures { Grows kernel.old kernel.new }
{
    let all = disjunctions(alloc, gates, vars)?;
    let known = Known::of(alloc, kernel)?;
    let mut sharing = Sharing::none(alloc, vars)?;
    let mut pairs = Vec::new(alloc);
    let mut next: usize = 0;
    for at in 0..all.len() {
        if at < next {
            continue;
        }
        let count = share_front(kernel, gates, &known, &all[at..], &mut sharing, &mut pairs)?;
        next = at.saturating_add(count);
    }
    Ok(sharing)
}

// Does so for the first of these and those of the same literals behind it, and gives their number.
#[tactic(auto, using(chains::proofs::GrowthLaws::grows_same, chains::proofs::GrowthLaws::grows_twice))]
fn share_front(
    kernel: &mut Kernel,
    gates: &Gates,
    known: &Known,
    all: &[Disjunction],
    sharing: &mut Sharing,
    pairs: &mut Vec<Pair>,
) -> Result<usize, Memory>
    ensures { Grows kernel.old kernel.new }
{
    let Some((first, others)) = all.split_first() else {
        return Ok(0);
    };
    let count = same_in_front(first, others);
    let same = &others[..count];
    sharing.lead(first, same);
    if count == 0 && first.leaves.len() < FEWEST_LEAVES {
        return Ok(1);
    }
    mark(&mut sharing.is_shared, first.var);
    let whole = take_apart(kernel, gates, first, known, pairs)?;
    imply_each(kernel, gates, known, first, whole, same, pairs)?;
    Ok(count.saturating_add(1))
}

// Derives that each of these implies the one that they are the same as, and is implied by it.
#[tactic(auto, using(chains::proofs::GrowthLaws::grows_same))]
fn imply_each(
    kernel: &mut Kernel,
    gates: &Gates,
    known: &Known,
    first: &Disjunction,
    whole: Option<Ref>,
    same: &[Disjunction],
    pairs: &mut Vec<Pair>,
) -> Result<(), Memory>
    ensures { Grows kernel.old kernel.new }
{
    for other in same {
        imply_both(kernel, gates, known, first, whole, other, pairs)?;
    }
    Ok(())
}

// Derives that two disjunctions of the same literals imply each other.
#[tactic(auto, using(chains::proofs::GrowthLaws::grows_same, chains::proofs::GrowthLaws::grows_twice))]
fn imply_both(
    kernel: &mut Kernel,
    gates: &Gates,
    known: &Known,
    first: &Disjunction,
    whole: Option<Ref>,
    other: &Disjunction,
    pairs: &mut Vec<Pair>,
) -> Result<(), Memory>
    ensures { Grows kernel.old kernel.new }
{
    imply(kernel, gates, known, other, None, first, pairs)?;
    imply(kernel, gates, known, first, whole, other, pairs)
}

fn mark(shared: &mut [bool], var: u32) {
    if let Some(mark) = shared.get_mut(var as usize) {
        *mark = true;
    }
}

// How many of these are of the same literals as the one before them.
fn same_in_front(first: &Disjunction, others: &[Disjunction]) -> usize
    ensures { result ≤ length others.now }
{
    for (count, other) in others.iter().enumerate() {
        if other.leaves != first.leaves {
            return count;
        }
    }
    others.len()
}

// All that are no parts of others, those of the same literals side by side.
fn disjunctions(alloc: Global, gates: &Gates, vars: u32) -> Result<Vec<Disjunction>, Memory> {
    let is_part = parts_among(alloc, gates, vars)?;
    let mut all = Vec::new(alloc);
    for var in 0..vars {
        let lit = Lit::new(var, true);
        if place(gates, lit).is_none() || is_part.get(var as usize) == Some(&true) {
            continue;
        }
        let leaves = leaves_of(alloc, gates, lit)?;
        all.push(Disjunction { var, leaves })?;
    }
    all.sort_unstable_by(|one, other| {
        one.leaves.cmp(&other.leaves).then(one.var.cmp(&other.var))
    });
    Ok(all)
}

// By variable, whether it is a part of a disjunction.
fn parts_among(alloc: Global, gates: &Gates, vars: u32) -> Result<Vec<bool>, Memory> {
    let mut is_part = vec![in alloc; false; vars as usize]?;
    for var in 0..vars {
        let Some(two) = parts(gates, Lit::new(var, true)) else {
            continue;
        };
        for part in two {
            if part.lit.positive() {
                mark(&mut is_part, part.lit.var());
            }
        }
    }
    Ok(is_part)
}

// What a disjunction is of, in order, where parts that are disjunctions are taken apart too.
fn leaves_of(alloc: Global, gates: &Gates, lit: Lit) -> Result<Vec<Lit>, Memory> {
    let mut leaves = Vec::new(alloc);
    let mut open = Vec::new(alloc);
    open.push(lit)?;
    for _ in 0..most_parts(gates) {
        let Some(lit) = open.pop() else {
            break;
        };
        match parts(gates, lit) {
            Some(two) => {
                for part in two {
                    open.push(part.lit)?;
                }
            }
            None => leaves.push(lit)?,
        }
    }
    leaves.sort_unstable();
    Ok(leaves)
}

// No disjunction has more parts, with those of its parts and itself: each that is taken apart has two.
fn most_parts(gates: &Gates) -> usize {
    gates.list.len().saturating_mul(2).saturating_add(1)
}

impl Known {
    // What the derived clauses of a kernel say.
    fn of(alloc: Global, kernel: &Kernel) -> Result<Known, Memory> {
        let mut pairs = Vec::new(alloc);
        let pool = kernel.pool();
        for at in kernel.given()..pool.len() {
            match pool.lits(at) {
                [first, second] => {
                    if first.positive() != second.positive() {
                        let (from, to) = if first.positive() {
                            (second, first)
                        } else {
                            (first, second)
                        };
                        pairs.push((from.var(), to.var()))?;
                    }
                }
                [.., last] => {
                    if !last.positive() {
                        pairs.push((last.var(), last.var()))?;
                    }
                }
                [] => {}
            }
        }
        pairs.sort_unstable();
        Ok(Known { pairs })
    }

    fn has(&self, from: u32, to: u32) -> bool {
        self.pairs.binary_search(&(from, to)).is_ok()
    }
}

// Derives that a disjunction implies one of its literals, and gives the place of the clause that says so.
#[tactic(auto, using(chains::proofs::GrowthLaws::grows_same))]
fn take_apart(
    kernel: &mut Kernel,
    gates: &Gates,
    one: &Disjunction,
    known: &Known,
    pairs: &mut Vec<Pair>,
) -> Result<Option<Ref>, Memory>
    ensures { Grows kernel.old kernel.new }
{
    let lit = Lit::new(one.var, true);
    let Some(start) = place(gates, lit) else {
        return Ok(None);
    };
    if known.has(one.var, one.var) {
        return Ok(None);
    }
    pairs.clear();
    put_apart(gates, lit, pairs)?;
    derive(kernel, start, pairs)
}

// Derives that a disjunction implies another one of the same literals. The clause that the first one implies one of them may
// have been derived.
#[tactic(auto, using(chains::proofs::GrowthLaws::grows_same))]
fn imply(
    kernel: &mut Kernel,
    gates: &Gates,
    known: &Known,
    one: &Disjunction,
    whole: Option<Ref>,
    other: &Disjunction,
    pairs: &mut Vec<Pair>,
) -> Result<(), Memory>
    ensures { Grows kernel.old kernel.new }
{
    if known.has(one.var, other.var) {
        return Ok(());
    }
    let lit = Lit::new(one.var, true);
    let Some(start) = whole.or(place(gates, lit)) else {
        return Ok(());
    };
    pairs.clear();
    if whole.is_none() {
        put_apart(gates, lit, pairs)?;
    }
    put_together(gates, Lit::new(other.var, true), pairs)?;
    derive(kernel, start, pairs)?;
    Ok(())
}

// Puts down the pairs that take a disjunction apart, the outer ones first.
fn put_apart(gates: &Gates, lit: Lit, pairs: &mut Vec<Pair>) -> Result<(), Memory> {
    let mut next = pairs.len();
    put_parts_apart(gates, lit, pairs)?;
    for _ in 0..most_parts(gates) {
        let Some(pair) = pairs.get(next).copied() else {
            return Ok(());
        };
        put_parts_apart(gates, pair.lit, pairs)?;
        next += 1;
    }
    Ok(())
}

fn put_parts_apart(gates: &Gates, lit: Lit, pairs: &mut Vec<Pair>) -> Result<(), Memory> {
    let Some(two) = parts(gates, lit) else {
        return Ok(());
    };
    for part in two {
        if let Some(with) = place(gates, part.lit) {
            pairs.push(Pair {
                lit: part.lit,
                with,
            })?;
        }
    }
    Ok(())
}

// Puts down the pairs that put a disjunction together from its literals, the inner ones first.
fn put_together(gates: &Gates, lit: Lit, pairs: &mut Vec<Pair>) -> Result<(), Memory> {
    let first = pairs.len();
    let mut next = first;
    put_parts_together(gates, lit, pairs)?;
    for _ in 0..most_parts(gates) {
        let Some(pair) = pairs.get(next).copied() else {
            break;
        };
        put_parts_together(gates, pair.lit, pairs)?;
        next += 1;
    }
    if first < pairs.len() {
        pairs[first..].reverse();
    }
    Ok(())
}

fn put_parts_together(gates: &Gates, lit: Lit, pairs: &mut Vec<Pair>) -> Result<(), Memory> {
    let Some(two) = parts(gates, lit) else {
        return Ok(());
    };
    for part in two {
        pairs.push(Pair {
            lit: part.lit,
            with: part.by,
        })?;
    }
    Ok(())
}

//! What a solver derives of disjunctions before it is asked, what it assumes, and that it keeps what it has learnt.
ghost use Rattle.std.specs.Prelude.{◌≡◌, ◌*◌, ◌<◌, ◌≤◌, IfOk, IfSome, OnOk};
ghost use Rattle.clause_pool.specs.Clause.{AreBelow, IsBelow};
ghost use Rattle.pb_base.specs.declared.limits.TheConstants.{MOST_BUDGET};

use clause_pool::{Kernel, Lit, Pool, Ref};
use clausify::{Gate, Gates, Joint};
use pb_base::Memory;
use preparing::{Implied, Refuter};
use propagate::Engine;
use solver::{Answer, Assumed, Deriver, Solver};
use std::alloc::Global;
use std::test::Fail;

// The variable of a digit, or of a letter from `a` for 10 on.
fn var_of(byte: u8) -> Option<u32>
    ensures { IfSome result (λ var. var < 36) }
{
    match byte {
        b'0'..=b'9' => Some(u32::from(byte - b'0')),
        b'a'..=b'z' => Some(u32::from(byte - b'a') + 10),
        _ => None,
    }
}

// Adds the clauses of a text: literals as a sign and a variable, and a `;` behind each clause.
fn put_clauses(pool: &mut Pool, clause: &mut Vec<Lit>, text: &[u8]) -> Result<(), Memory>
    requires pool { AreBelow 72 pool.old.clauses }
    requires clause { IsBelow 72 clause.old.items }
    ensures { OnOk result (AreBelow 72 pool.new.clauses) }
{
    let mut positive = true;
    for byte in text {
        if *byte == b';' {
            pool.add(clause)?;
            clause.clear();
            continue;
        }
        let Some(var) = var_of(*byte) else {
            positive = *byte == b'+';
            continue;
        };
        clause.push(Lit::new(var, positive))?;
    }
    Ok(())
}

fn clauses_of(alloc: Global, text: &[u8]) -> Result<Pool, Memory>
    ensures { IfOk result (λ pool. AreBelow 72 pool.clauses) }
{
    let mut pool = Pool::new(alloc);
    let mut clause = Vec::new(alloc);
    put_clauses(&mut pool, &mut clause, text)?;
    Ok(pool)
}

// A solver of 36 variables, of which five are codes.
fn solver_of(alloc: Global, text: &[u8]) -> Result<Solver, Memory>
    ensures { IfOk result (λ solver. solver.vars ≡ 36) }
{
    let pool = clauses_of(alloc, text)?;
    Solver::new(alloc, Kernel::of(alloc, pool), 36, 5)
}

// Whether the answer is a clause without a literal but this one.
fn closes(solver: &Solver, answer: &Answer, left: Lit) -> bool {
    let Answer::Closed(at) = answer else {
        return false;
    };
    let pool = solver.kernel().pool();
    if *at >= pool.len() {
        return false;
    }
    pool.lits(*at).iter().all(|lit| *lit == left)
}

// 6 and 7 are both `0/1`. The goal 9 is of 7 and 8, and 8 excludes 0 and 1.
const SHARED: &[u8] = b"-6+0+1;+6-0;+6-1;-7+0+1;+7-0;+7-1;-8-0;-8-1;-9+7;-9+8;+9-7-8;";

// Whether a clause says that a variable implies another one and nothing else.
fn implies(clause: &[Lit], one: u32, other: u32) -> bool {
    clause.len() == 2
        && clause.contains(&Lit::new(one, false))
        && clause.contains(&Lit::new(other, true))
}

// Whether the last two clauses say that 6 and 7 imply each other.
fn is_shared(solver: &Solver) -> bool {
    let pool = solver.kernel().pool();
    pool.len() == 13 && implies(pool.lits(11), 7, 6) && implies(pool.lits(12), 6, 7)
}

// What the goal 9 implies.
fn implied() -> [Implied; 2] {
    let first = Implied {
        lit: Lit::new(7, true),
        by: 8,
    };
    let second = Implied {
        lit: Lit::new(8, true),
        by: 9,
    };
    [first, second]
}

// The first variable of a disjunction.
const FIRST: u32 = 6;

// A disjunction whose clauses begin at a place.
fn either(left: u32, right: u32, clause: Ref) -> Gate {
    Gate {
        joint: Joint::Any,
        left: Lit::new(left, true),
        right: Lit::new(right, true),
        clause,
    }
}

// Shares disjunctions, and once a clause is false refutes the goal 9 by it.
#[derive(Drop)]
struct Preparing {
    alloc: Global,
    gates: Gates,
    refuter: Refuter,
    conflict: Option<Ref>,
    found: Option<Ref>,
}

impl Preparing {
    fn new(alloc: Global, gates: &[Gate]) -> Result<Preparing, Memory> {
        let mut list = Vec::new(alloc);
        list.extend_from_slice(gates)?;
        Ok(Preparing {
            alloc,
            gates: Gates { first: FIRST, list },
            refuter: Refuter::new(alloc, 5),
            conflict: None,
            found: None,
        })
    }
}

impl Deriver for Preparing {
    fn derive(&mut self, kernel: &mut Kernel, engine: &Engine) -> Result<(), Memory> {
        match self.conflict {
            Some(at) => {
                let goal = Lit::new(9, true);
                self.found = self
                    .refuter
                    .close_conflict(kernel, engine, goal, &implied(), at)?;
                Ok(())
            }
            None => self.refuter.share(self.alloc, kernel, &self.gates, 36),
        }
    }
}

// Whether the goal 9 is refuted by what the two literals come to together that it implies.
fn is_refuted_by_both(solver: &mut Solver, preparing: &mut Preparing) -> Result<bool, Memory> {
    let [first, second] = implied();
    solver.assume(&[first.lit])?;
    preparing.conflict = solver.assume_further(second.lit)?;
    solver.derive_by(preparing)?;
    let Some(at) = preparing.found else {
        return Ok(false);
    };
    Ok(closes(solver, &Answer::Closed(at), Lit::new(9, false)))
}

// Whether that is so once the two disjunctions are shared.
fn is_shared_and_refuted(solver: &mut Solver, preparing: &mut Preparing) -> Result<bool, Memory> {
    solver.derive_by(preparing)?;
    Ok(is_shared(solver) && is_refuted_by_both(solver, preparing)?)
}

#[test]
fn a_question_of_two_literals(rt: HostRuntime) -> Result<(), Fail> {
    let mut solver = solver_of(rt.alloc(), SHARED)?;
    let mut preparing = Preparing::new(rt.alloc(), &[either(0, 1, 0), either(0, 1, 3)])?;
    let refuted = is_shared_and_refuted(&mut solver, &mut preparing);
    assert!(rt; matches!(refuted, Ok(true)));
    Ok(())
}

// 0 excludes 1, and asks for it.
const CLASHING: &[u8] = b"-0-1;-0+1;";

// Whether literals are assumed, are so already when asked again, and others make a clause false.
fn are_assumed_in_turn(solver: &mut Solver) -> Result<bool, Memory> {
    let alone = [Lit::new(2, true), Lit::new(3, false)];
    let others = [Lit::new(2, true), Lit::new(0, true), Lit::new(3, false)];
    let first = solver.assume(&alone)?;
    let again = solver.assume(&alone)?;
    let clash = solver.assume(&others)?;
    let are_assumed = matches!(first, Assumed::Now) && matches!(again, Assumed::Before);
    Ok(are_assumed && matches!(clash, Assumed::False(_)))
}

#[test]
fn literals_in_turn(rt: HostRuntime) -> Result<(), Fail> {
    let mut solver = solver_of(rt.alloc(), CLASHING)?;
    let assumed = are_assumed_in_turn(&mut solver);
    assert!(rt; matches!(assumed, Ok(true)));
    Ok(())
}

// 0 excludes 8, which is `1/2/3/4`.
const EXCLUDING: &[u8] = b"-6+1+2;+6-1;+6-2;-7+6+3;+7-6;+7-3;-8+7+4;+8-7;+8-4;-0-8;";

// Whether a clause says that 0 excludes a code.
fn excludes(clause: &[Lit], code: u32) -> bool {
    clause.len() == 2
        && clause.contains(&Lit::new(0, false))
        && clause.contains(&Lit::new(code, false))
}

// Whether 0 is said to exclude a code.
fn is_excluded(solver: &Solver, code: u32) -> bool {
    let pool = solver.kernel().pool();
    for at in 0..pool.len() {
        if excludes(pool.lits(at), code) {
            return true;
        }
    }
    false
}

// Whether 0 is said to exclude each of the four once the disjunctions are shared.
fn are_excluded(solver: &mut Solver, preparing: &mut Preparing) -> Result<bool, Memory> {
    solver.derive_by(preparing)?;
    Ok((1..5).all(|code| is_excluded(solver, code)))
}

#[test]
fn a_code_that_excludes_four(rt: HostRuntime) -> Result<(), Fail> {
    let mut solver = solver_of(rt.alloc(), EXCLUDING)?;
    let gates = [either(1, 2, 0), either(6, 3, 3), either(7, 4, 6)];
    let mut preparing = Preparing::new(rt.alloc(), &gates)?;
    let excluded = are_excluded(&mut solver, &mut preparing);
    assert!(rt; matches!(excluded, Ok(true)));
    Ok(())
}

// Four pigeons in three holes; `c` is true.
const PIGEONS: &[u8] =
    b"+c;+0+1+2;+3+4+5;+6+7+8;+9+a+b;-0-3;-0-6;-0-9;-3-6;-3-9;-6-9;-1-4;-1-7;-1-a;-4-7;-4-a;-7-a;-2-5;-2-8;-2-b;-5-8;-5-b;-8-b;";

// Whether it is refuted within so many clauses that the variable `c` is true.
fn is_refuted_within(solver: &mut Solver, budget: u32) -> Result<bool, Memory>
    requires vars { solver.old.vars ≡ 36 }
    requires some { 0 < budget }
    requires budget { budget ≤ MOST_BUDGET }
    ensures { solver.new.vars ≡ solver.old.vars }
{
    let answer = solver.solve(&[Lit::new(12, true)], budget)?;
    Ok(closes(solver, &answer, Lit::new(12, false)))
}

// Whether it isn't within one clause, is within many, and is within one when asked again.
fn are_refuted_once_learnt(solver: &mut Solver) -> Result<bool, Memory>
    requires { solver.old.vars ≡ 36 }
{
    let first = is_refuted_within(solver, 1)?;
    let second = is_refuted_within(solver, 50_000)?;
    let third = is_refuted_within(solver, 1)?;
    Ok(!first && second && third)
}

#[test]
fn pigeons_in_too_few_holes(rt: HostRuntime) -> Result<(), Fail> {
    let mut solver = solver_of(rt.alloc(), PIGEONS)?;
    let refuted = are_refuted_once_learnt(&mut solver);
    assert!(rt; matches!(refuted, Ok(true)));
    Ok(())
}

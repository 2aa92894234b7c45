//! Clauses in the making.
ghost use Rattle.std.specs.Prelude.{◌≡◌, ◌+◌, ◌^◌, ◌<◌, ◌∷◌, true, [], IfOk, OnOk};
ghost use Rattle.pb_base.specs.Rule.{both, either};
ghost use Rattle.clause_pool.specs.Literal.{literal};
ghost use Rattle.clause_pool.specs.Clause.{clause_of};
ghost use Rattle.wide_clauses.specs.Chains.{alone, one_of_clauses, wide_clauses, wide_literal, wide_variables};
ghost use Rattle.wide_clauses.specs.Encoding.{Widens};

use clause_pool::{Lit, Pool};
use pb_base::{Formula, FormulaPart, Memory, Shape};
use std::alloc::Global;

/// The clauses that are made so far, and the variables that are taken. After want of memory in one of its calls it is of no
/// use: some of the call's clauses may stand, and not others.
#[derive(Drop)]
pub struct WideEncoder {
    alloc: Global,
    pub pool: Pool,
    /// The variable that is always true, behind those of the codes.
    pub truth: u32,
    /// The variable that is taken next.
    pub next: u32,
}

impl WideEncoder {
    /// The first clause, that the variable behind those of the codes is always true, over this many codes.
    pub fn new(alloc: Global, codes: u32) -> Result<WideEncoder, Memory>
        requires { codes + 1 < 2 ^ 32 }
        ensures clauses { IfOk result (λ m. m.pool.clauses ≡ clause_of (literal codes true ∷ []) ∷ []) }
        ensures truth { IfOk result (λ m. m.truth ≡ codes) }
        ensures next { IfOk result (λ m. m.next ≡ codes + 1) }
    {
        let mut pool = Pool::new(alloc);
        pool.add(&[Lit::new(codes, true)])?;
        Ok(WideEncoder {
            alloc,
            pool,
            truth: codes,
            next: codes + 1,
        })
    }

    /// A clause of these literals, in any order and with repeats.
    pub fn clause(&mut self, lits: &[Lit]) -> Result<(), Memory>
        ensures { OnOk result (Widens self.old self.new (clause_of lits.now ∷ []) 0) }
    {
        self.pool.add(lits)?;
        Ok(())
    }

    /// The literal of a formula, with its clauses made.
    pub fn literal(&mut self, rule: &Formula) -> Result<Lit, Memory>
        requires { self.old.next + wide_variables rule.now < 2 ^ 32 }
        ensures made { OnOk result (Widens self.old self.new
            (wide_clauses self.old.truth self.old.next rule.now alone) (wide_variables rule.now)) }
        ensures literal { IfOk result (λ l. l ≡ wide_literal self.old.truth self.old.next rule.now) }
    {
        self.part(rule.part())
    }

    // The same of a part of a formula.
    #[cycle(parts)]
    fn part(&mut self, part: FormulaPart<'_>) -> Result<Lit, Memory>
        requires { self.old.next + wide_variables part < 2 ^ 32 }
        ensures made { OnOk result (Widens self.old self.new
            (wide_clauses self.old.truth self.old.next part.entry alone) (wide_variables part.entry)) }
        ensures literal { IfOk result (λ l. l ≡ wide_literal self.old.truth self.old.next part.entry) }
    {
        match part.shape() {
            Shape::Code(place) => Ok(Lit::new(place, true)),
            Shape::Yes => Ok(Lit::new(self.truth, true)),
            Shape::No => Ok(Lit::new(self.truth, false)),
            Shape::Not(of) => {
                let lit = self.part(of)?;
                Ok(lit.not())
            }
            Shape::Or(left, right) => self.any_of(left, right),
            Shape::And(left, right) => self.all_of(left, right),
        }
    }

    // A variable that is true where one part of a chain is.
    #[cycle(parts)]
    fn any_of(&mut self, left: FormulaPart<'_>, right: FormulaPart<'_>) -> Result<Lit, Memory>
        requires { self.old.next + wide_variables (either left right) < 2 ^ 32 }
        ensures made { let chain = either left.entry right.entry in OnOk result (Widens self.old self.new
            (wide_clauses self.old.truth self.old.next chain alone) (wide_variables chain)) }
        ensures literal { let chain = either left.entry right.entry in
            IfOk result (λ l. l ≡ wide_literal self.old.truth self.old.next chain) }
    {
        let mut lits = Vec::new(self.alloc);
        let last = self.part(right)?;
        lits.push(last)?;
        let mut rest = left;
        loop {
            match rest.shape() {
                Shape::Or(left, right) => {
                    let lit = self.part(right)?;
                    lits.push(lit)?;
                    rest = left;
                }
                _ => break,
            }
        }
        let lit = self.part(rest)?;
        lits.push(lit)?;
        let named = Lit::new(self.next, true);
        self.next += 1;
        self.one_of(named, &lits)?;
        Ok(named)
    }

    // A variable that is true where all parts of a chain are.
    #[cycle(parts)]
    fn all_of(&mut self, left: FormulaPart<'_>, right: FormulaPart<'_>) -> Result<Lit, Memory>
        requires { self.old.next + wide_variables (both left right) < 2 ^ 32 }
        ensures made { let chain = both left.entry right.entry in OnOk result (Widens self.old self.new
            (wide_clauses self.old.truth self.old.next chain alone) (wide_variables chain)) }
        ensures literal { let chain = both left.entry right.entry in
            IfOk result (λ l. l ≡ wide_literal self.old.truth self.old.next chain) }
    {
        let mut lits = Vec::new(self.alloc);
        let last = self.part(right)?;
        lits.push(last.not())?;
        let mut rest = left;
        loop {
            match rest.shape() {
                Shape::And(left, right) => {
                    let lit = self.part(right)?;
                    lits.push(lit.not())?;
                    rest = left;
                }
                _ => break,
            }
        }
        let lit = self.part(rest)?;
        lits.push(lit.not())?;
        let named = Lit::new(self.next, true);
        self.next += 1;
        self.one_of(named.not(), &lits)?;
        Ok(named)
    }

    // The literal is true just where one of these is.
    fn one_of(&mut self, named: Lit, lits: &[Lit]) -> Result<(), Memory>
        ensures { OnOk result (Widens self.old self.new (one_of_clauses named lits.now) 0) }
    {
        let mut any = Vec::new(self.alloc);
        any.push(named.not())?;
        any.extend_from_slice(lits)?;
        self.clause(&any)?;
        for lit in lits {
            self.clause(&[named, lit.not()])?;
        }
        Ok(())
    }
}

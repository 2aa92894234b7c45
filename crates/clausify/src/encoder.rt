//! Clauses in the making.
ghost use Rattle.std.specs.Prelude.{◌≡◌, ◌+◌, ◌^◌, ◌<◌, ◌≤◌, true, [], ◌∷◌, length, IfOk, OnOk};
ghost use Rattle.clause_pool.specs.Literal.{literal};
ghost use Rattle.clause_pool.specs.Clause.{clause_of};
ghost use Rattle.clausify.specs.Formulas.{connectives, formula_literal, formula_clauses, both_clauses, either_clauses};
ghost use Rattle.clausify.specs.Joints.{joint_clauses};
ghost use Rattle.clausify.specs.Layout.{AreGates, start_at};

use crate::joint::{Joint, tie};
use crate::layout::{Gate, Gates, Start};
use crate::parts::Parts;
use clause_pool::{Lit, Pool};
use pb_base::{Formula, Memory, Node};
use std::alloc::Global;

/// The clauses that are made so far, and the variables that are taken. After want of memory in one of its calls it is of no
/// use: some of the call's clauses may stand, and not others.
#[derive(Drop)]
pub struct Encoder {
    pub pool: Pool,
    /// The variable that is always true, behind those of the codes.
    pub truth: u32,
    /// The variable that is taken next.
    pub next: u32,
    /// The variables that were taken, each with its two parts and its clauses.
    pub gates: Gates,
    // The parts of the formula that is encoded.
    parts: Parts,
    ghost counted: { next ≡ gates.first + length gates.list.items },
    ghost laid: { AreGates pool.clauses gates },
}

/// What an encoder has made.
#[derive(Drop)]
pub struct Encoded {
    pub pool: Pool,
    /// The number of variables.
    pub vars: u32,
    /// All variables that were taken, each with its two parts and its clauses.
    pub gates: Gates,
}

impl Encoder {
    ghost use Rattle.clausify.specs.Encoding.{Encodes, EncodesAlone, making_of, with_node, parts_taken};

    /// The first clause, that the variable behind those of the codes is always true, over this many codes.
    pub fn new(alloc: Global, codes: u32) -> Result<Encoder, Memory>
        requires { codes + 1 < 2 ^ 32 }
        ensures clauses { IfOk result (λ m. m.pool.clauses ≡ clause_of (literal codes true ∷ []) ∷ []) }
        ensures truth { IfOk result (λ m. m.truth ≡ codes) }
        ensures next { IfOk result (λ m. m.next ≡ codes + 1) }
        ensures first { IfOk result (λ m. m.gates.first ≡ codes + 1) }
    {
        Encoder::with_further(alloc, codes, 0)
    }

    /// The same, with so many further codes behind the variable that is always true, as where two books share their codes.
    pub fn with_further(alloc: Global, codes: u32, further: u32) -> Result<Encoder, Memory>
        requires { codes + 1 + further < 2 ^ 32 }
        ensures clauses { IfOk result (λ m. m.pool.clauses ≡ clause_of (literal codes true ∷ []) ∷ []) }
        ensures truth { IfOk result (λ m. m.truth ≡ codes) }
        ensures next { IfOk result (λ m. m.next ≡ codes + 1 + further) }
        ensures first { IfOk result (λ m. m.gates.first ≡ codes + 1 + further) }
    {
        let mut pool = Pool::new(alloc);
        pool.add(&[Lit::new(codes, true)])?;
        let first = codes + 1 + further;
        let gates = Gates {
            first,
            list: Vec::new(alloc),
        };
        Ok(Encoder {
            pool,
            truth: codes,
            next: first,
            gates,
            parts: Parts::new(alloc),
        })
    }

    /// The clauses, the number of variables, and the gates of those that were taken.
    pub fn into_parts(self) -> Encoded
        ensures clauses { result.pool.clauses ≡ self.pool.clauses }
        ensures vars { result.vars ≡ self.next }
        ensures first { result.gates.first ≡ self.gates.first }
        ensures count { result.vars ≡ result.gates.first + length result.gates.list.items }
        ensures gates { AreGates result.pool.clauses result.gates }
    {
        Encoded {
            pool: self.pool,
            vars: self.next,
            gates: self.gates,
        }
    }

    /// Where what is made next begins.
    pub fn start(&self) -> Start
        ensures { result ≡ start_at self.now.next (length self.now.pool.clauses) }
    {
        Start {
            var: self.next,
            clause: self.pool.len(),
        }
    }

    /// A clause of these literals, in any order and with repeats.
    pub fn clause(&mut self, lits: &[Lit]) -> Result<(), Memory>
        ensures { OnOk result (EncodesAlone self.old self.new (clause_of lits.now ∷ [])) }
    {
        self.pool.add(lits)?;
        Ok(())
    }

    /// A new variable that is true where both literals are.
    pub fn both(&mut self, left: Lit, right: Lit) -> Result<Lit, Memory>
        requires { self.old.next + 1 < 2 ^ 32 }
        ensures made { OnOk result (Encodes self.old self.new (both_clauses self.old.next left right) 1) }
        ensures literal { IfOk result (λ l. l ≡ literal self.old.next true) }
    {
        self.join(Joint::All, left, right)
    }

    /// A new variable that is true where one of the literals is.
    pub fn either(&mut self, left: Lit, right: Lit) -> Result<Lit, Memory>
        requires { self.old.next + 1 < 2 ^ 32 }
        ensures made { OnOk result (Encodes self.old self.new (either_clauses self.old.next left right) 1) }
        ensures literal { IfOk result (λ l. l ≡ literal self.old.next true) }
    {
        self.join(Joint::Any, left, right)
    }

    // A new variable that joins the literals.
    fn join(&mut self, joint: Joint, left: Lit, right: Lit) -> Result<Lit, Memory>
        requires { self.old.next + 1 < 2 ^ 32 }
        ensures made { let tied = joint_clauses joint self.old.next left right in
            OnOk result (Encodes self.old self.new tied 1) }
        ensures literal { IfOk result (λ l. l ≡ literal self.old.next true) }
        ensures parts { self.new.parts ≡ self.old.parts }
    {
        let clause = self.pool.len();
        tie(&mut self.pool, joint, self.next, left, right)?;
        let gate = Gate {
            joint,
            left,
            right,
            clause,
        };
        self.gates.list.push(gate)?;
        let named = Lit::new(self.next, true);
        self.next += 1;
        Ok(named)
    }

    // What one more node of a formula makes of its parts.
    fn add_node(&mut self, node: Node) -> Result<(), Memory>
        requires parts { parts_taken node ≤ length self.old.parts }
        requires room { (with_node self.old.truth node (making_of self.old)).next < 2 ^ 32 }
        ensures made { OnOk result (making_of self.new ≡ with_node self.old.truth node (making_of self.old)) }
        ensures truth { OnOk result (self.new.truth ≡ self.old.truth) }
        ensures first { OnOk result (self.new.gates.first ≡ self.old.gates.first) }
    {
        match node {
            Node::Code(place) => self.parts.push(Lit::new(place, true)),
            Node::Yes => self.parts.push(Lit::new(self.truth, true)),
            Node::No => self.parts.push(Lit::new(self.truth, false)),
            Node::Not => {
                let part = self.parts.pop();
                self.parts.push(part.not())
            }
            Node::And(_) => {
                let right = self.parts.pop();
                let left = self.parts.pop();
                let named = self.join(Joint::All, left, right)?;
                self.parts.push(named)
            }
            Node::Or(_) => {
                let right = self.parts.pop();
                let left = self.parts.pop();
                let named = self.join(Joint::Any, left, right)?;
                self.parts.push(named)
            }
            Node::WhenTrue(_) | Node::WhenFalse(_) => Ok(()),
        }
    }

    /// The literal of a formula, with its clauses made.
    pub fn literal(&mut self, rule: &Formula) -> Result<Lit, Memory>
        requires { self.old.next + connectives rule.now < 2 ^ 32 }
        ensures made { OnOk result (Encodes self.old self.new
            (formula_clauses self.old.truth self.old.next rule.now) (connectives rule.now)) }
        ensures literal { IfOk result (λ l. l ≡ formula_literal self.old.truth self.old.next rule.now) }
    {
        for node in rule.nodes() {
            self.add_node(*node)?;
        }
        Ok(self.parts.pop())
    }
}

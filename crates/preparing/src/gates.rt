//! Disjunctions of two literals, by their gates.
use clause_pool::{Lit, Ref};
use clausify::{Gate, Gates, Joint};

/// One of the two literals, and the clause by which it implies the disjunction.
#[derive(Clone, Copy)]
pub(crate) struct Part {
    pub(crate) lit: Lit,
    pub(crate) by: Ref,
}

// The gate of a literal, if it is a disjunction. One of a literal and itself is none: its clauses say that both are the same.
fn disjunction(gates: &Gates, lit: Lit) -> Option<Gate> {
    if !lit.positive() {
        return None;
    }
    let gate = gates.gate(lit.var())?;
    if gate.left == gate.right {
        return None;
    }
    match gate.joint {
        Joint::All => None,
        Joint::Any => Some(gate),
    }
}

/// Where the clauses of a literal's disjunction begin, if it is one.
pub(crate) fn place(gates: &Gates, lit: Lit) -> Option<Ref> {
    Some(disjunction(gates, lit)?.clause)
}

/// What a literal is the disjunction of, if it is one.
pub(crate) fn parts(gates: &Gates, lit: Lit) -> Option<[Part; 2]> {
    let gate = disjunction(gates, lit)?;
    Some([
        Part {
            lit: gate.left,
            by: gate.clause.saturating_add(1),
        },
        Part {
            lit: gate.right,
            by: gate.clause.saturating_add(2),
        },
    ])
}

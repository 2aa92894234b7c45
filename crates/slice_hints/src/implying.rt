//! What a goal that joins two literals implies.
use clause_pool::Lit;
use clausify::{Gates, Joint};
use preparing::Implied;

/// Two literals that a goal implies.
#[derive(Clone, Copy)]
pub struct BothImplied {
    pub first: Implied,
    pub second: Implied,
}

/// The two literals that a goal implies by the first two clauses of its gate, if it is true only where both are.
pub fn implied(gates: &Gates, goal: Lit) -> Option<BothImplied> {
    if !goal.positive() {
        return None;
    }
    let gate = gates.gate(goal.var())?;
    match gate.joint {
        Joint::All => Some(BothImplied {
            first: Implied {
                lit: gate.left,
                by: gate.clause,
            },
            second: Implied {
                lit: gate.right,
                by: gate.clause.saturating_add(1),
            },
        }),
        Joint::Any => None,
    }
}

//! Literals.
ghost use Rattle.std.specs.Prelude.{◌≡◌, ◌/◌, ◌%◌, ◌<◌, ◌^◌, ◌==◌};
ghost use Rattle.clause_pool.specs.Literal.{complement, literal};
ghost use Rattle.clause_pool.specs.Marks.{marked};

use std::marker::Model;

/// A variable or its negation. Contracts see it as its code: twice the variable, plus one if it is negative.
/// So literals are ordered by variable, the positive one first.
#[derive(Clone, Copy, Debug, PartialEq, Eq, PartialOrd, Ord)]
pub struct Lit {
    code: u64,
}

impl Model for Lit {
    ghost use Rattle.std.specs.Prelude.{ℕ, ◌<◌, ◌^◌};

    ghost Value = { ℕ };

    ghost view = { λ l. l.code };

    ghost invariant = { λ l. l.code < 2 ^ 33 };

    ghost inverse = { λ n. record { code = n } };
}

impl Lit {
    /// The literal of a variable, counted from 0.
    pub fn new(var: u32, positive: bool) -> Lit
        ensures { result ≡ literal var positive }
    {
        let sign = if positive { 0 } else { 1 };
        Lit {
            code: 2 * u64::from(var) + sign,
        }
    }

    /// The variable of the literal.
    pub fn var(self) -> u32
        ensures { result ≡ self / 2 }
    {
        (self.code / 2) as u32
    }

    /// Whether the literal is true where its variable is.
    pub fn positive(self) -> bool
        ensures { result ≡ (self % 2 == 0) }
    {
        self.code % 2 == 0
    }

    /// The code of the literal: twice the variable, plus one if it is negative. Tables by literal are indexed by it.
    pub fn code(self) -> u64
        ensures code { result ≡ self }
        ensures below { result < 2 ^ 33 }
    {
        self.code
    }

    /// Whether a table by literal has a mark for it. Past its end there is none.
    pub fn is_marked(self, marks: &[bool]) -> bool
        ensures { result ≡ marked marks.now self }
    {
        match marks.get(self.code as usize) {
            Some(mark) => *mark,
            None => false,
        }
    }

    /// The other literal of the same variable.
    pub fn not(self) -> Lit
        ensures { result ≡ complement self }
    {
        Lit {
            code: self.code ^ 1,
        }
    }
}

//! The pairs of a resolution chain, and what is wrong with one.
ghost use Rattle.std.specs.Prelude.{◌≡◌, IfOk};

use crate::lit::Lit;
use crate::pool::Ref;
use pb_base::Memory;
use std::marker::Model;

/// One step of a chain: the literal to remove from the running clause, and the place of the clause with its complement.
#[derive(Clone, Copy, Debug, PartialEq, Eq)]
pub struct Pair {
    pub lit: Lit,
    pub with: Ref,
}

/// A pair in 8 bytes, as a kernel keeps it. Contracts see the pair.
#[derive(Clone, Copy)]
pub struct ShortPair {
    code: u32,
    with: u32,
}

impl Model for ShortPair {
    ghost use Rattle.clause_pool.specs.declared.chain.Pair.{Pair};

    ghost Value = { Pair };

    ghost view = { λ p. record { lit = p.code; with = p.with } };

    ghost inverse = { λ p. record { code = p.lit; with = p.with } };
}

impl ShortPair {
    /// The pair in 8 bytes. There is no room for a number of more than 32 bits.
    pub(crate) fn of(pair: Pair) -> Result<ShortPair, Memory>
        ensures { IfOk result (λ short. short ≡ pair) }
    {
        let Ok(code) = u32::try_from(pair.lit.code()) else {
            return Err(Memory);
        };
        let Ok(with) = u32::try_from(pair.with) else {
            return Err(Memory);
        };
        Ok(ShortPair { code, with })
    }

    /// The pair itself.
    pub fn pair(self) -> Pair
        ensures { result ≡ self }
    {
        Pair {
            lit: Lit::new(self.code / 2, self.code % 2 == 0),
            with: self.with as usize,
        }
    }
}

/// Why a chain has no resolvent. The place is 0 for the clause that it starts with, and k for the k-th pair.
#[derive(Clone, Copy, Debug, PartialEq, Eq)]
pub enum StepFault {
    /// There is no clause at the place that is named.
    NoSuchStep(usize),
    /// The running clause lacks the literal, or the other clause lacks its complement.
    NoPivot(usize),
}

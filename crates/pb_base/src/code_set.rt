//! Sets of codes.
ghost use Rattle.std.specs.Prelude.{◌≡◌, ◌<◌, ◌==◌, IfOk, length, true, slice_set};
ghost use Rattle.pb_base.specs.Sets.{has, none_of};

use crate::answer::Memory;
use std::alloc::Global;
use std::marker::Model;

/// A set of codes of a book: a truth value for each code, in record order.
#[derive(Drop)]
pub struct CodeSet {
    values: Vec<bool>,
}

impl Model for CodeSet {
    ghost use Rattle.std.specs.Prelude.{List, Bool, length, ◌<◌, ◌^◌};

    ghost Value = { List Bool };

    ghost view = { λ s. s.values.items };

    ghost invariant = { λ s. length s.values.items < 2 ^ 32 };
}

impl CodeSet {
    /// The set of `n` codes that has none of them.
    pub fn none(alloc: Global, n: u32) -> Result<CodeSet, Memory>
        ensures { IfOk result (λ s. s ≡ none_of n) }
    {
        let values = vec![in alloc; false; n as usize]?;
        Ok(CodeSet { values })
    }

    /// A further set that is equal to this one.
    pub fn copy(&self, alloc: Global) -> Result<CodeSet, Memory>
        ensures { IfOk result (λ s. s ≡ self.now) }
    {
        let values = Vec::from_slice(alloc, &self.values)?;
        Ok(CodeSet { values })
    }

    /// The number of codes that the set speaks of, in it or not.
    pub fn len(&self) -> u32
        ensures { result ≡ length self.now }
    {
        self.values.len() as u32
    }

    /// Whether the set speaks of no code at all.
    pub fn is_empty(&self) -> bool
        ensures { result ≡ (length self.now == 0) }
    {
        self.values.is_empty()
    }

    /// Whether the code at this place, counted from 0, is in the set.
    pub fn has(&self, code: u32) -> bool
        requires { code < length self.now }
        ensures { result ≡ has self.now code }
    {
        self.values[code as usize]
    }

    /// Puts the code at this place, counted from 0, into the set.
    pub fn with(&mut self, code: u32)
        requires { code < length self.old }
        ensures { self.new ≡ slice_set self.old code true }
    {
        self.values[code as usize] = true;
    }
}

//! Sets that were found for one question and may answer others.
ghost use Rattle.std.specs.Prelude.{◌≡◌, All, IfOk, IfSome, OnOk, [], length};
ghost use Rattle.inquiry.specs.Told.{IsKept, ShownBy};

use crate::source::Inquiry;
use pb_base::{CodeSet, Memory};
use std::alloc::Global;
use std::marker::Model;

/// The most sets that are kept.
pub(crate) const MOST_KEPT: usize = 256;

/// The newest sets that answered questions. Contracts see the list of them.
#[derive(Drop)]
pub struct KeptSets {
    sets: Vec<CodeSet>,
}

impl Model for KeptSets {
    ghost use Rattle.std.specs.Prelude.{Bool, List};

    ghost Value = { List (List Bool) };

    ghost view = { λ k. k.sets.items };
}

impl KeptSets {
    /// No sets. It takes no memory.
    pub fn new(alloc: Global) -> KeptSets
        ensures { result ≡ [] }
    {
        KeptSets {
            sets: Vec::new(alloc),
        }
    }

    /// Lets go of the sets that may not be tried on the questions of a source, as on another day.
    pub fn keep_for<S: Inquiry>(&mut self, alloc: Global, source: &S) -> Result<(), Memory>
        requires ready { S.IsReady source.now }
        requires counted { All (λ x. length x ≡ (S.form source.now).codes) self.old }
        ensures counted { All (λ x. length x ≡ (S.form source.now).codes) self.new }
        ensures kept { OnOk result (All (IsKept (S.form source.now) (S.MayShow source.now)) self.new) }
    {
        let mut kept = KeptSets::new(alloc);
        for set in &self.sets {
            if source.may_show(set) {
                kept.keep(alloc, source, set)?;
            }
        }
        *self = kept;
        Ok(())
    }

    /// Keeps a copy of a set. The oldest goes where there are too many.
    pub(crate) fn keep<S: Inquiry>(
        &mut self,
        alloc: Global,
        source: &S,
        set: &CodeSet,
    ) -> Result<(), Memory>
        requires set { IsKept (S.form source.now) (S.MayShow source.now) set.now }
        requires kept { All (IsKept (S.form source.now) (S.MayShow source.now)) self.old }
        ensures { All (IsKept (S.form source.now) (S.MayShow source.now)) self.new }
    {
        let copy = set.copy(alloc)?;
        if self.sets.len() >= MOST_KEPT {
            self.sets.remove(0);
        }
        self.sets.push(copy)?;
        Ok(())
    }

    /// A further set, equal to the newest of the last so many that shows what a question asks for.
    pub(crate) fn set_for<S: Inquiry>(
        &self,
        alloc: Global,
        source: &S,
        question: S::Question,
        last: usize,
    ) -> Result<Option<CodeSet>, Memory>
        requires ready { S.IsReady source.now }
        requires posed { S.IsPosed source.now question }
        requires kept { All (IsKept (S.form source.now) (S.MayShow source.now)) self.now }
        ensures { IfOk result (λ found. IfSome found (ShownBy (S.form source.now) question)) }
    {
        let end = self.sets.len();
        for at in (end.saturating_sub(last)..end).rev() {
            let set = &self.sets[at];
            if source.shows(alloc, question, set)? {
                return Ok(Some(set.copy(alloc)?));
            }
        }
        Ok(None)
    }
}

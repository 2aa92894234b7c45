//! What two books are asked.
ghost use Rattle.book_compare.specs.Comparing.{IsComparing};
ghost use Rattle.book_compare.specs.Source.{form_of};

use crate::comparing::Comparing;
use crate::place::{MOST_OF_POSITION, MOST_TOGETHER, Place};
use crate::position::encoded;
use inquiry::{Coded, Inquiry};
use pb_base::{CodeSet, Memory};
use std::alloc::Global;

// Each position asks for a car that both books allow and that gets other parts there by the second.
impl<'a> Inquiry for Comparing<'a> {
    type Question = Place;

    ghost IsReady = { IsComparing };

    ghost IsPosed = { λ c place. Unit {0} };

    ghost MayShow = { λ c x. Unit {0} };

    ghost form = { form_of };

    fn codes(&self) -> u32 {
        self.first.codes().len()
    }

    fn most_together(&self) -> u32 {
        MOST_TOGETHER * MOST_OF_POSITION
    }

    fn size(&self, _place: Place) -> u32 {
        MOST_OF_POSITION
    }

    fn encode(&self, alloc: Global, places: &[Place]) -> Result<Coded, Memory> {
        encoded(alloc, self, places)
    }

    fn shows(&self, _alloc: Global, _place: Place, _set: &CodeSet) -> Result<bool, Memory> {
        Ok(false)
    }

    fn may_show(&self, _set: &CodeSet) -> bool {
        false
    }

    fn lawful(&self) {}
}

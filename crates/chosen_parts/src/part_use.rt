//! What variants use: a part, and how many of it.
ghost use Rattle.std.specs.Prelude.{◌≡◌, IsTrue, length};
ghost use Rattle.pb_base.specs.Rule.{codes_below};
ghost use Rattle.book_model.specs.Parts.{is_selected};
ghost use Rattle.chosen_parts.specs.Chosen.{use_of, is_same_use};

use book_model::{Variant, active};
use pb_base::{CodeSet, Day, Part};

/// A part, and how many of it a car has.
#[derive(Drop)]
pub struct PartUse {
    pub part: Part,
    pub quantity: u32,
}

impl PartUse {
    /// What a variant uses.
    pub fn of(variant: &Variant) -> PartUse
        ensures { result ≡ use_of variant.now }
    {
        PartUse {
            part: variant.part,
            quantity: variant.quantity,
        }
    }

    /// Whether a variant uses the same part, and as many of it.
    pub fn is_of(&self, variant: &Variant) -> bool
        ensures { result ≡ is_same_use (use_of variant.now) self.now }
    {
        variant.part == self.part && variant.quantity == self.quantity
    }
}

/// Whether two variants, of one book or of two, use the same part, and as many of it.
pub fn same_use(a: &Variant, b: &Variant) -> bool
    ensures { result ≡ is_same_use (use_of a.now) (use_of b.now) }
{
    a.part == b.part && a.quantity == b.quantity
}

// Whether the variant is active on the day and its formula is true of the set.
pub(crate) fn is_selected(variant: &Variant, day: Day, set: &CodeSet) -> bool
    requires { IsTrue (codes_below (length set.now) variant.now.rule) }
    ensures { result ≡ is_selected day set.now variant.now }
{
    active(variant.from, variant.until, day) && variant.rule.holds(set)
}

//! Whether a variant is selected.
ghost use Rattle.std.specs.Prelude.{◌≡◌, ◌<◌, length};
ghost use Rattle.book_model.specs.Parts.{is_selected_at};

use book_model::{Book, active};
use pb_base::{CodeSet, Day};

/// Whether the variant at this place is active on the day and its formula is true of the set.
pub fn is_selected_at(book: &Book, day: Day, set: &CodeSet, variant: u32) -> bool
    requires codes { length set.now ≡ length book.now.codes }
    requires in_range { variant < length book.now.variants }
    ensures { result ≡ is_selected_at book.now day set.now variant }
{
    let variant = &book.variants()[variant as usize];
    active(variant.from, variant.until, day) && variant.rule.holds(set)
}

//! How many questions a slice has.
ghost use Rattle.std.specs.Prelude.{◌≡◌, ◌+◌, ◌-◌, ◌*◌, ◌/◌, ◌≤◌, length, if◌then◌else◌};
ghost use Rattle.pb_base.specs.declared.limits.TheConstants.{MOST_CHOICES};
ghost use Rattle.clausify.specs.Questions.{questions};

use crate::choices::active_count;
use book_model::{Book, Slice, active};

// The number of questions of a choice of so many variants: one of each, one of each pair, and one where the position is
// mandatory.
#[tactic(auto, using(crate::proofs::CountLaws::pairs_limit))]
fn choice_count(variants: u64, mandatory: bool) -> u64
    requires { variants ≤ MOST_CHOICES }
    ensures value { result ≡ variants + variants * (variants - 1) / 2 + (if mandatory then 1 else 0) }
    ensures limit { result ≤ 20101 }
{
    let pairs = variants * variants.saturating_sub(1) / 2;
    variants + pairs + u64::from(mandatory)
}

/// The number of questions that are asked of a slice of the book. It takes no memory.
pub fn question_count(book: &Book, slice: &Slice) -> u64
    ensures { result ≡ length (questions book.now slice.now.first) }
{
    let mut count = 1 + 2 * u64::from(book.codes().len());
    for (place, position) in book.positions().iter().enumerate() {
        if active(position.from, position.until, slice.first) {
            let variants = active_count(book, slice.first, place as u32);
            count += choice_count(variants as u64, position.mandatory);
        }
    }
    count
}

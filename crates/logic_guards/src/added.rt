//! What can't be added to an order.
ghost use Rattle.std.specs.Prelude.{◌≡◌, ◌++◌, ◌∷◌, ℕ, IfOk, List, false, true};
ghost use Rattle.order_added.specs.Accepted.{is_accepted};

use book_model::Book;
use order_added::add;
use pb_base::{CodeName, Day, Memory};
use std::alloc::Global;

/// Without any one of the codes that are added, and with all others of them, the order isn't accepted. A run would sell a code that
/// nothing asks for.
#[tactic(auto, using(crate::proofs::AddedLaws::each_needed))]
pub fn no_code_is_added_that_the_others_do_without(
    alloc: Global,
    book: &Book,
    day: Day,
    ordered: &[CodeName],
    others: Vec<CodeName>,
) -> Result<Vec<CodeName>, Memory>
    requires { is_accepted book.now day (ordered.now ++ others.items) ≡ true }
    ensures { IfOk result (λ added. (before : List (List ℕ)) (code : List ℕ) (after : List (List ℕ))
        → added.items ≡ before ++ code ∷ after → is_accepted book.now day (ordered.now ++ (before ++ after)) ≡ false) }
{
    add(alloc, book, day, ordered, others)
}

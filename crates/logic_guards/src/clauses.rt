//! What the clauses of a book can't say.
ghost use Rattle.std.specs.Prelude.{◌≡◌, ◌<◌, ◌≤◌, ℕ, Bool, IfOk, List, Some, length, slice_get, true};
ghost use Rattle.book_model.specs.Good.{is_good};
ghost use Rattle.logic_guards.specs.Clauses.{HasLiteral, IsAllowed};

use book_clauses::{BookClauses, book_clauses};
use book_model::Book;
use pb_base::Memory;
use std::alloc::Global;

/// Each set that is good on a day of the term begins an assignment that satisfies the clauses: no rule of other days rules it out. A
/// run would miss a car.
#[tactic(auto, using(crate::proofs::ClauseLaws::allowed))]
pub fn no_car_of_another_period_is_ruled_out(
    alloc: Global,
    book: &Book,
) -> Result<BookClauses, Memory>
    ensures { IfOk result (λ c. (day : ℕ) (x : List Bool) → book.now.first ≤ day → day ≤ book.now.last
        → is_good book.now day x ≡ true → IsAllowed c.pool.clauses x) }
{
    book_clauses(alloc, book)
}

/// Each variant has a literal, which is true of a good set just where its formula is. A run would ask of no variant whether it is
/// chosen.
pub fn each_variant_has_a_literal(alloc: Global, book: &Book) -> Result<BookClauses, Memory>
    ensures { IfOk result (λ c. (variant : ℕ) → variant < length book.now.variants
        → HasLiteral book.now c.pool.clauses variant) }
{
    book_clauses(alloc, book)
}

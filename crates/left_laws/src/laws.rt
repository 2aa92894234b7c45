//! What the answers to questions about cars mean for the orders of a book.
ghost use Rattle.std.specs.Prelude.{◌≡◌, ℕ, Bool, List, [], IsTrue, true};
ghost use Rattle.blame.specs.Blame.{IsTold};
ghost use Rattle.blame.specs.declared.blamed.Told.{Told};
ghost use Rattle.book_model.specs.Activity.{is_within};
ghost use Rattle.book_model.specs.Slices.{IsSteady};
ghost use Rattle.book_model.specs.Sound.{IsReleasable};
ghost use Rattle.book_model.specs.declared.record.Slice.{Slice};
ghost use Rattle.left_cars.specs.Freedom.{IsFree};
ghost use Rattle.left_cars.specs.Left.{is_left};
ghost use Rattle.left_cars.specs.declared.states.Freedom.{Freedom};
ghost use Rattle.left_laws.specs.Laws.{IsAcceptedWith, IsNamedBook, IsOrdered, OrdersAreSo, OrdersMeet};
ghost use Rattle.pb_base.specs.Rule.{Rule};
ghost use Rattle.release.specs.Orders.{supplemented};

use book_model::Book;

/// What holds of the accepted orders of a book that name some chosen codes. Each comes to a car that is left, so it has each forced
/// code and no excluded one. At a book that can be released each car that is left can be ordered as it stands: that order names the
/// chosen codes, is accepted, and comes to just this car. So for an open code one such order comes to a car with it, and another to
/// one without; and where a car meets a rule, some order comes to one that does. On all days of a slice the same cars are left. The
/// call does nothing.
pub fn left_laws(book: &Book)
    ensures comes { (day : ℕ) (names : List (List ℕ)) (chosen : List ℕ) → IsAcceptedWith book.now day chosen names
        → is_left book.now day chosen (supplemented book.now day names) ≡ true }
    ensures ordered { (day : ℕ) (chosen : List ℕ) (x : List Bool) → IsReleasable book.now
        → is_within book.now.first book.now.last day ≡ true → is_left book.now day chosen x ≡ true
        → IsOrdered book.now day chosen x }
    ensures free { (day : ℕ) (chosen : List ℕ) (budget : ℕ) (f : Freedom)
        → is_within book.now.first book.now.last day ≡ true → IsFree book.now day chosen budget f
        → OrdersAreSo book.now day chosen f }
    ensures asked { (day : ℕ) (rule : Rule) (budget : ℕ) (told : Told)
        → is_within book.now.first book.now.last day ≡ true → IsTold book.now day [] rule budget told
        → OrdersMeet book.now day rule told }
    ensures on_slice { (s : Slice) (day : ℕ) (chosen : List ℕ) (x : List Bool) → IsSteady book.now s
        → IsTrue (is_within s.first s.last day)
        → is_left book.now day chosen x ≡ is_left book.now s.first chosen x }
{
    named(book);
}

fn named(book: &Book)
    ensures { IsNamedBook book.now }
{
    book.codes().names_law();
}

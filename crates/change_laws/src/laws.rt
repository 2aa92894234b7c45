//! What it means for orders that nothing changes from one book to the next.
ghost use Rattle.std.specs.Prelude.{ℕ, IsTrue};
ghost use Rattle.book_model.specs.Activity.{is_within};
ghost use Rattle.book_model.specs.declared.record.Slice.{Slice};
ghost use Rattle.book_changes.specs.Changes.{IsRun};
ghost use Rattle.book_changes.specs.Days.{IsJointRun};
ghost use Rattle.book_changes.specs.declared.run.RunNotes.{RunNotes};
ghost use Rattle.change_laws.specs.Laws.{ChangesNothing, OrdersComeAlike};

use release::{Released, order_laws};

/// Where nothing is told of a run of days, every order of codes that both books have is accepted by both or by neither on each of
/// these days, comes to the same codes by their names, and gets the same parts at each position. The call does nothing.
pub fn change_laws(first: &Released, second: &Released)
    ensures { (budget : ℕ) (r : Slice) (notes : RunNotes) (day : ℕ) → IsJointRun first.now.book second.now.book r
        → IsRun first.now.book second.now.book budget r notes → ChangesNothing notes
        → IsTrue (is_within r.first r.last day) → OrdersComeAlike first.now.book second.now.book day }
{
    let one = first.book();
    let other = second.book();
    one.codes().names_law();
    other.codes().names_law();
    order_laws();
}

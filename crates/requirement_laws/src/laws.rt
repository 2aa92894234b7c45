//! What a requirement without a line means.
ghost use Rattle.std.specs.Prelude.{◌≡◌, ℕ, Bool, List, IsTrue, Ok, Some, true, slice_get};
ghost use Rattle.book_model.specs.Activity.{is_within};
ghost use Rattle.book_model.specs.Good.{is_good};
ghost use Rattle.book_model.specs.Parts.{PartsLine};
ghost use Rattle.kept_requirements.specs.Kept.{keeps};
ghost use Rattle.kept_requirements.specs.Notes.{IsReport};
ghost use Rattle.kept_requirements.specs.declared.note.RequirementNote.{RequirementNote};
ghost use Rattle.parts_usage.specs.Outcome.{outcome_of};
ghost use Rattle.parts_usage.specs.declared.judgement.Outcome.TheVariants.{Accepted};
ghost use Rattle.pb_base.specs.Rule.{Rule, holds};
ghost use Rattle.release.specs.Accepting.{accepts};
ghost use Rattle.release.specs.Orders.{IsWellFormed, supplemented};
ghost use Rattle.requirement_laws.specs.Laws.{HasLineOf, HasNoLine};
ghost use Rattle.requirements.specs.declared.requirement.Claim.TheVariants.{Uses};
ghost use Rattle.requirements.specs.declared.requirement.Requirement.{Requirement};

use book_model::Book;
use release::{Released, order_laws};

/// A requirement on which a report has no note is kept by every car of the book on each of its days in the term. The call does
/// nothing.
pub fn kept_law(book: &Book)
    ensures { (budget : ℕ) (rs : List Requirement) (notes : List RequirementNote) (place : ℕ) (r : Requirement)
        → IsReport book.now budget rs notes → slice_get rs place ≡ Some r → HasNoLine r.id notes
        → (day : ℕ) → IsTrue (is_within book.now.first book.now.last day) → IsTrue (is_within r.from r.until day)
        → (x : List Bool) → is_good book.now day x ≡ true → keeps book.now day r.claim x ≡ true }
{
    book.codes();
}

/// So it is kept by what each accepted order of a released book comes to. The call does nothing.
pub fn ordered_law(released: &Released)
    ensures { (budget : ℕ) (rs : List Requirement) (notes : List RequirementNote) (place : ℕ) (r : Requirement)
        → IsReport released.now.book budget rs notes → slice_get rs place ≡ Some r → HasNoLine r.id notes
        → (day : ℕ) (names : List (List ℕ)) → IsWellFormed released.now.book day names
        → IsTrue (is_within r.from r.until day) → accepts released.now.book day names ≡ true
        → keeps released.now.book day r.claim (supplemented released.now.book day names) ≡ true }
{
    let book = released.book();
    kept_law(book);
    order_laws();
}

/// So each accepted order that meets the rule of such a requirement on a part gets a parts list that has a line with the part. The
/// call does nothing.
pub fn listed_law(released: &Released)
    ensures { (budget : ℕ) (rs : List Requirement) (notes : List RequirementNote) (place : ℕ) (r : Requirement)
        (part : List ℕ) (rule : Rule) → IsReport released.now.book budget rs notes
        → slice_get rs place ≡ Some r → HasNoLine r.id notes → r.claim ≡ Uses part rule
        → (day : ℕ) (names : List (List ℕ)) → IsWellFormed released.now.book day names
        → IsTrue (is_within r.from r.until day)
        → (x : List Bool) (list : List PartsLine) → outcome_of released.now.book day names ≡ Ok (Accepted x list)
        → holds rule x ≡ true → HasLineOf released.now.book part list }
{
    ordered_law(released);
}

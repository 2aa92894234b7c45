//! What the definitions come to. These calls do nothing.
ghost use Rattle.std.specs.Prelude.{◌≡◌, ℕ, Bool, true, false, List, length};
ghost use Rattle.std.specs.List.{AllByRecursion};
ghost use Rattle.book_model.specs.Book.{IsBook};
ghost use Rattle.book_model.specs.Contents.{Contents};
ghost use Rattle.book_model.specs.Good.{is_constructible};
ghost use Rattle.book_model.specs.declared.record.Supplement.{Supplement};
ghost use Rattle.supplement_findings.specs.Ends.{swaps_with, IsCalm, HasOneEnd};
ghost use Rattle.supplement_findings.specs.Questions.{is_asked, questions, meets};

/// On a day on which no rule breaks a constructible set and no two rules swap over one, every constructible set has one end by
/// any order of firing: it is the completion, and it is constructible.
pub fn one_end()
    ensures { (b : Contents) (day : ℕ) → IsBook b → IsCalm b day → (x : List Bool)
        → length x ≡ length b.codes → is_constructible b day x ≡ true → HasOneEnd b day x }
{}

/// Two rules of which neither formula has the code of the other never swap, nor do two of one code.
pub fn unasked_never_swap()
    ensures { (b : Contents) (day : ℕ) (s t : Supplement) (x : List Bool)
        → is_asked s t ≡ false → swaps_with b day s t x ≡ false }
{}

/// A day is calm where no set shows what one of its questions asks for.
pub fn calm_where_none_is_found()
    ensures { (b : Contents) (day : ℕ)
        → AllByRecursion (λ q. (x : List Bool) → length x ≡ length b.codes → meets b day q x ≡ false)
        (questions b day) → IsCalm b day }
{}

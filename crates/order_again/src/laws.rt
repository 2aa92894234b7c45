//! What determines an answer.
ghost use Rattle.std.specs.Prelude.{◌≡◌, ℕ, List};
ghost use Rattle.book_model.specs.Contents.{Contents};
ghost use Rattle.order_again.specs.Again.{AreAgain, IsAgain};
ghost use Rattle.order_again.specs.declared.kept.Stock.{Stock};
ghost use Rattle.order_again.specs.declared.outcome.Again.{Again};

/// An order, the book that accepted it and the other book have one answer; so who gives it, and how many others give theirs beside
/// it, makes no difference, and several orders have one list of answers. The call does nothing.
pub fn again_laws()
    ensures one { (own to : Contents) (day : ℕ) (names : List (List ℕ)) (a b : Again)
        → IsAgain own to day names a → IsAgain own to day names b → a ≡ b }
    ensures all { (to : Contents) (stock : List Stock) (told other : List Again)
        → AreAgain to stock told → AreAgain to stock other → told ≡ other }
{}

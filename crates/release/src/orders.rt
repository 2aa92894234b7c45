//! What orders come to at released books, in the words of the trade.
ghost use Rattle.std.specs.Prelude.{◌≡◌, ℕ, Bool, true, false, List, Some, slice_get};
ghost use Rattle.book_model.specs.Contents.{Contents};
ghost use Rattle.book_model.specs.Parts.{lines_at, parts, selected};
ghost use Rattle.book_model.specs.declared.record.Position.{Position};
ghost use Rattle.release.specs.Accepting.{accepts};
ghost use Rattle.release.specs.Orders.{IsWellFormed, can_be_built, IsBuilt, IsTurnedAway, lines_of};
ghost use Rattle.release.specs.Release.{Release, IsRelease};

/// What holds of every well-formed order at a released book: it is accepted exactly where its supplemented codes break no
/// constructibility rule; its parts list is then the book's one complete list, and else the first broken rule refuses it. A parts
/// list has for each position the lines of the variants that are selected there, and no others. The call does nothing.
pub fn order_laws()
    ensures accepts { (r : Release) (day : ℕ) (names : List (List ℕ)) → IsRelease r
        → IsWellFormed r.book day names → accepts r.book day names ≡ can_be_built r.book day names }
    ensures built { (r : Release) (day : ℕ) (names : List (List ℕ)) → IsRelease r
        → IsWellFormed r.book day names → can_be_built r.book day names ≡ true → IsBuilt r.book day names }
    ensures turned_away { (r : Release) (day : ℕ) (names : List (List ℕ)) → IsRelease r
        → IsWellFormed r.book day names → can_be_built r.book day names ≡ false
        → IsTurnedAway r.book day names }
    ensures lines { (b : Contents) (day : ℕ) (x : List Bool) (place : ℕ) (p : Position)
        → slice_get b.positions place ≡ Some p
        → lines_of place (parts b day x) ≡ lines_at place (selected b day x place p) }
{}

//! What a caller's answers depend on.
ghost use Rattle.std.specs.Prelude.{◌≡◌, ℕ, ◌<◌, List, true, false, length};
ghost use Rattle.turn_book.specs.History.{end_of};
ghost use Rattle.turn_book.specs.declared.entry.Entry.{Entry};
ghost use Rattle.order_desk.specs.Effect.{effect};
ghost use Rattle.order_desk.specs.History.{IsLegal};
ghost use Rattle.order_desk.specs.Step.{Step};
ghost use Rattle.order_desk.specs.Tables.{Tables, State};
ghost use Rattle.order_desk.specs.Valid.{IsValid};
ghost use Rattle.order_desk.specs.declared.answer.Answer.{Answer};
ghost use Rattle.order_desk.specs.declared.event.Event.{Event};
ghost use Rattle.order_desk.specs.declared.limits.TheConstants.{MOST_ORDERS};
ghost use Rattle.caller_laws.specs.Callers.{AreToldAlike, BeginAlike, IsAnsweredAlike, IsToldAlone, changes, concerns, dealings, events_of, is_settled, seen_by, seen_effect};

use order_desk::history_laws;

/// What a caller is told depends on the drafts, the books and that caller's own orders, never on other callers' orders. Apart from
/// this are want of memory, a fault of the store and the limit of kept orders: an event that is answered by one of them changes no
/// tables. So callers may be divided among desks at which drafts and books are changed in one sequence. How many steps a service
/// has left is apart, too. The call does nothing.
pub fn caller_laws()
    // What a caller sees are tables of a desk.
    ensures valid { (caller : List ℕ) (t : Tables) → IsValid t → IsValid (seen_by caller t) }
    // With room for one more order, an event does what it does at a desk that has the caller's orders alone.
    ensures own { (caller : List ℕ) (t : Tables) (event : Event) → IsValid t → concerns caller event ≡ true
        → length t.orders < MOST_ORDERS
        → effect (seen_by caller t) event ≡ seen_effect caller (effect t event) }
    // Where a caller sees the same at two desks, both give one answer, and then the caller sees the same again.
    ensures steps { (caller : List ℕ) (one other : State) (event : Event)
        → IsValid one.tables → IsValid other.tables → seen_by caller one.tables ≡ seen_by caller other.tables
        → concerns caller event ≡ true → IsAnsweredAlike caller one other event }
    ensures others { (caller : List ℕ) (old new : State) (event : Event) (answer : Answer)
        → concerns caller event ≡ false → Step old event answer new
        → seen_by caller new.tables ≡ seen_by caller old.tables }
    ensures unsettled { (old new : State) (event : Event) (answer : Answer) → is_settled answer ≡ false
        → Step old event answer new → new.tables ≡ old.tables }
    // Along a history a caller is told what that desk answers to the events that concern the caller.
    ensures alone { (caller : List ℕ) (start : State) (history : List (Entry State Event Answer))
        → IsValid start.tables → IsLegal start history → IsToldAlone caller start history }
    ensures alike { (caller : List ℕ) (one other : State) (first second : List (Entry State Event Answer))
        → BeginAlike caller one other first second
        → events_of (dealings caller first) ≡ events_of (dealings caller second)
        → AreToldAlike caller one other first second }
    // After the same changes two desks answer the same, whatever else was read at them.
    ensures changed { (caller : List ℕ) (one other : State) (first second : List (Entry State Event Answer))
        → BeginAlike caller one other first second
        → events_of (changes caller first) ≡ events_of (changes caller second)
        → (event : Event) → concerns caller event ≡ true
        → IsAnsweredAlike caller (end_of one first) (end_of other second) event }
{
    history_laws();
}

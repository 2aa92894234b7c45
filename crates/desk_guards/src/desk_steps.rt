//! What no step of a desk does.
ghost use Rattle.std.specs.Prelude.{◌≡◌, IfSome};
ghost use Rattle.desk_words.specs.declared.order_words.OrderWords.{OrderWords};
ghost use Rattle.desk_words.specs.declared.reply.Reply.TheVariants as Reply;
ghost use Rattle.order_desk.specs.Fits.{Fits};
ghost use Rattle.order_desk.specs.Rows.{rows_of};
ghost use Rattle.order_desk.specs.declared.answer.Answer.TheVariants as Answer;
ghost use Rattle.release.specs.Release.{Release};
ghost use Rattle.desk_guards.specs.Steps.{IsOfItsBook, IsOneCallAtMost};

use caller_laws::caller_laws;
use keeper::Keeper;
use order_desk::{Answer, Desk, Event};

/// A step that reads rows beside its one write would take the longer, the more is kept.
pub fn no_row_is_read_before_a_put<P: Keeper>(desk: &mut Desk<P>, event: Event) -> Answer
    requires { Fits desk.old.tables event }
    ensures { IsOneCallAtMost desk.old.calls desk.new.calls }
{
    desk.step(event)
}

/// A row of a step that was answered with want of memory, a book's say, would come up at the next start, and nobody was told its
/// number.
pub fn no_row_stays_of_a_step_without_memory<P: Keeper>(desk: Desk<P>, event: Event) -> (Answer, P)
    requires { Fits desk.tables event }
    ensures { result.0 ≡ Answer.Say Reply.Memory → IfSome (P.told result.1) (λ rows. rows ≡ rows_of desk.tables) }
{
    caller_laws();
    let mut desk = desk;
    let answer = desk.step(event);
    (answer, desk.finish())
}

/// A caller who asks for an old order, or sends it once more, would be told the parts of a newer book.
pub fn no_kept_order_is_answered_by_another_book<P: Keeper>(
    desk: &mut Desk<P>,
    event: Event,
) -> Answer
    requires { Fits desk.old.tables event }
    ensures { (order : OrderWords) (book : Release) → result ≡ Answer.Kept order book
        → IsOfItsBook desk.old.tables order book }
{
    desk.step(event)
}

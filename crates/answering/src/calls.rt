//! Calls and their answers.
ghost use Rattle.std.specs.Prelude.{◌≤◌, length};
ghost use Rattle.pb_base.specs.declared.limits.TheConstants.{MOST_TEXT_BYTES};
ghost use Rattle.order_desk.specs.declared.event.Event.TheVariants as Event;
ghost use Rattle.answering.specs.LaterHand.{IsLaterHand};
ghost use Rattle.answering.specs.Answers.{Answers, IsCall, course_of};
ghost use Rattle.answering.specs.Course.{says};

use crate::advice::{tell_free, tell_why};
use crate::asked::ask;
use crate::books::{read_book, read_cert};
use crate::drafts::{Asked, check_draft, read_draft, release_draft};
use crate::gate::Gate;
use crate::names::name_law;
use crate::orders::{place_order, read_order};
use crate::turns::Turns;
use desk_words::{Call, Reply, What};
use order_desk::{Event, Reading};
use pb_base::{Body, Id};
use std::alloc::Global;

/// Answers a call: its steps are made in turn, and drafts are checked and orders judged between them, behind the gate.
pub fn answer_call<T: Turns, G: Gate>(alloc: Global, turns: &mut T, gate: &G, call: Call) -> Reply
    requires { IsCall call.what }
    ensures answers { Answers call (T.hand turns.old) result (T.hand turns.new) }
    // However it is answered, legal steps lead from the desk that was seen to the one that is seen then.
    ensures steps { IsLaterHand (T.hand turns.old) (T.hand turns.new) }
{
    reply_to(alloc, turns, gate, call.caller, call.what)
}

fn reply_to<T: Turns, G: Gate>(
    alloc: Global,
    turns: &mut T,
    gate: &G,
    caller: Id,
    what: What,
) -> Reply
    requires { IsCall what }
    ensures { course_of caller what (T.hand turns.old) result (T.hand turns.new) }
{
    match what {
        What::PutDraft { draft, text } => put_draft(turns, caller, draft, text),
        What::GiveDraft { draft, to } => give_draft(turns, caller, draft, to),
        What::ReadDraft { draft } => read_draft(alloc, turns, draft),
        What::ReadOwner { draft } => ask(turns, Event::Read(Reading::Owner { draft })),
        What::Check { draft, budget } => check_draft(alloc, turns, gate, caller, draft, budget),
        What::Release {
            draft,
            revision,
            budget,
        } => {
            let asked = Asked {
                caller,
                draft,
                revision,
            };
            release_draft(alloc, turns, gate, &asked, budget)
        }
        What::ReadBook { book } => read_book(alloc, turns, book),
        What::ReadCert { book } => read_cert(alloc, turns, book),
        What::Withdraw { book } => ask(turns, Event::Withdraw { caller, book }),
        What::Order { number, order } => place_order(alloc, turns, gate, caller, number, order),
        What::Free { order, budget } => tell_free(alloc, turns, gate, caller, &order, budget),
        What::Why { order, budget } => tell_why(alloc, turns, gate, caller, &order, budget),
        What::ReadOrder { number } => read_order(alloc, turns, caller, number),
        What::ReadBooks => ask(turns, Event::Read(Reading::Books)),
        What::ReadOrders { after } => ask(turns, Event::Read(Reading::Orders { caller, after })),
    }
}

// Keeps a text as a draft.
fn put_draft<T: Turns>(turns: &mut T, caller: Id, draft: Id, text: Body) -> Reply
    requires { length text ≤ MOST_TEXT_BYTES }
    ensures { says (Event.PutDraft caller draft text) (T.hand turns.old) result (T.hand turns.new) }
{
    name_law(&caller);
    name_law(&draft);
    ask(
        turns,
        Event::PutDraft {
            caller,
            draft,
            text,
        },
    )
}

// Hands a draft over to another owner.
fn give_draft<T: Turns>(turns: &mut T, caller: Id, draft: Id, to: Id) -> Reply
    ensures { says (Event.GiveDraft caller draft to) (T.hand turns.old) result (T.hand turns.new) }
{
    name_law(&to);
    ask(turns, Event::GiveDraft { caller, draft, to })
}

//! The events that calls ask for, each with the answers that it has.
ghost use Rattle.std.specs.Prelude.{◌≡◌};
ghost use Rattle.order_desk.specs.Fits.{Fits};
ghost use Rattle.order_desk.specs.Valid.{IsValid};
ghost use Rattle.order_desk.specs.declared.answer.Answer.TheVariants as Answer;
ghost use Rattle.order_desk.specs.declared.event.Event.TheVariants as Event;
ghost use Rattle.order_desk.specs.declared.event.Reading.TheVariants as Reading;
ghost use Rattle.answering.specs.Course.{says};
ghost use Rattle.answering.specs.Hand.{Takes};
ghost use Rattle.answering.specs.Told.{IsReply, OnlySays, TellsDraft, TellsKept, TellsLooked, TellsPlaced, answered, as_kept, as_looked, as_placed, as_taken};

use crate::turns::Turns;
use desk_words::{OrderWords, Reply};
use order_desk::{Answer, Event, Reading, SharedBook, SharedText};
use pb_base::Id;

/// A draft that is to be read, checked or released.
#[derive(Drop)]
pub struct Taken {
    pub text: SharedText,
    pub revision: u32,
}

/// A kept order, with the book that it was judged by.
#[derive(Drop)]
pub struct KeptOrder {
    pub order: OrderWords,
    pub book: SharedBook,
}

/// What stands at the number of an order.
#[derive(Drop)]
pub enum Looked {
    /// Nothing: the order is to be judged by this book.
    Free(SharedBook),
    /// The same order.
    Kept(KeptOrder),
}

/// The reply to an event that always says one.
pub(crate) fn ask<T: Turns>(turns: &mut T, event: Event) -> Reply
    requires fits { Fits (T.hand turns.old).state.tables event }
    requires says { OnlySays event }
    ensures { says event (T.hand turns.old) result (T.hand turns.new) }
{
    let answer = turns.step(event);
    reply_of(answer)
}

fn reply_of(answer: Answer) -> Reply
    requires { IsReply answer }
    ensures { answer ≡ Answer.Say result }
{
    match answer {
        Answer::Say(reply) => reply,
        _ => unreachable!(),
    }
}

/// The draft of this name.
pub(crate) fn ask_text<T: Turns>(turns: &mut T, draft: Id) -> Result<Taken, Reply>
    ensures { let event = Event.Read (Reading.Draft draft) in
        Takes (T.hand turns.old) event (answered as_taken result) (T.hand turns.new) }
{
    match turns.step(Event::Read(Reading::Draft { draft })) {
        Answer::Say(reply) => Err(reply),
        Answer::Draft { text, revision } => Ok(Taken { text, revision }),
        _ => unreachable!(),
    }
}

/// The caller's draft, to check it, or to release it at this revision.
pub(crate) fn ask_draft<T: Turns>(
    turns: &mut T,
    caller: Id,
    draft: Id,
    revision: Option<u32>,
) -> Result<Taken, Reply>
    ensures takes { let event = Event.Read (Reading.Take caller draft revision) in
        Takes (T.hand turns.old) event (answered as_taken result) (T.hand turns.new) }
    ensures tells { TellsDraft draft revision (answered as_taken result) (T.hand turns.new).state.tables }
{
    match turns.step(Event::Read(Reading::Take {
        caller,
        draft,
        revision,
    })) {
        Answer::Say(reply) => Err(reply),
        Answer::Draft { text, revision } => Ok(Taken { text, revision }),
        _ => unreachable!(),
    }
}

/// The book of this number.
pub(crate) fn ask_book<T: Turns>(turns: &mut T, book: u32) -> Result<SharedBook, Reply>
    ensures { let event = Event.Read (Reading.Book book) in
        Takes (T.hand turns.old) event (answered Answer.Book result) (T.hand turns.new) }
{
    match turns.step(Event::Read(Reading::Book { book })) {
        Answer::Say(reply) => Err(reply),
        Answer::Book(book) => Ok(book),
        _ => unreachable!(),
    }
}

/// The book of this number, if it is in force.
pub(crate) fn ask_in_force<T: Turns>(turns: &mut T, book: u32) -> Result<SharedBook, Reply>
    ensures { let event = Event.Read (Reading.InForce book) in
        Takes (T.hand turns.old) event (answered Answer.Book result) (T.hand turns.new) }
{
    match turns.step(Event::Read(Reading::InForce { book })) {
        Answer::Say(reply) => Err(reply),
        Answer::Book(book) => Ok(book),
        _ => unreachable!(),
    }
}

/// What stands at the caller's number for an order.
pub(crate) fn ask_number<T: Turns>(
    turns: &mut T,
    caller: Id,
    number: u32,
    order: OrderWords,
) -> Result<Looked, Reply>
    ensures takes { let event = Event.Read (Reading.Look caller number order) in
        Takes (T.hand turns.old) event (answered as_looked result) (T.hand turns.new) }
    ensures tells { TellsLooked order.book (answered as_looked result) (T.hand turns.new).state.tables }
    ensures valid { IsValid (T.hand turns.new).state.tables }
{
    match turns.step(Event::Read(Reading::Look {
        caller,
        number,
        order,
    })) {
        Answer::Say(reply) => Err(reply),
        Answer::Book(book) => Ok(Looked::Free(book)),
        Answer::Kept { order, book } => Ok(Looked::Kept(KeptOrder { order, book })),
        _ => unreachable!(),
    }
}

/// Keeps an order: none stood at its number, or the same did.
pub(crate) fn ask_place<T: Turns>(
    turns: &mut T,
    caller: Id,
    number: u32,
    order: OrderWords,
) -> Result<Option<KeptOrder>, Reply>
    requires { Fits (T.hand turns.old).state.tables (Event.Place caller number order) }
    ensures takes { let event = Event.Place caller number order in
        Takes (T.hand turns.old) event (answered as_placed result) (T.hand turns.new) }
    ensures tells { TellsPlaced (answered as_placed result) (T.hand turns.new).state.tables }
    ensures valid { IsValid (T.hand turns.new).state.tables }
{
    match turns.step(Event::Place {
        caller,
        number,
        order,
    }) {
        Answer::Say(reply) => Err(reply),
        Answer::Placed => Ok(None),
        Answer::Kept { order, book } => Ok(Some(KeptOrder { order, book })),
        _ => unreachable!(),
    }
}

/// The caller's kept order of this number.
pub(crate) fn ask_order<T: Turns>(
    turns: &mut T,
    caller: Id,
    number: u32,
) -> Result<KeptOrder, Reply>
    ensures takes { let event = Event.Read (Reading.Order caller number) in
        Takes (T.hand turns.old) event (answered as_kept result) (T.hand turns.new) }
    ensures tells { TellsKept (answered as_kept result) (T.hand turns.new).state.tables }
    ensures valid { IsValid (T.hand turns.new).state.tables }
{
    match turns.step(Event::Read(Reading::Order { caller, number })) {
        Answer::Say(reply) => Err(reply),
        Answer::Kept { order, book } => Ok(KeptOrder { order, book }),
        _ => unreachable!(),
    }
}

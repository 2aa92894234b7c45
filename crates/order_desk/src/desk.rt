//! The desk.
ghost use Rattle.std.specs.Prelude.{◌≡◌, IfSome, None, length};
ghost use Rattle.order_desk.specs.declared.event.Event.{Event};
ghost use Rattle.order_desk.specs.declared.event.Event.TheVariants.{Read};
ghost use Rattle.order_desk.specs.declared.event.Reading.{Reading};
ghost use Rattle.order_desk.specs.Fits.{Fits};
ghost use Rattle.order_desk.specs.History.{Grows, Reaches};
ghost use Rattle.order_desk.specs.RightRows.{first_bad};
ghost use Rattle.order_desk.specs.Rows.{rows_of};
ghost use Rattle.order_desk.specs.Start.{tables_in};
ghost use Rattle.order_desk.specs.Step.{Step};
ghost use Rattle.order_desk.specs.Tables.{State};
ghost use Rattle.order_desk.specs.Valid.{IsValid};

mod changing;
mod kept;
mod needs;
mod showing;

use crate::start::ReadTables;
use crate::{Answer, Draft, Event, KeptBook, OrderKey};
use desk_words::OrderWords;
use keeper::Keeper;
use pb_base::Id;
use std::collections::BTreeMap;
use std::marker::Model;

/// The order desk: what it keeps in memory, and the keeper of its rows. It has no `Drop`: it ends in `finish`.
pub struct Desk<P: Keeper> {
    keeper: P,
    drafts: BTreeMap<Id, Draft>,
    books: Vec<KeptBook>,
    orders: BTreeMap<OrderKey, OrderWords>,
}

impl<P: Keeper> Model for Desk<P> {
    ghost use Rattle.order_desk.specs.Rows.{IsDesk};
    ghost use Rattle.order_desk.specs.StateCode.{state_code};
    ghost use Rattle.order_desk.specs.Tables.{State};

    ghost Value = { State };

    ghost coded = { state_code };

    ghost view = { λ d. record {
      tables = record { drafts = d.drafts.entries; books = d.books.items; orders = d.orders.entries };
      faults = P.failures d.keeper;
      calls = P.calls d.keeper;
    } };

    ghost invariant = { λ d. IsDesk
        (record { drafts = d.drafts.entries; books = d.books.items; orders = d.orders.entries })
        (P.told d.keeper) };
}

/// How much the desk keeps.
#[derive(Clone, Copy, Debug, PartialEq, Eq)]
pub struct DeskCounts {
    pub drafts: u32,
    pub books: u32,
    pub orders: u32,
}

impl<P: Keeper> Desk<P> {
    /// The desk that keeps these tables, of which its keeper keeps the rows.
    pub(crate) fn of(keeper: P, read: ReadTables) -> Desk<P>
        requires valid { IsValid (tables_in read) }
        requires kept { IfSome (P.told keeper) (λ rows. rows ≡ rows_of (tables_in read)) }
        ensures tables { result.tables ≡ tables_in read }
        ensures faults { result.faults ≡ P.failures keeper }
        ensures calls { result.calls ≡ P.calls keeper }
    {
        let ReadTables {
            drafts,
            books,
            orders,
        } = read;
        Desk {
            keeper,
            drafts,
            books,
            orders,
        }
    }

    /// How much it keeps.
    pub fn counts(&self) -> DeskCounts
        ensures drafts { result.drafts ≡ length self.now.tables.drafts }
        ensures books { result.books ≡ length self.now.tables.books }
        ensures orders { result.orders ≡ length self.now.tables.orders }
        ensures valid { IsValid self.now.tables }
    {
        DeskCounts {
            drafts: self.drafts.len() as u32,
            books: self.books.len() as u32,
            orders: self.orders.len() as u32,
        }
    }

    /// What the desk keeps is valid. The call does nothing.
    pub fn valid_law(&self)
        ensures { IsValid self.now.tables }
    {
        let _books = &self.books;
    }

    /// Ends the desk and gives its keeper back.
    pub fn finish(self) -> P
        ensures rows { IfSome (P.told result) (λ rows. rows ≡ rows_of self.tables) }
        ensures faults { P.failures result ≡ self.faults }
        ensures calls { P.calls result ≡ self.calls }
        ensures valid { IsValid self.tables }
        // No desk is refused by what it kept itself.
        ensures right { first_bad (rows_of self.tables) ≡ None }
    {
        let Desk {
            keeper,
            drafts: _drafts,
            books: _books,
            orders: _orders,
        } = self;
        keeper
    }

    /// Takes one event. It is answered as its row says, and want of memory or a fault of the store changes nothing but the
    /// counts. Of the keeper it makes at most one call, and none but a write.
    pub fn step(&mut self, event: Event) -> Answer
        requires { Fits self.old.tables event }
        ensures step { Step self.old event result self.new }
        ensures valid { IsValid self.new.tables }
        ensures grows { Grows self.old.tables self.new.tables }
    {
        let answer = self.take(event);
        self.valid_law();
        answer
    }

    // Takes one event.
    fn take(&mut self, event: Event) -> Answer
        requires { Fits self.old.tables event }
        ensures { Step self.old event result self.new }
    {
        match event {
            Event::PutDraft {
                caller,
                draft,
                text,
            } => self.put_draft(caller, draft, text),
            Event::GiveDraft { caller, draft, to } => self.give_draft(caller, draft, to),
            Event::Commit {
                caller,
                draft,
                revision,
                released,
            } => self.commit(caller, draft, revision, released),
            Event::Withdraw { caller, book } => self.withdraw(caller, book),
            Event::Place {
                caller,
                number,
                order,
            } => self.place(caller, number, order),
            Event::Read(asked) => self.read(asked),
        }
    }
}

/// What holds of every history of steps: books, kept orders and withdrawals stay, no revision falls, equal revisions of a draft
/// have equal texts, what fits once fits later, and what is valid stays valid. What only reads changes nothing. The call does
/// nothing.
pub fn history_laws()
    ensures grows { (old new : State) → Reaches old new → Grows old.tables new.tables }
    ensures fits { (old new : State) (event : Event) → Reaches old new
        → Fits old.tables event → Fits new.tables event }
    ensures step { (old new : State) (event : Event) (answer : Answer) → IsValid old.tables
        → Fits old.tables event → Step old event answer new → IsValid new.tables }
    ensures valid { (old new : State) → Reaches old new → IsValid old.tables → IsValid new.tables }
    ensures reads { (old new : State) (asked : Reading) (answer : Answer) → Step old (Read asked) answer new
        → new ≡ old }
{}

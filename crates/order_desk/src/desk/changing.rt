//! Events that write.
ghost use Rattle.std.specs.Prelude.{IsSomeAnd, ◌≡◌, ◌+◌, ◌<◌, Some, None, IfOk, IfErr, OnOk, length, true, false};
ghost use Rattle.pb_base.specs.Names.{is_name};
ghost use Rattle.desk_words.specs.declared.reply.Reply.TheVariants as Reply;
ghost use Rattle.order_desk.specs.declared.answer.Answer.TheVariants as Answer;
ghost use Rattle.order_desk.specs.declared.kept_book.KeptBook.{KeptBook};
ghost use Rattle.order_desk.specs.declared.limits.TheConstants.{MOST_BOOKS as most_books, MOST_ORDERS as most_orders};
ghost use Rattle.order_desk.specs.Effect.{keeps, commit, give_draft, place, put_draft, withdraw};
ghost use Rattle.order_desk.specs.Fits.{IsPut, IsPlaced, IsReleaseOf};
ghost use Rattle.order_desk.specs.History.{Stays, IsLaterDraft};
ghost use Rattle.order_desk.specs.Step.{Follows};
ghost use Rattle.order_desk.specs.Tables.{book_at, draft_at, order_at, released_as, with_book, with_draft, with_order, with_withdrawn};
ghost use Rattle.order_desk.specs.Valid.{HasRoom, IsDraft};
ghost use Rattle.order_desk.specs.Writing.{IsAnswered};

use crate::draft::NewDraft;
use crate::kept_book::BookToKeep;
use crate::writing::{write_book, write_draft, write_order, write_withdrawn};
use crate::{Answer, Desk, NewBook, OrderKey};
use desk_words::{OrderWords, Reply};
use keeper::Keeper;
use pb_base::{Body, Id, Memory};
use pb_outside::OutError;

// What a write that was not made, or was, is answered with.
fn answered(written: Result<(), OutError>, due: Answer, before: u64, after: u64) -> Answer
    ensures { IsAnswered written due result before after }
{
    match written {
        Ok(()) => due,
        Err(OutError::Memory) => Answer::Say(Reply::Memory),
        Err(OutError::Failed) => Answer::Say(Reply::StoreFault { before, after }),
    }
}

impl<P: Keeper> Desk<P> {
    #[tactic(auto, unfolding(crate::specs::Effect::put_draft))]
    pub(super) fn put_draft(&mut self, caller: Id, name: Id, text: Body) -> Answer
        requires { IsPut caller name text }
        ensures { Follows (put_draft self.old.tables caller name text) self.old result self.new }
    {
        match self.next_draft(caller, name, text) {
            Ok(draft) => {
                let due = Answer::Say(Reply::Kept {
                    draft: name,
                    revision: draft.revision,
                });
                self.keep_draft(name, draft, due)
            }
            Err(said) => Answer::Say(said),
        }
    }

    // The caller's draft with another owner, or why there is none. Its text is copied for the row.
    #[tactic(auto, using(crate::proofs::Following::follows_memory), unfolding(crate::specs::Effect::give_draft))]
    pub(super) fn next_owner(&self, caller: Id, name: Id, to: Id) -> Result<NewDraft, Reply>
        requires { is_name to ≡ true }
        ensures form { IfOk result (IsDraft name) }
        ensures room { OnOk result (HasRoom self.now.tables.drafts name) }
        ensures later { IfOk result (λ draft.
            Stays IsLaterDraft (draft_at self.now.tables.drafts name) (Some draft)) }
        ensures gives { IfOk result (λ draft. give_draft self.now.tables caller name to
            ≡ keeps (Answer.Say (Reply.Given name to)) (with_draft self.now.tables name draft)) }
        ensures said { IfErr result (λ said.
            Follows (give_draft self.now.tables caller name to) self.now (Answer.Say said) self.now) }
    {
        let _ = &self.keeper;
        match self.owned(caller, name) {
            Ok(draft) => match draft.text.copy(*self.books.allocator()) {
                Ok(text) => Ok(NewDraft {
                    owner: to,
                    revision: draft.revision,
                    text,
                }),
                Err(Memory) => Err(Reply::Memory),
            },
            Err(said) => Err(said),
        }
    }

    pub(super) fn give_draft(&mut self, caller: Id, name: Id, to: Id) -> Answer
        requires { is_name to ≡ true }
        ensures { Follows (give_draft self.old.tables caller name to) self.old result self.new }
    {
        match self.next_owner(caller, name, to) {
            Ok(draft) => self.keep_draft(
                name,
                draft,
                Answer::Say(Reply::Given { draft: name, to }),
            ),
            Err(said) => Answer::Say(said),
        }
    }

    #[tactic(auto, unfolding(crate::specs::Effect::commit))]
    pub(super) fn commit(
        &mut self,
        caller: Id,
        name: Id,
        revision: u32,
        released: NewBook,
    ) -> Answer
        requires { IsReleaseOf self.old.tables.drafts name revision released }
        ensures { Follows (commit self.old.tables caller name revision released) self.old result self.new }
    {
        match self.to_release(caller, name, revision) {
            Ok(_) => self.keep_book(BookToKeep {
                draft: name,
                revision,
                released,
            }),
            Err(said) => Answer::Say(said),
        }
    }

    #[tactic(auto, unfolding(crate::specs::Effect::withdraw))]
    pub(super) fn withdraw(&mut self, caller: Id, number: u32) -> Answer
        ensures { Follows (withdraw self.old.tables caller number) self.old result self.new }
    {
        match self.book_of(number) {
            Ok(book) => match self.owned(caller, book.draft) {
                Ok(_) => {
                    if book.withdrawn {
                        return Answer::Say(Reply::Withdrawn(number));
                    }
                    self.keep_withdrawn(number)
                }
                Err(said) => Answer::Say(said),
            },
            Err(said) => Answer::Say(said),
        }
    }

    #[tactic(auto, unfolding(crate::specs::Effect::place))]
    pub(super) fn place(&mut self, caller: Id, number: u32, order: OrderWords) -> Answer
        requires { IsPlaced self.old.tables.books caller number order }
        ensures { Follows (place self.old.tables caller number order) self.old result self.new }
    {
        let key = OrderKey { caller, number };
        match self.orders.get(&key) {
            Some(kept) => self.repeat(kept, &order),
            None => match self.to_place(&order) {
                Ok(_) => self.keep_order(key, order),
                Err(said) => Answer::Say(said),
            },
        }
    }

    // Keeps a draft as it is now to be.
    fn keep_draft(&mut self, name: Id, draft: NewDraft, due: Answer) -> Answer
        requires form { IsDraft name draft }
        requires room { HasRoom self.old.tables.drafts name }
        requires later { Stays IsLaterDraft (draft_at self.old.tables.drafts name) (Some draft) }
        ensures { Follows (keeps due (with_draft self.old.tables name draft)) self.old result self.new }
    {
        let before = self.keeper.faults();
        let alloc = *self.books.allocator();
        let written = write_draft(alloc, &mut self.drafts, &mut self.keeper, name, draft);
        answered(written, due, before, self.keeper.faults())
    }

    // Keeps a book under the next number.
    fn keep_book(&mut self, book: BookToKeep) -> Answer
        requires release { IsReleaseOf self.old.tables.drafts book.draft book.revision book.released }
        requires room { length self.old.tables.books < most_books }
        requires fresh { released_as self.old.tables.books book.draft book.revision ≡ None }
        requires in_force { book.withdrawn ≡ false }
        ensures { Follows (keeps (Answer.Say (Reply.BookIs (length self.old.tables.books + 1) true))
            (with_book self.old.tables book)) self.old result self.new }
    {
        let before = self.keeper.faults();
        let alloc = *self.books.allocator();
        let due = Answer::Say(Reply::BookIs {
            number: self.books.len() as u32 + 1,
            fresh: true,
        });
        let written = write_book(alloc, &mut self.books, &mut self.keeper, book);
        answered(written, due, before, self.keeper.faults())
    }

    // Puts a book out of force that is still in force.
    fn keep_withdrawn(&mut self, number: u32) -> Answer
        requires { IsSomeAnd (book_at self.old.tables.books number) (λ book. book.withdrawn ≡ false) }
        ensures { (book : KeptBook) → book_at self.old.tables.books number ≡ Some book
            → Follows
            (keeps (Answer.Say (Reply.Withdrawn number)) (with_withdrawn self.old.tables number book))
            self.old result self.new }
    {
        let before = self.keeper.faults();
        let due = Answer::Say(Reply::Withdrawn(number));
        let place = number as usize - 1;
        let written = write_withdrawn(&mut self.books, &mut self.keeper, place);
        answered(written, due, before, self.keeper.faults())
    }

    // Keeps an order under a number that is free.
    fn keep_order(&mut self, key: OrderKey, order: OrderWords) -> Answer
        requires placed { IsPlaced self.old.tables.books key.caller key.number order }
        requires room { length self.old.tables.orders < most_orders }
        requires free { order_at self.old.tables.orders key ≡ None }
        ensures { Follows
            (keeps Answer.Placed (with_order self.old.tables key order)) self.old result self.new }
    {
        let before = self.keeper.faults();
        let alloc = *self.books.allocator();
        let written = write_order(alloc, &mut self.orders, &mut self.keeper, key, order);
        answered(written, Answer::Placed, before, self.keeper.faults())
    }
}

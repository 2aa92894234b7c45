//! What only reads.
ghost use Rattle.std.specs.Prelude.{◌≡◌, IfOk, OnErr, if◌then◌else◌};
ghost use Rattle.desk_words.specs.declared.reply.Reply.TheVariants as Reply;
ghost use Rattle.order_desk.specs.declared.answer.Answer.TheVariants as Answer;
ghost use Rattle.order_desk.specs.Effect.{says, list_books, list_orders, look, read, read_draft, read_order, read_owner, show_book, show_in_force, shows_kept, same_order, take_draft};
ghost use Rattle.order_desk.specs.Listing.{own_above};
ghost use Rattle.order_desk.specs.Step.{IsOrMemory, Shows};

use crate::listing::{books_text, list_text};
use crate::lookup::same_order;
use crate::{Answer, Desk, Draft, OrderKey, Reading, SharedBook};
use desk_words::{Missing, OrderWords, Reply};
use keeper::Keeper;
use pb_base::{Body, Id, Memory};
use std::alloc::Global;
use std::collections::btree_map::Range;
use std::ops::Bound;

// The answers that take memory.

fn taken(draft: &Draft) -> Answer
    ensures { IsOrMemory (Answer.Draft draft.now.text draft.now.revision) result }
{
    match draft.text.share() {
        Ok(text) => Answer::Draft {
            text,
            revision: draft.revision,
        },
        Err(Memory) => Answer::Say(Reply::Memory),
    }
}

fn shared(book: &SharedBook) -> Answer
    ensures { IsOrMemory (Answer.Book book.now) result }
{
    match book.share() {
        Ok(book) => Answer::Book(book),
        Err(Memory) => Answer::Say(Reply::Memory),
    }
}

fn kept_under(alloc: Global, kept: &OrderWords, book: &SharedBook) -> Answer
    ensures { IsOrMemory (Answer.Kept kept.now book.now) result }
{
    match kept.copy(alloc) {
        Ok(order) => match book.share() {
            Ok(book) => Answer::Kept { order, book },
            Err(Memory) => Answer::Say(Reply::Memory),
        },
        Err(Memory) => Answer::Say(Reply::Memory),
    }
}

fn report(list: Result<Body, Memory>) -> Answer
    ensures made { IfOk list (λ text. result ≡ Answer.Say (Reply.Report text)) }
    ensures memory { OnErr list (result ≡ Answer.Say Reply.Memory) }
{
    match list {
        Ok(text) => Answer::Say(Reply::Report(text)),
        Err(Memory) => Answer::Say(Reply::Memory),
    }
}

impl<P: Keeper> Desk<P> {
    pub(super) fn read(&self, asked: Reading) -> Answer
        ensures { Shows (read self.now.tables asked) result }
    {
        match asked {
            Reading::Draft { draft } => self.read_draft(draft),
            Reading::Owner { draft } => self.read_owner(draft),
            Reading::Take {
                caller,
                draft,
                revision,
            } => self.take_draft(caller, draft, revision),
            Reading::Book { book } => self.show_book(book),
            Reading::InForce { book } => self.show_in_force(book),
            Reading::Look {
                caller,
                number,
                order,
            } => self.look(caller, number, order),
            Reading::Order { caller, number } => self.read_order(caller, number),
            Reading::Books => self.list_books(),
            Reading::Orders { caller, after } => self.list_orders(caller, after),
        }
    }

    #[tactic(auto, unfolding(crate::specs::Effect::read_draft))]
    fn read_draft(&self, name: Id) -> Answer
        ensures { Shows (read_draft self.now.tables name) result }
    {
        match self.draft_of(name) {
            Ok(draft) => taken(draft),
            Err(said) => Answer::Say(said),
        }
    }

    #[tactic(auto, unfolding(crate::specs::Effect::read_owner))]
    fn read_owner(&self, name: Id) -> Answer
        ensures { Shows (read_owner self.now.tables name) result }
    {
        match self.draft_of(name) {
            Ok(draft) => Answer::Say(Reply::OwnerIs {
                owner: draft.owner,
                revision: draft.revision,
            }),
            Err(said) => Answer::Say(said),
        }
    }

    #[tactic(auto, unfolding(crate::specs::Effect::take_draft))]
    fn take_draft(&self, caller: Id, name: Id, revision: Option<u32>) -> Answer
        ensures { Shows (take_draft self.now.tables caller name revision) result }
    {
        match self.to_take(caller, name, revision) {
            Ok(draft) => taken(draft),
            Err(said) => Answer::Say(said),
        }
    }

    #[tactic(auto, unfolding(crate::specs::Effect::show_book))]
    fn show_book(&self, number: u32) -> Answer
        ensures { Shows (show_book self.now.tables number) result }
    {
        match self.book_of(number) {
            Ok(book) => shared(&book.released),
            Err(said) => Answer::Say(said),
        }
    }

    #[tactic(auto, unfolding(crate::specs::Effect::show_in_force))]
    fn show_in_force(&self, number: u32) -> Answer
        ensures { Shows (show_in_force self.now.tables number) result }
    {
        match self.book_in_force(number) {
            Ok(book) => shared(&book.released),
            Err(said) => Answer::Say(said),
        }
    }

    // A kept order, with its own book.
    #[tactic(auto, unfolding(crate::specs::Effect::shows_kept))]
    fn show_kept(&self, kept: &OrderWords) -> Answer
        ensures { Shows (shows_kept self.now.tables kept.now) result }
    {
        match self.book_of(kept.book) {
            Ok(book) => kept_under(*self.books.allocator(), kept, &book.released),
            Err(said) => Answer::Say(said),
        }
    }

    // What an order gets whose number is taken.
    pub(super) fn repeat(&self, kept: &OrderWords, order: &OrderWords) -> Answer
        ensures { Shows (if same_order kept.now order.now then shows_kept self.now.tables kept.now
            else says (Answer.Say (Reply.NumberUsed kept.now.book))) result }
    {
        if same_order(kept, order) {
            self.show_kept(kept)
        } else {
            Answer::Say(Reply::NumberUsed(kept.book))
        }
    }

    #[tactic(auto, unfolding(crate::specs::Effect::look))]
    fn look(&self, caller: Id, number: u32, order: OrderWords) -> Answer
        ensures { Shows (look self.now.tables caller number order) result }
    {
        match self.orders.get(&OrderKey { caller, number }) {
            Some(kept) => self.repeat(kept, &order),
            None => match self.to_place(&order) {
                Ok(book) => shared(&book.released),
                Err(said) => Answer::Say(said),
            },
        }
    }

    #[tactic(auto, unfolding(crate::specs::Effect::read_order))]
    fn read_order(&self, caller: Id, number: u32) -> Answer
        ensures { Shows (read_order self.now.tables caller number) result }
    {
        match self.orders.get(&OrderKey { caller, number }) {
            Some(kept) => self.show_kept(kept),
            None => Answer::Say(Reply::NoSuch(Missing::Order)),
        }
    }

    #[tactic(auto, unfolding(crate::specs::Effect::list_books))]
    fn list_books(&self) -> Answer
        ensures { Shows (list_books self.now.tables) result }
    {
        report(books_text(*self.books.allocator(), &self.books))
    }

    #[tactic(auto, unfolding(crate::specs::Effect::list_orders, crate::specs::Listing::orders_text))]
    fn list_orders(&self, caller: Id, number: u32) -> Answer
        ensures { Shows (list_orders self.now.tables caller number) result }
    {
        let orders = self.own_above(caller, number);
        report(list_text(*self.books.allocator(), orders))
    }

    // The caller's own orders above a number: those of its keys from the next one on. No other is looked at.
    fn own_above(&self, caller: Id, number: u32) -> Range<'_, OrderKey, OrderWords>
        ensures { result ≡ own_above caller number self.now.tables.orders }
    {
        let least = OrderKey { caller, number };
        let most = OrderKey {
            caller,
            number: u32::MAX,
        };
        self.orders
            .range((Bound::Excluded(least), Bound::Included(most)))
    }
}

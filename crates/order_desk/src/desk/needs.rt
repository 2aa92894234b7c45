//! What an event needs, or what is said in its place.
ghost use Rattle.std.specs.Prelude.{◌≡◌, Ok, Err, MatchResult};
ghost use Rattle.order_desk.specs.Effect.{to_take, owned, draft_of, book_in_force, book_of, to_place, to_release, next_draft};

use crate::draft::NewDraft;
use crate::lookup::{book_at, released_as};
use crate::{Desk, Draft, KeptBook, MOST_BOOKS, MOST_DRAFTS, MOST_ORDERS, MOST_REVISION};
use desk_words::{FullOf, Missing, OrderWords, Reply};
use keeper::Keeper;
use pb_base::{Body, Id};

impl<P: Keeper> Desk<P> {
    #[tactic(auto, unfolding(crate::specs::Effect::draft_of))]
    pub(super) fn draft_of(&self, name: Id) -> Result<&Draft, Reply>
        ensures { MatchResult result (λ draft. draft_of self.now.tables name ≡ Ok draft.now)
            (λ said. draft_of self.now.tables name ≡ Err said) }
    {
        match self.drafts.get(&name) {
            Some(draft) => Ok(draft),
            None => Err(Reply::NoSuch(Missing::Draft)),
        }
    }

    #[tactic(auto, unfolding(crate::specs::Effect::owned))]
    pub(super) fn owned(&self, caller: Id, name: Id) -> Result<&Draft, Reply>
        ensures { MatchResult result (λ draft. owned self.now.tables caller name ≡ Ok draft.now)
            (λ said. owned self.now.tables caller name ≡ Err said) }
    {
        match self.draft_of(name) {
            Ok(draft) => {
                if draft.owner == caller {
                    Ok(draft)
                } else {
                    Err(Reply::NotOwner(draft.owner))
                }
            }
            Err(said) => Err(said),
        }
    }

    #[tactic(auto, unfolding(crate::specs::Effect::next_draft))]
    pub(super) fn next_draft(&self, caller: Id, name: Id, text: Body) -> Result<NewDraft, Reply>
        ensures { result ≡ next_draft self.now.tables caller name text }
    {
        match self.drafts.get(&name) {
            None => {
                if self.drafts.len() < MOST_DRAFTS {
                    Ok(NewDraft {
                        owner: caller,
                        revision: 1,
                        text,
                    })
                } else {
                    Err(Reply::Full(FullOf::Drafts))
                }
            }
            Some(old) => {
                if old.owner != caller {
                    return Err(Reply::NotOwner(old.owner));
                }
                if old.revision < MOST_REVISION {
                    Ok(NewDraft {
                        owner: old.owner,
                        revision: old.revision + 1,
                        text,
                    })
                } else {
                    Err(Reply::Full(FullOf::Revisions))
                }
            }
        }
    }

    #[tactic(auto, unfolding(crate::specs::Effect::to_release))]
    pub(super) fn to_release(&self, caller: Id, name: Id, revision: u32) -> Result<&Draft, Reply>
        ensures { MatchResult result (λ draft. to_release self.now.tables caller name revision ≡ Ok draft.now)
            (λ said. to_release self.now.tables caller name revision ≡ Err said) }
    {
        match self.owned(caller, name) {
            Ok(draft) => {
                if draft.revision != revision {
                    return Err(Reply::Changed(draft.revision));
                }
                match released_as(&self.books, name, revision) {
                    Some(number) => Err(Reply::BookIs {
                        number,
                        fresh: false,
                    }),
                    None => {
                        if self.books.len() < MOST_BOOKS {
                            Ok(draft)
                        } else {
                            Err(Reply::Full(FullOf::Books))
                        }
                    }
                }
            }
            Err(said) => Err(said),
        }
    }

    pub(super) fn to_take(
        &self,
        caller: Id,
        name: Id,
        revision: Option<u32>,
    ) -> Result<&Draft, Reply>
        ensures { MatchResult result (λ draft. to_take revision self.now.tables caller name ≡ Ok draft.now)
            (λ said. to_take revision self.now.tables caller name ≡ Err said) }
    {
        match revision {
            None => self.owned(caller, name),
            Some(revision) => self.to_release(caller, name, revision),
        }
    }

    #[tactic(auto, unfolding(crate::specs::Effect::book_of))]
    pub(super) fn book_of(&self, number: u32) -> Result<&KeptBook, Reply>
        ensures { MatchResult result (λ book. book_of self.now.tables number ≡ Ok book.now)
            (λ said. book_of self.now.tables number ≡ Err said) }
    {
        match book_at(&self.books, number) {
            Some(book) => Ok(book),
            None => Err(Reply::NoSuch(Missing::Book)),
        }
    }

    #[tactic(auto, unfolding(crate::specs::Effect::book_in_force))]
    pub(super) fn book_in_force(&self, number: u32) -> Result<&KeptBook, Reply>
        ensures { MatchResult result (λ book. book_in_force self.now.tables number ≡ Ok book.now)
            (λ said. book_in_force self.now.tables number ≡ Err said) }
    {
        match self.book_of(number) {
            Ok(book) => {
                if book.withdrawn {
                    Err(Reply::Gone(number))
                } else {
                    Ok(book)
                }
            }
            Err(said) => Err(said),
        }
    }

    #[tactic(auto, unfolding(crate::specs::Effect::to_place))]
    pub(super) fn to_place(&self, order: &OrderWords) -> Result<&KeptBook, Reply>
        ensures { MatchResult result (λ book. to_place self.now.tables order.now ≡ Ok book.now)
            (λ said. to_place self.now.tables order.now ≡ Err said) }
    {
        match self.book_of(order.book) {
            Ok(book) => {
                if book.withdrawn {
                    return Err(Reply::Gone(order.book));
                }
                if self.orders.len() < MOST_ORDERS {
                    Ok(book)
                } else {
                    Err(Reply::Full(FullOf::Orders))
                }
            }
            Err(said) => Err(said),
        }
    }
}

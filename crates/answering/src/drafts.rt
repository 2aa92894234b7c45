//! Calls that read a draft, check it or release it. Its text is copied outside the turn.
ghost use Rattle.std.specs.Prelude.{◌≡◌, ◌<◌, ◌≤◌, IfOk, OnErr};
ghost use Rattle.desk_words.specs.declared.reply.Reply.TheVariants as Reply;
ghost use Rattle.order_desk.specs.declared.event.Event.TheVariants as Event;
ghost use Rattle.order_desk.specs.Fits.{IsReleaseOf};
ghost use Rattle.answering.specs.Answers.{IsChecked, IsTold, IsToldAs, checking, releasing, showing_draft, to_release, unchecked};
ghost use Rattle.answering.specs.Course.{or_memory, says};
ghost use Rattle.answering.specs.Told.{IsDraftThere};
ghost use Rattle.pb_base.specs.declared.limits.TheConstants.{MOST_BUDGET};

use crate::asked::{Taken, ask, ask_draft, ask_text};
use crate::gate::Gate;
use crate::turns::Turns;
use book_model::Book;
use desk_words::Reply;
use findings::{Report, report_text};
use order_desk::{Event, NewBook};
use pb_base::{Body, Fail, Id, Memory};
use release::Released;
use release_check::{NotChecked, NotReleased, ReportedBook, check_text, try_release};
use std::alloc::Global;

/// Reads the text of a draft.
pub(crate) fn read_draft<T: Turns>(alloc: Global, turns: &mut T, draft: Id) -> Reply
    ensures { showing_draft draft (T.hand turns.old) result (T.hand turns.new) }
{
    match ask_text(turns, draft) {
        Ok(taken) => match taken.text.copy(alloc) {
            Ok(text) => Reply::Raw(text),
            Err(Memory) => Reply::Memory,
        },
        Err(reply) => reply,
    }
}

/// Checks a draft: the report of all questions.
pub(crate) fn check_draft<T: Turns, G: Gate>(
    alloc: Global,
    turns: &mut T,
    gate: &G,
    caller: Id,
    draft: Id,
    budget: u32,
) -> Reply
    requires some { 0 < budget }
    requires most { budget ≤ MOST_BUDGET }
    ensures { checking caller draft budget (T.hand turns.old) result (T.hand turns.new) }
{
    match ask_draft(turns, caller, draft, None) {
        Ok(taken) => {
            gate.judging(&caller);
            judge_text(alloc, taken.text.as_slice(), budget)
        }
        Err(reply) => reply,
    }
}

// The report of all questions about a text, or why there is none.
#[tactic(auto, using(crate::proofs::CheckedLaws::why_told))]
fn judge_text(alloc: Global, text: &[u8], budget: u32) -> Reply
    requires some { 0 < budget }
    requires most { budget ≤ MOST_BUDGET }
    ensures { IsChecked text.now budget result }
{
    match check_text(alloc, text, budget) {
        Ok(ReportedBook { book, report }) => reported(alloc, &book, &report),
        Err(Fail::Refused(why)) => not_checked(why),
        Err(Fail::Memory) => Reply::Memory,
    }
}

fn reported(alloc: Global, book: &Book, report: &Report) -> Reply
    ensures { IsTold Reply.Report book.now report.now result }
{
    told(report_text(alloc, book, report).map(Reply::Report))
}

// Why a text isn't checked, as it is told.
fn not_checked(why: NotChecked) -> Reply
    ensures { result ≡ unchecked why }
{
    match why {
        NotChecked::Text(fault) => Reply::TextRefused(fault),
        NotChecked::Limit(fault) => Reply::Limit(fault),
    }
}

// A reply that gives a report, unless there is no memory for its text.
fn told(reply: Result<Reply, Memory>) -> Reply
    ensures told { IfOk reply (λ reply. result ≡ reply) }
    ensures memory { OnErr reply (result ≡ Reply.Memory) }
{
    match reply {
        Ok(reply) => reply,
        Err(Memory) => Reply::Memory,
    }
}

/// A draft at a revision, and whose it is.
#[derive(Clone, Copy)]
pub(crate) struct Asked {
    pub caller: Id,
    pub draft: Id,
    pub revision: u32,
}

/// Releases a draft at a revision: the number of its book, or why there is none.
pub(crate) fn release_draft<T: Turns, G: Gate>(
    alloc: Global,
    turns: &mut T,
    gate: &G,
    asked: &Asked,
    budget: u32,
) -> Reply
    requires some { 0 < budget }
    requires most { budget ≤ MOST_BUDGET }
    ensures { releasing asked.now.caller asked.now.draft asked.now.revision budget
        (T.hand turns.old) result (T.hand turns.new) }
{
    match ask_draft(turns, asked.caller, asked.draft, Some(asked.revision)) {
        Ok(taken) => {
            gate.judging(&asked.caller);
            release_taken(alloc, turns, asked, taken, budget)
        }
        Err(reply) => reply,
    }
}

fn release_taken<T: Turns>(
    alloc: Global,
    turns: &mut T,
    asked: &Asked,
    taken: Taken,
    budget: u32,
) -> Reply
    requires some { 0 < budget }
    requires most { budget ≤ MOST_BUDGET }
    requires there { IsDraftThere (T.hand turns.old).state.tables asked.now.draft taken.text
        asked.now.revision }
    ensures { to_release asked.now.caller asked.now.draft asked.now.revision budget taken.text
        (T.hand turns.old) result (T.hand turns.new) }
{
    match taken.text.copy(alloc) {
        Ok(text) => release_text(alloc, turns, asked, text, budget),
        Err(Memory) => Reply::Memory,
    }
}

fn release_text<T: Turns>(
    alloc: Global,
    turns: &mut T,
    asked: &Asked,
    text: Body,
    budget: u32,
) -> Reply
    requires some { 0 < budget }
    requires most { budget ≤ MOST_BUDGET }
    requires there { IsDraftThere (T.hand turns.old).state.tables asked.now.draft text asked.now.revision }
    ensures { to_release asked.now.caller asked.now.draft asked.now.revision budget text
        (T.hand turns.old) result (T.hand turns.new) }
{
    match try_release(alloc, text, budget) {
        Ok(released) => commit(alloc, turns, asked, released),
        Err(Fail::Refused(why)) => kept_back(alloc, why),
        Err(Fail::Memory) => Reply::Memory,
    }
}

fn commit<T: Turns>(alloc: Global, turns: &mut T, asked: &Asked, released: Released) -> Reply
    requires { let drafts = (T.hand turns.old).state.tables.drafts in
        IsReleaseOf drafts asked.now.draft asked.now.revision released }
    ensures { or_memory
        (says (Event.Commit asked.now.caller asked.now.draft asked.now.revision released))
        (T.hand turns.old) result (T.hand turns.new) }
{
    match NewBook::new(alloc, released) {
        Ok(released) => ask(
            turns,
            Event::Commit {
                caller: asked.caller,
                draft: asked.draft,
                revision: asked.revision,
                released,
            },
        ),
        Err(Memory) => Reply::Memory,
    }
}

// Why a text isn't released, as it is told.
fn kept_back(alloc: Global, why: NotReleased) -> Reply
    ensures { IsToldAs why result }
{
    match why {
        NotReleased::Text(fault) => Reply::TextRefused(fault),
        NotReleased::Limit(fault) => Reply::Limit(fault),
        NotReleased::Found { book, report } => {
            told(report_text(alloc, &book, &report).map(Reply::Found))
        }
        NotReleased::Undecided { book, report } => {
            told(report_text(alloc, &book, &report).map(Reply::Undecided))
        }
    }
}

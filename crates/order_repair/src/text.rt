//! The text of an answer.
ghost use Rattle.std.specs.Prelude.{◌≡◌, ◌++◌, IfOk, OnOk};
ghost use Rattle.std.specs.List.{flat_map};
ghost use Rattle.order_repair.specs.RepairText.{added_line, kept_text, repair_text, standing_text, why_text};

use crate::answer::{Kept, Repair, WhyAnswer};
use crate::lines::{put_added, put_change, put_clash, put_leave};
use book_model::Book;
use order_text::{outcome_text, put_refused};
use parts_usage::Outcome;
use pb_base::{Body, Memory, Text};
use std::alloc::Global;
use supplement::Added;

/// `adds CODE by ENTRY` for each code that is added, what the order comes to, then what clashes, what to leave and what to add, and
/// `end`.
pub fn why_text(alloc: Global, book: &Book, answer: &WhyAnswer) -> Result<Body, Memory>
    ensures { IfOk result (λ text. text ≡ why_text book.now answer.now) }
{
    let mut text = Text::new(alloc);
    put_all_added(&mut text, book, answer.added.as_slice())?;
    put_standing(alloc, &mut text, book, &answer.outcome)?;
    put_repair(alloc, &mut text, book, &answer.repair)?;
    text.put(b"end\n")?;
    Ok(text.into_body())
}

fn put_all_added(text: &mut Text, book: &Book, added: &[Added]) -> Result<(), Memory>
    ensures { OnOk result (text.new ≡ text.old ++ flat_map (added_line book.now) added.now) }
{
    for one in added {
        put_added(text, book, *one)?;
    }
    Ok(())
}

// What the order comes to as it stands.
fn put_standing(
    alloc: Global,
    text: &mut Text,
    book: &Book,
    outcome: &Outcome,
) -> Result<(), Memory>
    ensures { OnOk result (text.new ≡ text.old ++ standing_text book.now outcome.now) }
{
    match outcome {
        Outcome::Accepted { .. } => text.put(b"accepted\n"),
        Outcome::Refused(rule) => put_refused(text, book, *rule),
        Outcome::Unfit { .. } => {
            let told = outcome_text(alloc, book, outcome)?;
            text.put(told.as_slice())
        }
    }
}

fn put_repair(alloc: Global, text: &mut Text, book: &Book, repair: &Repair) -> Result<(), Memory>
    ensures { OnOk result (text.new ≡ text.old ++ repair_text book.now repair.now) }
{
    match repair {
        Repair::NotNeeded => Ok(()),
        Repair::Undecided(_) => text.put(b"undecided\n"),
        Repair::NoOrder(clash) => {
            put_clash(alloc, text, book, clash)?;
            text.put(b"no order\n")
        }
        Repair::Keep(kept) => put_kept(alloc, text, book, kept),
    }
}

fn put_kept(alloc: Global, text: &mut Text, book: &Book, kept: &Kept) -> Result<(), Memory>
    ensures { OnOk result (text.new ≡ text.old ++ kept_text book.now kept.now) }
{
    match &kept.clash {
        Some(clash) => put_clash(alloc, text, book, clash)?,
        None => {}
    }
    put_leave(alloc, text, book, &kept.left)?;
    put_change(text, book, &kept.change)
}

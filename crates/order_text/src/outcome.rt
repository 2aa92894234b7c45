//! The text of what an order comes to.
ghost use Rattle.std.specs.Prelude.{◌≡◌, ◌++◌, IfOk, OnOk};
ghost use Rattle.order_text.specs.OutcomeText.{accepted_text, refused_text, unfit_text, outcome_text};

use crate::parts::put_parts;
use book_model::{Book, construct_id, position_id};
use parts_usage::{Outcome, PartsList};
use pb_base::{Body, CodeSet, Memory, Text, put_names, put_number};
use std::alloc::Global;

/// `accepted` with the codes and the parts list, `refused RULE`, or `unfit POSITION COUNT`.
pub fn outcome_text(alloc: Global, book: &Book, outcome: &Outcome) -> Result<Body, Memory>
    ensures { IfOk result (λ text. text ≡ outcome_text book.now outcome.now) }
{
    let mut text = Text::new(alloc);
    match outcome {
        Outcome::Accepted { set, list } => put_accepted(&mut text, book, set, list)?,
        Outcome::Refused(rule) => put_refused(&mut text, book, *rule)?,
        Outcome::Unfit { position, count } => put_unfit(&mut text, book, *position, *count)?,
    }
    Ok(text.into_body())
}

/// Puts `accepted` behind a text, with the line of the codes in the set and a line for each part.
pub fn put_accepted(
    text: &mut Text,
    book: &Book,
    set: &CodeSet,
    list: &PartsList,
) -> Result<(), Memory>
    ensures { OnOk result (text.new ≡ text.old ++ accepted_text book.now set.now list.now) }
{
    text.put(b"accepted\ncodes")?;
    put_names(text, book.codes(), set)?;
    text.put(b"\n")?;
    put_parts(text, book, list.as_slice())?;
    Ok(())
}

/// Puts the line `refused RULE` behind a text, by the place of a constructibility rule, counted from 0.
pub fn put_refused(text: &mut Text, book: &Book, rule: u32) -> Result<(), Memory>
    ensures { OnOk result (text.new ≡ text.old ++ refused_text book.now rule) }
{
    text.put(b"refused ")?;
    text.put(construct_id(book, rule))?;
    text.put(b"\n")
}

fn put_unfit(text: &mut Text, book: &Book, position: u32, count: u32) -> Result<(), Memory>
    ensures { OnOk result (text.new ≡ text.old ++ unfit_text book.now position count) }
{
    text.put(b"unfit ")?;
    text.put(position_id(book, position))?;
    put_number(text, u64::from(count))?;
    text.put(b"\n")
}

//! The lines that tell what a book would change for kept orders, with how many come to each kind of answer.
ghost use Rattle.std.specs.Prelude.{◌≡◌, ◌++◌, IfOk, OnOk, count_by, length};
ghost use Rattle.order_again.specs.ImpactText.{counts_text, impact_text, is_of};

use crate::kept::Stock;
use crate::outcome::Again;
use crate::text::put_lines;
use book_model::Book;
use pb_base::{Body, Memory, Text, put_number};
use std::alloc::Global;

/// The kinds of answers that are counted.
#[derive(Clone, Copy, Debug, PartialEq, Eq)]
pub enum Kind {
    Same,
    Other,
    Refused,
    Fault,
}

/// The lines of `stock_text`, but the last has more: how many orders come to the same parts, to others, are refused, and have a
/// fault.
pub fn impact_text(
    alloc: Global,
    to: &Book,
    stock: &[Stock],
    told: &[Again],
) -> Result<Body, Memory>
    requires { length told.now ≡ length stock.now }
    ensures { IfOk result (λ text. text ≡ impact_text to.now stock.now told.now) }
{
    let mut text = Text::new(alloc);
    put_lines(&mut text, to, stock, told)?;
    text.put(b"end")?;
    put_number(&mut text, stock.len() as u64)?;
    put_counts(&mut text, told)?;
    text.put(b"\n")?;
    Ok(text.into_body())
}

fn put_counts(text: &mut Text, told: &[Again]) -> Result<(), Memory>
    ensures { OnOk result (text.new ≡ text.old ++ counts_text told.now) }
{
    text.put(b" same")?;
    put_number(text, count_of(told, Kind::Same))?;
    text.put(b" other")?;
    put_number(text, count_of(told, Kind::Other))?;
    text.put(b" refused")?;
    put_number(text, count_of(told, Kind::Refused))?;
    text.put(b" fault")?;
    put_number(text, count_of(told, Kind::Fault))
}

// How many answers are of a kind.
fn count_of(told: &[Again], kind: Kind) -> u64
    ensures { result ≡ count_by (is_of kind) told.now }
{
    let mut count = 0;
    for again in told {
        if is_of(kind, *again) {
            count += 1;
        }
    }
    count
}

fn is_of(kind: Kind, again: Again) -> bool
    ensures { result ≡ is_of kind again }
{
    match again {
        Again::Same => matches!(kind, Kind::Same),
        Again::Other => matches!(kind, Kind::Other),
        Again::Refused(_) => matches!(kind, Kind::Refused),
        Again::Fault(_) => matches!(kind, Kind::Fault),
    }
}

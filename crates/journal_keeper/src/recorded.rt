//! Rows that are written as records.
ghost use Rattle.std.specs.Prelude.{◌≡◌, ◌+◌, ◌<◌, ◌^◌, [], ◌∷◌, ◌++◌, length, min, IfOk, OnOk};
ghost use Rattle.journal_keeper.specs.Record.{Entry, Draft, Book, Order, Withdrawn, Fits, text_of, number_of, kind_of, payload_of, record_of};

use keeper::{BookRow, DraftRow, OrderRow};
use pb_base::{Body, Memory};
use std::alloc::Global;

/// A row that one record sets.
pub(crate) trait Recorded {
    ghost entry: { Self → Entry };

    /// The kind of the record.
    fn kind(&self) -> u8
        ensures { result ≡ kind_of (entry self.now) };

    /// How many bytes its payload has. 2^64 - 1 stands for more, too.
    fn payload_len(&self) -> u64
        ensures len { result ≡ min (length (payload_of (entry self.now))) 18446744073709551615 }
        ensures fits { Fits (entry self.now) };

    /// Writes the payload behind what is there.
    fn write_payload(&self, out: &mut Vec<u8>) -> Result<(), Memory>
        requires { length (payload_of (entry self.now)) < 2 ^ 32 }
        ensures { OnOk result (out.new.items ≡ out.old.items ++ payload_of (entry self.now)) };
}

fn len(text: &Body) -> u64
    ensures { result ≡ length text.now }
{
    text.as_slice().len() as u64
}

fn write_text(text: &Body, out: &mut Vec<u8>) -> Result<(), Memory>
    requires { length text.now < 2 ^ 32 }
    ensures { OnOk result (out.new.items ≡ out.old.items ++ text_of text.now) }
{
    let text = text.as_slice();
    out.extend_from_slice(&(text.len() as u32).to_be_bytes())?;
    out.extend_from_slice(text)?;
    Ok(())
}

fn write_number(number: u64, out: &mut Vec<u8>) -> Result<(), Memory>
    ensures { OnOk result (out.new.items ≡ out.old.items ++ number_of number) }
{
    out.extend_from_slice(&number.to_be_bytes())?;
    Ok(())
}

// What a book has in front of its texts.
fn write_made(row: &BookRow, out: &mut Vec<u8>) -> Result<(), Memory>
    requires { length row.now.draft < 2 ^ 32 }
    ensures { OnOk result (out.new.items ≡ out.old.items
        ++ (number_of row.now.number ++ text_of row.now.draft ++ number_of row.now.revision)) }
{
    write_number(row.number, out)?;
    write_text(&row.draft, out)?;
    write_number(row.revision, out)?;
    Ok(())
}

impl Recorded for DraftRow {
    ghost entry = { Draft };

    fn kind(&self) -> u8 {
        1
    }

    #[tactic(auto, using(crate::proofs::Written::length_draft))]
    fn payload_len(&self) -> u64 {
        let _revision = self.revision;
        let texts = len(&self.name).saturating_add(len(&self.owner));
        texts.saturating_add(len(&self.text)).saturating_add(20)
    }

    #[tactic(auto, using(crate::proofs::Written::length_draft))]
    fn write_payload(&self, out: &mut Vec<u8>) -> Result<(), Memory> {
        write_text(&self.name, out)?;
        write_text(&self.owner, out)?;
        write_number(self.revision, out)?;
        write_text(&self.text, out)?;
        Ok(())
    }
}

impl Recorded for BookRow {
    ghost entry = { Book };

    fn kind(&self) -> u8 {
        2
    }

    #[tactic(auto, using(crate::proofs::Written::length_book))]
    fn payload_len(&self) -> u64 {
        let _number = self.number;
        let _revision = self.revision;
        let texts = len(&self.draft).saturating_add(len(&self.text));
        texts.saturating_add(len(&self.cert)).saturating_add(28)
    }

    #[tactic(auto, using(crate::proofs::Written::length_book))]
    fn write_payload(&self, out: &mut Vec<u8>) -> Result<(), Memory> {
        write_made(self, out)?;
        write_text(&self.text, out)?;
        write_text(&self.cert, out)?;
        Ok(())
    }
}

impl Recorded for OrderRow {
    ghost entry = { Order };

    fn kind(&self) -> u8 {
        3
    }

    #[tactic(auto, using(crate::proofs::Written::length_order))]
    fn payload_len(&self) -> u64 {
        let _number = self.number;
        let _book = self.book;
        let _day = self.day;
        let texts = len(&self.caller).saturating_add(len(&self.codes));
        texts.saturating_add(32)
    }

    #[tactic(auto, using(crate::proofs::Written::length_order))]
    fn write_payload(&self, out: &mut Vec<u8>) -> Result<(), Memory> {
        write_text(&self.caller, out)?;
        write_number(self.number, out)?;
        write_number(self.book, out)?;
        write_number(self.day, out)?;
        write_text(&self.codes, out)?;
        Ok(())
    }
}

// The number of a withdrawn book.
impl Recorded for u64 {
    ghost entry = { Withdrawn };

    fn kind(&self) -> u8 {
        4
    }

    fn payload_len(&self) -> u64 {
        let _number = *self;
        8
    }

    fn write_payload(&self, out: &mut Vec<u8>) -> Result<(), Memory> {
        write_number(*self, out)
    }
}

/// The record of a row, and a closed gate behind it. `len` is the length of its payload.
pub(crate) fn line_of<R: Recorded>(alloc: Global, row: &R, len: u32) -> Result<Vec<u8>, Memory>
    requires { length (payload_of (R.entry row.now)) ≡ len }
    ensures { IfOk result (λ line. line.items ≡ record_of (R.entry row.now) ++ 0 ∷ []) }
{
    let mut line = Vec::with_capacity(alloc, len as usize + 6)?;
    line.push(row.kind())?;
    line.extend_from_slice(&len.to_be_bytes())?;
    row.write_payload(&mut line)?;
    line.push(0)?;
    Ok(line)
}

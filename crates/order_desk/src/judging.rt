//! Rows of orders, judged by the books whose numbers they have.
ghost use Rattle.std.specs.Prelude.{◌≡◌, IfOk, map, true, false};
ghost use Rattle.std.specs.List.{AllZip, list_all};
ghost use Rattle.pb_base.specs.Answers.{IfRefused};
ghost use Rattle.pb_base.specs.Names.{is_code_name};
ghost use Rattle.order_desk.specs.Judged.{IsJudged};
ghost use Rattle.order_desk.specs.RightRows.{codes_in};

use crate::KeptBook;
use keeper::OrderRow;
use pb_base::limits::LAST_DAY;
use pb_base::{CodeList, CodeName, Fail, Memory};
use release::accepts;
use shared_work::Work;
use std::alloc::Global;

/// What judges rows of orders: the books, in the sequence of their numbers.
#[derive(Drop)]
pub(crate) struct RowJudge<'a> {
    pub(crate) books: &'a [KeptBook],
}

impl<'a> Work for RowJudge<'a> {
    type Item = OrderRow;

    type Made = bool;

    ghost IsReady = { λ w. Unit {0} };

    ghost IsGiven = { λ w row. Unit {0} };

    ghost IsMade = { λ w. IsJudged (map (λ b. b.released) w.books.now) };

    fn make(&self, alloc: Global, rows: &[OrderRow]) -> Result<Vec<bool>, Memory> {
        judge_rows(alloc, self.books, rows)
    }
}

/// Judges one row after the other.
pub(crate) fn judge_rows(
    alloc: Global,
    books: &[KeptBook],
    rows: &[OrderRow],
) -> Result<Vec<bool>, Memory>
    ensures { IfOk result (λ told. AllZip (IsJudged (map (λ b. b.released) books.now)) rows.now told.items) }
{
    let mut told = Vec::with_capacity(alloc, rows.len())?;
    for row in rows {
        let accepted = judge_row(alloc, books, row)?;
        told.push(accepted)?;
    }
    Ok(told)
}

// Whether the book of the row's order is there and accepts it. Of a row whose day or codes are wrong, false.
fn judge_row(alloc: Global, books: &[KeptBook], row: &OrderRow) -> Result<bool, Memory>
    ensures { IfOk result (IsJudged (map (λ b. b.released) books.now) row.now) }
{
    if row.day > u64::from(LAST_DAY) {
        return Ok(false);
    }
    if row.book < 1 {
        return Ok(false);
    }
    if row.book > books.len() as u64 {
        return Ok(false);
    }
    match codes_of(alloc, row.codes.as_slice()) {
        Ok(codes) => {
            let place = row.book as usize - 1;
            let book = &books[place];
            let released = book.released.released();
            accepts(alloc, released, row.day as u32, codes.as_slice())
        }
        Err(Fail::Refused(())) => Ok(false),
        Err(Fail::Memory) => Err(Memory),
    }
}

/// The codes of a row, or a refusal where one is no code's name.
pub(crate) fn codes_of(alloc: Global, text: &[u8]) -> Result<CodeList, Fail<()>>
    ensures codes { IfOk result (λ codes. codes ≡ codes_in text.now) }
    ensures named { IfOk result (λ codes. list_all is_code_name (codes_in text.now) ≡ true) }
    ensures wrong { IfRefused result (λ none. list_all is_code_name (codes_in text.now) ≡ false) }
{
    if text.is_empty() {
        return Ok(CodeList::new(alloc));
    }
    let spaces = text.iter().filter(|b| **b == b' ').count();
    let mut codes = Vec::with_capacity(alloc, spaces + 1)?;
    for name in text.split(|b| *b == b' ') {
        match CodeName::of(name) {
            Some(code) => codes.push(code)?,
            None => return Err(Fail::Refused(())),
        }
    }
    Ok(CodeList::of(codes))
}

//! Orders from their rows.
ghost use Rattle.std.specs.Prelude.{◌≡◌, ◌≤◌, [], IfOk, None, Some, map, length, true, false};
ghost use Rattle.std.specs.List.{AllByRecursion, AllZip};
ghost use Rattle.pb_base.specs.Answers.{IfRefused};
ghost use Rattle.release.specs.Release.{IsRelease};
ghost use Rattle.order_desk.specs.Fits.{AreCodes};
ghost use Rattle.order_desk.specs.Judged.{IsJudged};
ghost use Rattle.order_desk.specs.RightRows.{first_wrong, is_order_row};
ghost use Rattle.order_desk.specs.Rows.{book_rows, order_row};
ghost use Rattle.order_desk.specs.declared.limits.TheConstants.{MOST_BOOKS as most_books};

use crate::judging::codes_of;
use crate::rising::comes_last;
use crate::{Hands, KeptBook, MOST_ORDER_NUMBER, MOST_ORDERS, OrderKey};
use desk_words::OrderWords;
use keeper::OrderRow;
use pb_base::limits::LAST_DAY;
use pb_base::{Fail, Id, Memory};
use std::alloc::Global;
use std::collections::{BTreeMap, VecDeque};

// An order and its key.
#[derive(Drop)]
struct KeyedOrder {
    key: OrderKey,
    order: OrderWords,
}

/// The orders of the rows, or the number, from 1, of the first row that isn't right. The hands judge each order again by its
/// book, and then the rows are gone through in their sequence.
pub(crate) fn orders_of<H: Hands>(
    alloc: Global,
    hands: &H,
    books: &[KeptBook],
    rows: Vec<OrderRow>,
) -> Result<BTreeMap<OrderKey, OrderWords>, Fail<u32>>
    requires ready { H.AreReady hands.now }
    requires few { length books.now ≤ most_books }
    requires released { AllByRecursion (λ b. IsRelease b.released) books.now }
    ensures right { IfOk result (λ orders.
        first_wrong (is_order_row (book_rows 1 books.now)) [] rows.items ≡ None) }
    ensures rows { IfOk result (λ orders. map order_row orders.entries ≡ rows.items) }
    ensures named { IfOk result (λ orders. AllByRecursion (λ e. AreCodes e.1.codes) orders.entries) }
    ensures wrong { IfRefused result (λ place.
        first_wrong (is_order_row (book_rows 1 books.now)) [] rows.items ≡ Some place) }
{
    match hands.judge(alloc, books, &rows) {
        Ok(told) => judged_orders(alloc, books, rows, &told),
        Err(Memory) => Err(Fail::Memory),
    }
}

// The same, with what was told of each row.
fn judged_orders(
    alloc: Global,
    books: &[KeptBook],
    rows: Vec<OrderRow>,
    told: &[bool],
) -> Result<BTreeMap<OrderKey, OrderWords>, Fail<u32>>
    requires few { length books.now ≤ most_books }
    requires released { AllByRecursion (λ b. IsRelease b.released) books.now }
    requires told { AllZip (IsJudged (map (λ b. b.released) books.now)) rows.items told.now }
    ensures right { IfOk result (λ orders.
        first_wrong (is_order_row (book_rows 1 books.now)) [] rows.items ≡ None) }
    ensures rows { IfOk result (λ orders. map order_row orders.entries ≡ rows.items) }
    ensures named { IfOk result (λ orders. AllByRecursion (λ e. AreCodes e.1.codes) orders.entries) }
    ensures wrong { IfRefused result (λ place.
        first_wrong (is_order_row (book_rows 1 books.now)) [] rows.items ≡ Some place) }
{
    let mut orders = BTreeMap::new(alloc);
    let mut rest = VecDeque::from_vec(rows);
    while let Some(row) = rest.pop_front() {
        let place = orders.len();
        let accepted = told[place];
        match order_from(alloc, books, &orders, &row, accepted) {
            Ok(read) => {
                orders.insert(read.key, read.order)?;
            }
            Err(Fail::Refused(())) => return Err(Fail::Refused(orders.len() as u32 + 1)),
            Err(Fail::Memory) => return Err(Fail::Memory),
        }
    }
    Ok(orders)
}

// The order of the row behind these orders, or a refusal where the row isn't right.
fn order_from(
    alloc: Global,
    books: &[KeptBook],
    orders: &BTreeMap<OrderKey, OrderWords>,
    row: &OrderRow,
    accepted: bool,
) -> Result<KeyedOrder, Fail<()>>
    requires few { length books.now ≤ most_books }
    requires released { AllByRecursion (λ b. IsRelease b.released) books.now }
    requires judged { IsJudged (map (λ b. b.released) books.now) row.now accepted }
    ensures right { IfOk result (λ read.
        is_order_row (book_rows 1 books.now) (map order_row orders.now.entries) row.now ≡ true) }
    ensures row { IfOk result (λ read. order_row (read.key, read.order) ≡ row.now) }
    ensures named { IfOk result (λ read. AreCodes read.order.codes) }
    ensures wrong { IfRefused result (λ none.
        is_order_row (book_rows 1 books.now) (map order_row orders.now.entries) row.now ≡ false) }
{
    if row.number < 1 || row.number > u64::from(MOST_ORDER_NUMBER) || orders.len() >= MOST_ORDERS {
        return Err(Fail::Refused(()));
    }
    if row.day > u64::from(LAST_DAY) || row.book > books.len() as u64 {
        return Err(Fail::Refused(()));
    }
    match Id::of(row.caller.as_slice()) {
        None => Err(Fail::Refused(())),
        Some(caller) => {
            let key = OrderKey {
                caller,
                number: row.number as u32,
            };
            if !comes_last(orders, &key) {
                return Err(Fail::Refused(()));
            }
            let order = OrderWords {
                book: row.book as u32,
                day: row.day as u32,
                codes: codes_of(alloc, row.codes.as_slice())?,
            };
            if !accepted {
                return Err(Fail::Refused(()));
            }
            Ok(KeyedOrder { key, order })
        }
    }
}

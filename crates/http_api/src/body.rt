//! What a body says.
ghost use Rattle.std.specs.Prelude.{◌≡◌, option_and_then};
ghost use Rattle.pb_base.specs.Answers.{Answers, Gives};
ghost use Rattle.serde_json.specs.Find.{get, as_array};
ghost use Rattle.serde_json.specs.View.{view, items_view};
ghost use Rattle.http_api.specs.Body.{budget_in, check_in, code_in, codes_in, name_in, number_at, number_within, object_of, order_in, order_to, release_in, what_of};
ghost use Rattle.http_api.specs.Call.{or_denied};
ghost use Rattle.http_api.specs.declared.denied.Denied.TheVariants.{BadBody};

use crate::denied::Denied;
use crate::request::Request;
use desk_words::{OrderWords, What};
use pb_base::limits::{DEFAULT_BUDGET, MOST_BUDGET};
use pb_base::{Body, CodeList, CodeName, Fail, Id, Memory};
use serde_json::Value;
use std::alloc::Global;

// The learnt clauses that a search about an order may take where the body names no number.
const ORDER_BUDGET: u32 = 1_000;

/// The call that a body completes.
pub fn what_of(alloc: Global, request: Request, body: &Body) -> Result<What, Fail<Denied>>
    ensures { Answers result (or_denied BadBody (what_of request body.now)) }
{
    match request {
        Request::Whole(what) => Ok(what),
        Request::PutDraft(draft) => put_draft(alloc, draft, body),
        Request::GiveDraft(draft) => give_draft(alloc, draft, body.as_slice()),
        Request::Check(draft) => check(alloc, draft, body.as_slice()),
        Request::Release(draft) => release(alloc, draft, body.as_slice()),
        Request::Free(book) => free(alloc, book, body.as_slice()),
        Request::Why(book) => why(alloc, book, body.as_slice()),
        Request::PlaceOrder(number) => place_order(alloc, number, body.as_slice()),
    }
}

fn put_draft(alloc: Global, draft: Id, body: &Body) -> Result<What, Fail<Denied>>
    ensures { Answers result (or_denied BadBody (what_of (Request.PutDraft draft) body.now)) }
{
    let text = body.copy(alloc)?;
    Ok(What::PutDraft { draft, text })
}

// The JSON object that a body is.
fn object_of(alloc: Global, body: &[u8]) -> Result<Value, Fail<Denied>>
    ensures { Gives result view (or_denied BadBody (object_of body.now)) }
{
    match Value::from_slice(alloc, body) {
        Ok(value) => {
            if value.is_object() {
                Ok(value)
            } else {
                Err(Fail::Refused(Denied::BadBody))
            }
        }
        Err(error) => {
            if error.is_memory() {
                Err(Fail::Memory)
            } else {
                Err(Fail::Refused(Denied::BadBody))
            }
        }
    }
}

// A whole number in this range, written in digits alone.
fn number_within(value: &Value, least: u32, most: u32) -> Option<u32>
    ensures { result ≡ number_within least most (view value.now) }
{
    let number = value.as_u64()?;
    if u64::from(least) <= number && number <= u64::from(most) {
        Some(number as u32)
    } else {
        None
    }
}

fn number_at(value: &Value, key: &str, least: u32, most: u32) -> Option<u32>
    ensures { result ≡ number_at key.now least most (view value.now) }
{
    let member = value.get(key)?;
    number_within(member, least, most)
}

// The budget that an object names, or the usual one.
fn budget_in(value: &Value, usual: u32) -> Option<u32>
    ensures { result ≡ budget_in usual (view value.now) }
{
    match value.get("budget") {
        Some(member) => number_within(member, 1, MOST_BUDGET),
        None => Some(usual),
    }
}

fn give_draft(alloc: Global, draft: Id, body: &[u8]) -> Result<What, Fail<Denied>>
    ensures { Answers result (or_denied BadBody (what_of (Request.GiveDraft draft) body.now)) }
{
    let value = object_of(alloc, body)?;
    match name_at(&value, "to") {
        Some(to) => Ok(What::GiveDraft { draft, to }),
        None => Err(Fail::Refused(Denied::BadBody)),
    }
}

fn name_at(value: &Value, key: &str) -> Option<Id>
    ensures { result ≡ option_and_then name_in (get key.now (view value.now)) }
{
    let member = value.get(key)?;
    name_in(member)
}

fn name_in(value: &Value) -> Option<Id>
    ensures { result ≡ name_in (view value.now) }
{
    let text = value.as_str()?;
    Id::of(text.as_bytes())
}

fn code_in(value: &Value) -> Option<CodeName>
    ensures { result ≡ code_in (view value.now) }
{
    let text = value.as_str()?;
    CodeName::of(text.as_bytes())
}

fn check(alloc: Global, draft: Id, body: &[u8]) -> Result<What, Fail<Denied>>
    ensures { Answers result (or_denied BadBody (check_in draft body.now)) }
{
    if body.is_empty() {
        return Ok(What::Check {
            draft,
            budget: DEFAULT_BUDGET,
        });
    }
    let value = object_of(alloc, body)?;
    match budget_in(&value, DEFAULT_BUDGET) {
        Some(budget) => Ok(What::Check { draft, budget }),
        None => Err(Fail::Refused(Denied::BadBody)),
    }
}

fn release(alloc: Global, draft: Id, body: &[u8]) -> Result<What, Fail<Denied>>
    ensures { Answers result (or_denied BadBody (what_of (Request.Release draft) body.now)) }
{
    let value = object_of(alloc, body)?;
    match release_in(draft, &value) {
        Some(what) => Ok(what),
        None => Err(Fail::Refused(Denied::BadBody)),
    }
}

fn release_in(draft: Id, value: &Value) -> Option<What>
    ensures { result ≡ release_in draft (view value.now) }
{
    let revision = number_at(value, "revision", 1, u32::MAX)?;
    let budget = budget_in(value, DEFAULT_BUDGET)?;
    Some(What::Release {
        draft,
        revision,
        budget,
    })
}

fn place_order(alloc: Global, number: u32, body: &[u8]) -> Result<What, Fail<Denied>>
    ensures { Answers result (or_denied BadBody (what_of (Request.PlaceOrder number) body.now)) }
{
    let value = object_of(alloc, body)?;
    let order = order_in(alloc, &value)?;
    Ok(What::Order { number, order })
}

fn order_in(alloc: Global, value: &Value) -> Result<OrderWords, Fail<Denied>>
    ensures { Answers result (or_denied BadBody (order_in (view value.now))) }
{
    let Some(book) = number_at(value, "book", 1, u32::MAX) else {
        return Err(Fail::Refused(Denied::BadBody));
    };
    order_to(alloc, value, book)
}

// The order to this book that an object says.
fn order_to(alloc: Global, value: &Value, book: u32) -> Result<OrderWords, Fail<Denied>>
    ensures { Answers result (or_denied BadBody (order_to (view value.now) book)) }
{
    let Some(day) = number_at(value, "day", 0, 99_999) else {
        return Err(Fail::Refused(Denied::BadBody));
    };
    let codes = codes_at(alloc, value, "codes")?;
    Ok(OrderWords { book, day, codes })
}

fn free(alloc: Global, book: u32, body: &[u8]) -> Result<What, Fail<Denied>>
    ensures { Answers result (or_denied BadBody (what_of (Request.Free book) body.now)) }
{
    let value = object_of(alloc, body)?;
    let order = order_to(alloc, &value, book)?;
    match budget_in(&value, ORDER_BUDGET) {
        Some(budget) => Ok(What::Free { order, budget }),
        None => Err(Fail::Refused(Denied::BadBody)),
    }
}

fn why(alloc: Global, book: u32, body: &[u8]) -> Result<What, Fail<Denied>>
    ensures { Answers result (or_denied BadBody (what_of (Request.Why book) body.now)) }
{
    let value = object_of(alloc, body)?;
    let order = order_to(alloc, &value, book)?;
    match budget_in(&value, ORDER_BUDGET) {
        Some(budget) => Ok(What::Why { order, budget }),
        None => Err(Fail::Refused(Denied::BadBody)),
    }
}

fn codes_at(alloc: Global, value: &Value, key: &str) -> Result<CodeList, Fail<Denied>>
    ensures { Answers result (or_denied BadBody
        (option_and_then codes_in (option_and_then as_array (get key.now (view value.now))))) }
{
    match value.get(key) {
        Some(member) => codes_in(alloc, member),
        None => Err(Fail::Refused(Denied::BadBody)),
    }
}

fn codes_in(alloc: Global, value: &Value) -> Result<CodeList, Fail<Denied>>
    ensures { Answers result (or_denied BadBody (option_and_then codes_in (as_array (view value.now)))) }
{
    match value.as_array() {
        Some(items) => list_of(alloc, items),
        None => Err(Fail::Refused(Denied::BadBody)),
    }
}

fn list_of(alloc: Global, items: &[Value]) -> Result<CodeList, Fail<Denied>>
    ensures { Answers result (or_denied BadBody (codes_in (items_view items.now))) }
{
    let mut list = CodeList::new(alloc);
    for item in items {
        match code_in(item) {
            Some(code) => list.push(code)?,
            None => return Err(Fail::Refused(Denied::BadBody)),
        }
    }
    Ok(list)
}

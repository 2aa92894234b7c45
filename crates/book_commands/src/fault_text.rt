//! The lines that tell of a fault, each as a text of its own.
ghost use Rattle.std.specs.Prelude.{◌≡◌, IfOk};
ghost use Rattle.desk_words.specs.FaultText.{book_fault_text, order_fault_text, limit_fault_text};

use book_model::LimitFault;
use book_text::BookFault;
use desk_words::{put_book_fault, put_limit_fault, put_order_fault};
use parts_usage::OrderFault;
use pb_base::{Body, Memory, Text};
use std::alloc::Global;

/// `book fault ROW KIND`, and behind it what the kind has to add.
pub fn book_fault_text(alloc: Global, fault: &BookFault) -> Result<Body, Memory>
    ensures { IfOk result (λ text. text ≡ book_fault_text fault.now) }
{
    let mut text = Text::new(alloc);
    put_book_fault(&mut text, fault)?;
    Ok(text.into_body())
}

/// `order fault KIND`, and behind it the place of the code at fault, counted from 1.
pub fn order_fault_text(alloc: Global, fault: &OrderFault) -> Result<Body, Memory>
    ensures { IfOk result (λ text. text ≡ order_fault_text fault.now) }
{
    let mut text = Text::new(alloc);
    put_order_fault(&mut text, fault)?;
    Ok(text.into_body())
}

/// `limit slices COUNT` or `limit questions SLICE COUNT`.
pub fn limit_fault_text(alloc: Global, fault: &LimitFault) -> Result<Body, Memory>
    ensures { IfOk result (λ text. text ≡ limit_fault_text fault.now) }
{
    let mut text = Text::new(alloc);
    put_limit_fault(&mut text, fault)?;
    Ok(text.into_body())
}

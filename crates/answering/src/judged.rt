//! The text of what an order against a released book comes to.
ghost use Rattle.std.specs.Prelude.{◌≡◌, IfOk};
ghost use Rattle.order_text.specs.OutcomeText.{outcome_text};
ghost use Rattle.release.specs.Judged.{as_outcome};

use book_model::Book;
use order_text::{put_accepted, put_refused};
use pb_base::{Body, Memory, Text};
use release::Judged;
use std::alloc::Global;

// The text of what an order came to, the same as that of an order against any book: `accepted` with the codes and the parts
// list, or `refused RULE`.
pub(crate) fn judged_text(alloc: Global, book: &Book, judged: &Judged) -> Result<Body, Memory>
    ensures { IfOk result (λ text. text ≡ outcome_text book.now (as_outcome judged.now)) }
{
    let mut text = Text::new(alloc);
    match judged {
        Judged::Accepted { set, list } => put_accepted(&mut text, book, set, list)?,
        Judged::Refused(rule) => put_refused(&mut text, book, *rule)?,
    }
    Ok(text.into_body())
}

//! Releasing a book.
ghost use Rattle.std.specs.Prelude.{◌≡◌, ◌<◌, ◌≤◌, IfOk};
ghost use Rattle.pb_base.specs.Answers.{IfRefused};
ghost use Rattle.release_check.specs.NotReleased.{IsRefusal};
ghost use Rattle.release.specs.Release.{IsRelease};
ghost use Rattle.pb_base.specs.declared.limits.TheConstants.{MOST_BUDGET};

use crate::certifying::{CertifiedBook, certify_text};
use crate::not_released::NotReleased;
use pb_base::{Body, Fail};
use release::Released;
use std::alloc::Global;

/// Releases the book of a text, if it can be released: on every day of its term some set of codes is good, and every good set
/// has its parts list. For each question that has to be answered at most `budget` clauses are learnt. The text is kept as it
/// is.
pub fn try_release(alloc: Global, text: Body, budget: u32) -> Result<Released, Fail<NotReleased>>
    requires some { 0 < budget }
    requires most { budget ≤ MOST_BUDGET }
    ensures text { IfOk result (λ r. r.text ≡ text) }
    ensures release { IfOk result IsRelease }
    ensures refused { IfRefused result (IsRefusal text budget) }
{
    match certify_text(alloc, text.as_slice(), budget) {
        Ok(CertifiedBook { book, cert }) => Ok(Released::of(alloc, text, book, cert)?),
        Err(fail) => Err(fail),
    }
}

//! From the text of a book to a certificate that it can be released.
ghost use Rattle.std.specs.Prelude.{◌≡◌, ◌≢◌, ◌↔◌, ℕ, ◌<◌, ◌≤◌, List, IfOk, IfSome, IsSome};
ghost use Rattle.pb_base.specs.Answers.{IfRefused};
ghost use Rattle.book_model.specs.Sound.{IsReleasable};
ghost use Rattle.derivation.specs.Accepted.{IsAccepted};
ghost use Rattle.findings.specs.Notes.{verdict_of};
ghost use Rattle.findings.specs.declared.report.Verdict.TheVariants as Verdict;
ghost use Rattle.release_check.specs.Checked.{IsCertifiedBook};
ghost use Rattle.release_check.specs.NotReleased.{IsRefusal, IsReportOf};
ghost use Rattle.pb_base.specs.declared.limits.TheConstants.{MOST_BUDGET};

use crate::not_released::NotReleased;
use book_model::Book;
use book_text::read_book;
use findings::{Ask, Checked, Report, Verdict, check_book, check_book_by, verdict_of};
use pb_base::{Body, Fail};
use std::alloc::Global;
use std::thread::Threads;

/// A book, and a certificate that it can be released.
#[derive(Drop)]
pub struct CertifiedBook {
    pub book: Book,
    pub cert: Body,
}

/// The book of a text, with a certificate that it can be released, or why it isn't released. For each question that has to be
/// answered at most `budget` clauses are learnt.
pub fn certify_text(
    alloc: Global,
    text: &[u8],
    budget: u32,
) -> Result<CertifiedBook, Fail<NotReleased>>
    requires some { 0 < budget }
    requires most { budget ≤ MOST_BUDGET }
    ensures certified { IfOk result (λ c. IsCertifiedBook text.now budget c.book c.cert) }
    ensures refused { IfRefused result (IsRefusal text.now budget) }
{
    let book = match read_book(alloc, text) {
        Ok(book) => book,
        Err(fail) => return Err(fail.map(NotReleased::Text)),
    };
    match check_book(alloc, &book, budget, Ask::Blocking) {
        Ok(checked) => by_check(book, checked),
        Err(fail) => Err(fail.map(NotReleased::Limit)),
    }
}

/// The same by so many workers, who share the slices of the book.
pub fn certify_text_by<R: Threads + Sync>(
    rt: &R,
    alloc: Global,
    text: &[u8],
    budget: u32,
    workers: u32,
) -> Result<CertifiedBook, Fail<NotReleased>>
    requires some { 0 < budget }
    requires most { budget ≤ MOST_BUDGET }
    requires workers { 0 < workers }
    ensures certified { IfOk result (λ c. IsCertifiedBook text.now budget c.book c.cert) }
    ensures refused { IfRefused result (IsRefusal text.now budget) }
{
    let book = match read_book(alloc, text) {
        Ok(book) => book,
        Err(fail) => return Err(fail.map(NotReleased::Text)),
    };
    match check_book_by(rt, alloc, &book, budget, Ask::Blocking, workers) {
        Ok(checked) => by_check(book, checked),
        Err(fail) => Err(fail.map(NotReleased::Limit)),
    }
}

// A book with the certificate of its check, if there is one.
fn by_check(book: Book, checked: Checked) -> Result<CertifiedBook, Fail<NotReleased>>
    requires cert { IsSome checked.cert ↔ (verdict_of checked.report ≡ Verdict.Releasable) }
    requires accepted { IfSome checked.cert (IsAccepted book) }
    requires releasable { verdict_of checked.report ≡ Verdict.Releasable → IsReleasable book }
    ensures certified { (text : List ℕ) (budget : ℕ) → IsReportOf text budget book checked.report
        → IfOk result (λ c. IsCertifiedBook text budget c.book c.cert) }
    ensures refused { (text : List ℕ) (budget : ℕ) → IsReportOf text budget book checked.report
        → IfRefused result (IsRefusal text budget) }
{
    let Checked { report, cert } = checked;
    match cert {
        Some(cert) => Ok(CertifiedBook { book, cert }),
        None => Err(Fail::Refused(kept_back(book, report))),
    }
}

// Why the report keeps the book from its release.
fn kept_back(book: Book, report: Report) -> NotReleased
    requires { verdict_of report ≢ Verdict.Releasable }
    ensures { (text : List ℕ) (budget : ℕ)
        → IsReportOf text budget book report → IsRefusal text budget result }
{
    match verdict_of(&report) {
        Verdict::Blocked => NotReleased::Found { book, report },
        Verdict::Undecided => NotReleased::Undecided { book, report },
        Verdict::Releasable => unreachable!(),
    }
}

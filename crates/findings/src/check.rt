//! The check of a book.
ghost use Rattle.std.specs.Prelude.{◌≡◌, ◌↔◌, ℕ, ◌<◌, ◌≤◌, List, [], ◌∷◌, All, IfOk, IfSome, IsSome, OnOk, Err, Ok, false, length, ◌++◌, ◌||◌};
ghost use Rattle.std.specs.List.{list_any};
ghost use Rattle.std.specs.Option.{is_none};
ghost use Rattle.pb_base.specs.Answers.{IfRefused};
ghost use Rattle.book_model.specs.Sound.{IsReleasable};
ghost use Rattle.derivation.specs.Limits.{slices_within};
ghost use Rattle.derivation.specs.Written.{IsBegun};
ghost use Rattle.derivation.specs.declared.slice_proof.SliceProof.{SliceProof};
ghost use Rattle.book_model.specs.declared.record.Slice.{Slice};
ghost use Rattle.findings.specs.Checkable.{IsCheckable};
ghost use Rattle.findings.specs.Notes.{IsReport, SliceNotes, verdict_of};
ghost use Rattle.slice_hints.specs.Found.{KnowsUsages};
ghost use Rattle.findings.specs.Answering.{IsShownIn, ShowsUnlessStopped, inquiry, stops};
ghost use Rattle.derivation.specs.Accepted.{IsAccepted};
ghost use Rattle.pb_base.specs.declared.limits.TheConstants.{MOST_BUDGET};
ghost use Rattle.pb_base.specs.InParts.{InParts};

use crate::earlier::Earlier;
use crate::laws::book_laws;
use crate::report::{Ask, Note, Report, Verdict};
use crate::slice::SliceCheck;
use crate::slice_checks::check_one;
use crate::slice_reports::{joined, reports_of};
use crate::task::Effort;
use book_model::{Book, LimitFault, Slice};
use derivation::{SliceProof, begin_cert, end_cert, put_proof, slices_within};
use pb_base::{Body, Fail, Memory, Text};
use std::alloc::Global;

/// What a check of a book tells, and the certificate that nothing keeps it from its release.
#[derive(Drop)]
pub struct Checked {
    pub report: Report,
    /// It is there just where the report's verdict is that the book can be released.
    pub cert: Option<Body>,
}

/// Asks the questions of every slice of a book. A question is left where so many clauses were learnt for it, each of which
/// says what propagation did not. A book that exceeds the limits of checking is refused with the first of them.
pub fn check_book(
    alloc: Global,
    book: &Book,
    budget: u32,
    ask: Ask,
) -> Result<Checked, Fail<LimitFault>>
    requires some { 0 < budget }
    requires most { budget ≤ MOST_BUDGET }
    ensures limits { IfRefused result (λ fault. slices_within book.now ≡ Err fault) }
    ensures report { IfOk result (λ c.
        IsReport (record { book = book.now; ask = ask; budget = budget }) c.report) }
    ensures cert { IfOk result (λ c. IsSome c.cert ↔ (verdict_of c.report ≡ Verdict.Releasable)) }
    ensures accepted { IfOk result (λ c. IfSome c.cert (IsAccepted book.now)) }
    ensures released { IfOk result (λ c. verdict_of c.report ≡ Verdict.Releasable → IsReleasable book.now) }
{
    book_laws(book);
    let slices = slices_within(alloc, book)?;
    let effort = Effort { ask, budget };
    let all = check_slices(alloc, book, slices.as_slice(), effort)?;
    let checked = concluded(book, all)?;
    Ok(checked)
}

/// The report alone. No certificate is written, and no more is kept of a slice than the next one may use.
pub fn report_book(
    alloc: Global,
    book: &Book,
    budget: u32,
    ask: Ask,
) -> Result<Report, Fail<LimitFault>>
    requires some { 0 < budget }
    requires most { budget ≤ MOST_BUDGET }
    ensures limits { IfRefused result (λ fault. slices_within book.now ≡ Err fault) }
    ensures report { IfOk result
        (IsReport (record { book = book.now; ask = ask; budget = budget })) }
{
    book_laws(book);
    let slices = slices_within(alloc, book)?;
    let effort = Effort { ask, budget };
    let notes = report_slices(alloc, book, slices.as_slice(), effort)?;
    Ok(Report::of(notes))
}

// The notes of slices.
fn report_slices(
    alloc: Global,
    book: &Book,
    slices: &[Slice],
    effort: Effort,
) -> Result<Vec<Note>, Memory>
    requires slices { All (IsCheckable book.now) slices.now }
    requires some { 0 < effort.budget }
    requires budget { effort.budget ≤ MOST_BUDGET }
    ensures { IfOk result (λ notes.
        InParts (SliceNotes (inquiry book.now effort)) slices.now notes.items) }
{
    let reports = reports_of(alloc, book, slices, effort)?;
    let notes = joined(alloc, reports)?;
    Ok(notes)
}

/// What a check of slices tells: their notes, and where none of these keeps the book from its release, a certificate with a proof
/// of each of them.
#[derive(Drop)]
pub(crate) struct SliceChecks {
    pub(crate) notes: Vec<Note>,
    pub(crate) text: Text,
    pub(crate) stopped: bool,
}

/// What the checks of all slices of a book come to.
pub(crate) fn concluded(book: &Book, all: SliceChecks) -> Result<Checked, Memory>
    requires { all.stopped ≡ list_any stops all.notes.items }
    ensures report { IfOk result (λ c. c.report ≡ all.notes.items) }
    ensures cert { IfOk result (λ c. IsSome c.cert ↔ (verdict_of c.report ≡ Verdict.Releasable)) }
    ensures accepted { (slices : List Slice) → slices_within book.now ≡ Ok slices
        → (all.stopped ≡ false → IsShownIn book.now slices (length slices) all.text)
        → IfOk result (λ c. IfSome c.cert (IsAccepted book.now)) }
{
    let SliceChecks {
        notes,
        text,
        stopped,
    } = all;
    let report = Report::of(notes);
    if stopped {
        return Ok(Checked { report, cert: None });
    }
    let cert = end_cert(text, book)?;
    Ok(Checked {
        report,
        cert: Some(cert),
    })
}

/// Checks slices one after the other.
pub(crate) fn check_slices(
    alloc: Global,
    book: &Book,
    slices: &[Slice],
    effort: Effort,
) -> Result<SliceChecks, Memory>
    requires slices { All (IsCheckable book.now) slices.now }
    requires some { 0 < effort.budget }
    requires budget { effort.budget ≤ MOST_BUDGET }
    ensures notes { IfOk result (λ c.
        InParts (SliceNotes (inquiry book.now effort)) slices.now c.notes.items) }
    ensures stopped { IfOk result (λ c. c.stopped ≡ list_any stops c.notes.items) }
    ensures shown { IfOk result (λ c.
        c.stopped ≡ false → IsShownIn book.now slices.now (length slices.now) c.text) }
{
    let mut all = SliceChecks::begun(alloc, book, slices)?;
    let mut earlier = Earlier::none(alloc);
    check_each(alloc, book, slices, effort, &mut earlier, &mut all)?;
    Ok(all)
}

// Puts down what the check of each slice tells.
fn check_each(
    alloc: Global,
    book: &Book,
    slices: &[Slice],
    effort: Effort,
    earlier: &mut Earlier,
    all: &mut SliceChecks,
) -> Result<(), Memory>
    requires slices { All (IsCheckable book.now) slices.now }
    requires some { 0 < effort.budget }
    requires budget { effort.budget ≤ MOST_BUDGET }
    requires notes { all.old.notes.items ≡ [] }
    requires text { IsBegun book.now (length slices.now) [] all.old.text }
    requires stopped { all.old.stopped ≡ false }
    requires earlier { All (KnowsUsages book.now) earlier.old.sets.items }
    ensures notes { OnOk result
        (InParts (SliceNotes (inquiry book.now effort)) slices.now all.new.notes.items) }
    ensures stopped { OnOk result (all.new.stopped ≡ list_any stops all.new.notes.items) }
    ensures shown { OnOk result
        (all.new.stopped ≡ false → IsShownIn book.now slices.now (length slices.now) all.new.text) }
{
    for (number, slice) in slices.iter().enumerate() {
        let checked = check_one(alloc, book, *slice, effort, earlier)?;
        all.put(book, number, checked)?;
    }
    Ok(())
}

impl SliceChecks {
    /// With nothing put down of any of these slices.
    pub(crate) fn begun(alloc: Global, book: &Book, slices: &[Slice]) -> Result<SliceChecks, Memory>
        ensures notes { IfOk result (λ c. c.notes.items ≡ []) }
        ensures text { IfOk result (λ c. IsBegun book.now (length slices.now) [] c.text) }
        ensures stopped { IfOk result (λ c. c.stopped ≡ false) }
    {
        let text = begin_cert(alloc, book, slices)?;
        Ok(SliceChecks {
            notes: Vec::new(alloc),
            text,
            stopped: false,
        })
    }

    /// Puts down what the check of a further slice tells, which has this number.
    pub(crate) fn put(
        &mut self,
        book: &Book,
        number: usize,
        checked: SliceCheck,
    ) -> Result<(), Memory>
        requires { IfSome checked.proof (λ p. length p.set ≡ length book.now.codes) }
        ensures notes { OnOk result (self.new.notes.items ≡ self.old.notes.items ++ checked.notes.items) }
        ensures stopped { OnOk result (self.new.stopped ≡ (self.old.stopped || is_none checked.proof)) }
        ensures shown { (slices : List Slice) (slice : Slice) (count : ℕ) → number ≡ length slices
            → ShowsUnlessStopped book.now slice checked.notes.items checked.proof
            → (self.old.stopped ≡ false → IsShownIn book.now slices count self.old.text)
            → OnOk result (self.new.stopped ≡ false
            → IsShownIn book.now (slices ++ slice ∷ []) count self.new.text) }
    {
        let SliceCheck { mut notes, proof } = checked;
        self.notes.append(&mut notes)?;
        match proof {
            Some(proof) => self.put_shown(book, number, &proof)?,
            None => self.stopped = true,
        }
        Ok(())
    }

    // Puts down the proof of a further slice, unless a note of another one keeps the book from its release.
    fn put_shown(&mut self, book: &Book, number: usize, proof: &SliceProof) -> Result<(), Memory>
        requires { length proof.now.set ≡ length book.now.codes }
        ensures notes { self.new.notes ≡ self.old.notes }
        ensures stopped { self.new.stopped ≡ self.old.stopped }
        ensures text { (count : ℕ) (before : List SliceProof) → self.old.stopped ≡ false
            → number ≡ length before → IsBegun book.now count before self.old.text
            → OnOk result (IsBegun book.now count (before ++ proof.now ∷ []) self.new.text) }
    {
        let stopped = self.stopped;
        if stopped {
            return Ok(());
        }
        put_proof(&mut self.text, book, number, proof)?;
        Ok(())
    }
}

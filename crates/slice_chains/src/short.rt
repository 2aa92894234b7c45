//! Proofs with no more steps than their closings rest on. What is kept is derived again over the slice's clauses, and each closing
//! is looked at again, so nothing has to be known of what was left out.
ghost use Rattle.std.specs.Prelude.{◌≤◌, IfOk, IfSome};
ghost use Rattle.clausify.specs.Coded.{slice_asked, slice_clauses};
ghost use Rattle.derivation.specs.Limits.{asked_of};
ghost use Rattle.derivation.specs.Showing.{AllClosed, Closes, ShowsSlice, StandsOver};
ghost use Rattle.derivation.specs.Stage.{to_close};
ghost use Rattle.pb_base.specs.declared.limits.TheConstants.{MOST_QUESTIONS};
ghost use Rattle.chains.specs.Growth.{Grows};

use book_model::{Book, Slice};
use chains::{Needed, PlaceMap, Places, derive_needed, refuting_unit};
use clause_pool::{Kernel, Pool};
use clausify::{Coded, coded_slice};
use derivation::{Closing, SliceProof, ToClose, to_close};
use pb_base::Memory;
use std::alloc::Global;

/// The same proof with no more steps than its closings rest on, or as it is where these are nearly all it has.
pub fn shorten(
    alloc: Global,
    book: &Book,
    slice: &Slice,
    proof: SliceProof,
) -> Result<SliceProof, Memory>
    requires few { asked_of book.now slice.now ≤ MOST_QUESTIONS }
    requires shown { ShowsSlice book.now slice.now proof }
    ensures { IfOk result (ShowsSlice book.now slice.now) }
{
    let short = short_of(alloc, book, slice, &proof)?;
    match short {
        Some(short) => Ok(SliceProof {
            set: proof.set,
            kernel: short.kernel,
            closed: short.closed,
        }),
        None => Ok(proof),
    }
}

// What is shorter than the proof, unless its closings rest on nearly all that it has.
fn short_of(
    alloc: Global,
    book: &Book,
    slice: &Slice,
    proof: &SliceProof,
) -> Result<Option<Short>, Memory>
    requires { asked_of book.now slice.now ≤ MOST_QUESTIONS }
    ensures kernel { IfOk result (λ found. IfSome found (λ s.
        StandsOver (slice_clauses book.now slice.now.first) s.kernel)) }
    ensures closed { IfOk result (λ found. IfSome found (λ s.
        AllClosed s.kernel.clauses (to_close 0 (slice_asked book.now slice.now.first)) s.closed.items)) }
{
    let needed = needed_of(alloc, proof)?;
    if needed.is_nearly_all(proof.kernel.given()) {
        return Ok(None);
    }
    short_in(alloc, book, slice, proof, &needed)
}

// A kernel over the clauses of a slice, and what closes the slice's questions in it.
#[derive(Drop)]
struct Short {
    kernel: Kernel,
    closed: Vec<Closing>,
}

// What the closings of a proof rest on.
fn needed_of(alloc: Global, proof: &SliceProof) -> Result<Needed, Memory> {
    let mut needed = Needed::none(alloc, &proof.kernel)?;
    for closing in &proof.closed {
        needed.mark(closing.at);
    }
    needed.close(&proof.kernel);
    Ok(needed)
}

// Derives the needed clauses alone, over the clauses of the slice, and closes by them what the proof closes.
fn short_in(
    alloc: Global,
    book: &Book,
    slice: &Slice,
    proof: &SliceProof,
    needed: &Needed,
) -> Result<Option<Short>, Memory>
    requires { asked_of book.now slice.now ≤ MOST_QUESTIONS }
    ensures kernel { IfOk result (λ found. IfSome found (λ s.
        StandsOver (slice_clauses book.now slice.now.first) s.kernel)) }
    ensures closed { IfOk result (λ found. IfSome found (λ s.
        AllClosed s.kernel.clauses (to_close 0 (slice_asked book.now slice.now.first)) s.closed.items)) }
{
    let coded = coded_slice(alloc, book, slice)?;
    let Coded {
        pool,
        vars: _,
        questions,
    } = coded;
    let asked = to_close(alloc, &questions)?;
    short_over(alloc, pool, &asked, proof, needed)
}

// The same over these clauses, of these questions.
fn short_over(
    alloc: Global,
    clauses: Pool,
    asked: &[ToClose],
    proof: &SliceProof,
    needed: &Needed,
) -> Result<Option<Short>, Memory>
    ensures kernel { IfOk result (λ found. IfSome found (λ s. StandsOver clauses.clauses s.kernel)) }
    ensures closed { IfOk result (λ found. IfSome found (λ s.
        AllClosed s.kernel.clauses asked.now s.closed.items)) }
{
    let mut kernel = Kernel::of(alloc, clauses);
    let found = close_by_needed(alloc, &mut kernel, asked, proof, needed)?;
    match found {
        Some(closed) => Ok(Some(Short { kernel, closed })),
        None => Ok(None),
    }
}

// Derives the needed clauses in a kernel, and closes these questions by them.
fn close_by_needed(
    alloc: Global,
    kernel: &mut Kernel,
    asked: &[ToClose],
    proof: &SliceProof,
    needed: &Needed,
) -> Result<Option<Vec<Closing>>, Memory>
    ensures grows { Grows kernel.old kernel.new }
    ensures closed { IfOk result (λ found. IfSome found (λ closed.
        AllClosed kernel.new.clauses asked.now closed.items)) }
{
    let places = derive_needed(alloc, kernel, &proof.kernel, needed)?;
    close_again(alloc, kernel, asked, &proof.closed, &places)
}

// The closings of these questions by the clauses that closed them before, if each of these is there and closes its question.
fn close_again(
    alloc: Global,
    kernel: &Kernel,
    asked: &[ToClose],
    before: &[Closing],
    places: &Places,
) -> Result<Option<Vec<Closing>>, Memory>
    ensures { IfOk result (λ found. IfSome found (λ closed.
        AllClosed kernel.now.clauses asked.now closed.items)) }
{
    let mut closed = Vec::new(alloc);
    for (number, one) in asked.iter().enumerate() {
        let Some(closing) = close_one(kernel, *one, before.get(number), places) else {
            return Ok(None);
        };
        closed.push(closing)?;
    }
    Ok(Some(closed))
}

// The closing of a question by the clause that closed it before.
fn close_one(
    kernel: &Kernel,
    asked: ToClose,
    before: Option<&Closing>,
    places: &Places,
) -> Option<Closing>
    ensures { IfSome result (Closes kernel.now.clauses asked) }
{
    let at = places.place(before?.at)?;
    let at = refuting_unit(kernel, asked.goal, at)?;
    Some(Closing {
        question: asked.question,
        at,
    })
}

//! The writing of a certificate.
ghost use Rattle.std.specs.Prelude.{◌≡◌, ℕ, ◌-◌, ◌<◌, ◌≤◌, ◌^◌, ◌++◌, List, [], ◌∷◌, All, Ok, IfOk, OnOk, codes, length, slice_index, slice_index_or};
ghost use Rattle.std.specs.Fmt.{decimal};
ghost use Rattle.std.specs.List.{AllByRecursion};
ghost use Rattle.clause_pool.specs.Derivation.{IsDerived};
ghost use Rattle.derivation.specs.Certificate.{cert_answer};
ghost use Rattle.derivation.specs.CertLine.{book_line, slice_line, step_line};
ghost use Rattle.derivation.specs.Showing.{ShowEach, shown_by};
ghost use Rattle.derivation.specs.declared.slice_proof.SliceProof.{SliceProof};
ghost use Rattle.derivation.specs.Written.{IsBegun, LineFits, PairFits, cert_lines, close_lines, line_of, literal_word, members, pair_words, slice_lines, spaced, step_lines, written};

use crate::closing::Closing;
use crate::laws::book_laws;
use crate::slice_proof::SliceProof;
use book_model::{Book, Slice};
use clause_pool::{Kernel, Lit, Ref, ShortPair};
use clausify::question_count;
use pb_base::{Body, CodeSet, CodeTable, Id, Memory, Text};
use std::alloc::Global;

// A closing is a line, and mostly a step more: 60 to 130 bytes a question in the books that were measured.
const QUESTION_BYTES: usize = 128;

/// The beginning of the certificate of a book with these slices. Behind it come their proofs, in order, and then its end. It has
/// room for what is to come, by the number of questions, so that a long text is not copied while it grows.
pub fn begin_cert(alloc: Global, book: &Book, slices: &[Slice]) -> Result<Text, Memory>
    ensures { IfOk result (IsBegun book.now (length slices.now) []) }
{
    let mut text = text_with_room(alloc, room_for(book, slices));
    text.put(b"partsbook certificate 1\n")?;
    put_book(&mut text, book.name(), slices.len() as u64)?;
    Ok(text)
}

/// The proof of the next slice, which has this number: a step for each clause that was derived, and a closing for each
/// question that has to be closed.
pub fn put_proof(
    text: &mut Text,
    book: &Book,
    number: usize,
    proof: &SliceProof,
) -> Result<(), Memory>
    requires { length proof.now.set ≡ length book.now.codes }
    ensures { (count : ℕ) (before : List SliceProof) → number ≡ length before
        → IsBegun book.now count before text.old
        → OnOk result (IsBegun book.now count (before ++ proof.now ∷ []) text.new) }
{
    put_slice(text, book, number, proof)?;
    Ok(())
}

/// The certificate, once the proof of each slice is put down.
pub fn end_cert(mut text: Text, book: &Book) -> Result<Body, Memory>
    ensures text { (proofs : List SliceProof) → IsBegun book.now (length proofs) proofs text
        → IfOk result (λ cert. cert ≡ written (cert_lines book.now proofs)) }
    ensures answer { (proofs : List SliceProof) → ShowEach book.now proofs
        → IsBegun book.now (length proofs) proofs text
        → IfOk result (λ cert. cert_answer book.now cert ≡ Ok (shown_by proofs)) }
{
    book_laws(book);
    text.put(b"end\n")?;
    Ok(text.into_body())
}

// The bytes that a certificate of these slices may come to.
fn room_for(book: &Book, slices: &[Slice]) -> usize {
    let mut questions: usize = 0;
    for slice in slices {
        questions = questions.saturating_add(question_count(book, slice) as usize);
    }
    questions.saturating_mul(QUESTION_BYTES)
}

// The text without bytes, with this room where there is so much.
fn text_with_room(alloc: Global, room: usize) -> Text
    ensures { result ≡ [] }
{
    match Text::with_room(alloc, room) {
        Ok(text) => text,
        Err(Memory) => Text::new(alloc),
    }
}

// The line with the name of the book and the number of its slices.
#[tactic(auto, using(crate::proofs::LineLaws::some_words, crate::proofs::LineLaws::more_words))]
fn put_book(text: &mut Text, name: &Id, slices: u64) -> Result<(), Memory>
    ensures text { OnOk result (text.new
        ≡ text.old ++ line_of (codes "book") (name.now ∷ decimal slices ∷ [])) }
    ensures fit { OnOk result (LineFits (book_line name.now slices)) }
{
    text.put(b"book")?;
    put_word(text, name.bytes())?;
    put_number(text, slices)?;
    text.put(b"\n")
}

// The lines of the slice of this number.
fn put_slice(text: &mut Text, book: &Book, number: usize, proof: &SliceProof) -> Result<(), Memory>
    requires { length proof.now.set ≡ length book.now.codes }
    ensures text { OnOk result (text.new ≡ text.old ++ written (slice_lines book.now number proof.now)) }
    ensures fit { OnOk result (AllByRecursion LineFits (slice_lines book.now number proof.now)) }
    ensures derived { OnOk result (IsDerived proof.now.kernel) }
{
    book_laws(book);
    put_slice_line(text, number as u64)?;
    put_set_line(text, book.codes(), &proof.set)?;
    put_steps(text, &proof.kernel)?;
    put_closings(text, &proof.closed)
}

// The line that a slice begins with.
#[tactic(auto, using(crate::proofs::LineLaws::some_words, crate::proofs::LineLaws::more_words))]
fn put_slice_line(text: &mut Text, number: u64) -> Result<(), Memory>
    ensures text { OnOk result (text.new ≡ text.old ++ line_of (codes "slice") (decimal number ∷ [])) }
    ensures fit { LineFits (slice_line number) }
{
    text.put(b"slice")?;
    put_number(text, number)?;
    text.put(b"\n")
}

// The line of a set.
#[tactic(auto, using(crate::proofs::LineLaws::some_words, crate::proofs::LineLaws::more_words))]
fn put_set_line(text: &mut Text, table: &CodeTable, set: &CodeSet) -> Result<(), Memory>
    requires { length set.now ≡ length table.now }
    ensures { OnOk result (text.new ≡ text.old ++ line_of (codes "set") (members table.now set.now)) }
{
    text.put(b"set")?;
    put_members(text, table, set)?;
    text.put(b"\n")
}

fn put_members(text: &mut Text, table: &CodeTable, set: &CodeSet) -> Result<(), Memory>
    requires { length set.now ≡ length table.now }
    ensures { OnOk result (text.new ≡ text.old ++ spaced (members table.now set.now)) }
{
    for place in 0..table.len() {
        if set.has(place) {
            put_word(text, table.name_of(place).bytes())?;
        }
    }
    Ok(())
}

// The steps by which the further clauses were derived.
fn put_steps(text: &mut Text, kernel: &Kernel) -> Result<(), Memory>
    ensures text { OnOk result (text.new
        ≡ text.old ++ written (step_lines kernel.now.starts kernel.now.pairs)) }
    ensures fit { OnOk result (AllByRecursion LineFits (step_lines kernel.now.starts kernel.now.pairs)) }
    ensures derived { IsDerived kernel.now }
{
    let pool = kernel.pool();
    for at in kernel.given()..pool.len() {
        put_step(text, kernel, at)?;
    }
    Ok(())
}

fn put_step(text: &mut Text, kernel: &Kernel, at: Ref) -> Result<(), Memory>
    requires derived { kernel.now.given ≤ at }
    requires there { at < length kernel.now.clauses }
    ensures text { let n = at - kernel.now.given in
        let start = slice_index kernel.now.starts n in
        let pairs = slice_index_or kernel.now.pairs n [] in
        OnOk result (text.new ≡ text.old ++ line_of (codes "step") (decimal start ∷ pair_words pairs)) }
    ensures fit { let n = at - kernel.now.given in
        OnOk result (LineFits (step_line (slice_index kernel.now.starts n)
        (slice_index_or kernel.now.pairs n []))) }
{
    match kernel.start_of(at) {
        Some(start) => put_step_line(text, start, kernel.pairs_of(at)),
        None => Ok(()),
    }
}

#[tactic(auto, using(crate::proofs::LineLaws::some_words, crate::proofs::LineLaws::more_words))]
fn put_step_line(text: &mut Text, start: Ref, pairs: &[ShortPair]) -> Result<(), Memory>
    ensures text { OnOk result (text.new
        ≡ text.old ++ line_of (codes "step") (decimal start ∷ pair_words pairs.now)) }
    ensures fits { OnOk result ((start < 2 ^ 64) × All PairFits pairs.now) }
{
    text.put(b"step")?;
    put_number(text, start as u64)?;
    put_pairs(text, pairs)?;
    text.put(b"\n")
}

fn put_pairs(text: &mut Text, pairs: &[ShortPair]) -> Result<(), Memory>
    ensures words { OnOk result (text.new ≡ text.old ++ spaced (pair_words pairs.now)) }
    ensures fit { OnOk result (All PairFits pairs.now) }
{
    for pair in pairs {
        let pair = pair.pair();
        put_literal(text, pair.lit)?;
        put_number(text, pair.with as u64)?;
    }
    Ok(())
}

// The closings, in order.
fn put_closings(text: &mut Text, closings: &[Closing]) -> Result<(), Memory>
    ensures text { OnOk result (text.new ≡ text.old ++ written (close_lines closings.now)) }
    ensures fit { OnOk result (AllByRecursion LineFits (close_lines closings.now)) }
{
    for closing in closings {
        put_close_line(text, *closing)?;
    }
    Ok(())
}

#[tactic(auto, using(crate::proofs::LineLaws::some_words, crate::proofs::LineLaws::more_words))]
fn put_close_line(text: &mut Text, closing: Closing) -> Result<(), Memory>
    ensures text { OnOk result (text.new
        ≡ text.old ++ line_of (codes "close") (decimal closing.question ∷ decimal closing.at ∷ [])) }
    ensures fits { (closing.question < 2 ^ 64) × (closing.at < 2 ^ 64) }
{
    text.put(b"close")?;
    put_number(text, u64::from(closing.question))?;
    put_number(text, closing.at as u64)?;
    text.put(b"\n")
}

// The words stand behind one space each.
fn put_word(text: &mut Text, word: &[u8]) -> Result<(), Memory>
    ensures { OnOk result (text.new ≡ text.old ++ spaced (word.now ∷ [])) }
{
    text.put(b" ")?;
    text.put(word)
}

fn put_literal(text: &mut Text, lit: Lit) -> Result<(), Memory>
    ensures word { OnOk result (text.new ≡ text.old ++ spaced (literal_word lit ∷ [])) }
    ensures fits { OnOk result (lit < 2 ^ 33) }
{
    let sign: &[u8] = if lit.positive() { b" +" } else { b" -" };
    text.put(sign)?;
    text.put_number(u64::from(lit.var()))
}

fn put_number(text: &mut Text, number: u64) -> Result<(), Memory>
    ensures word { OnOk result (text.new ≡ text.old ++ spaced (decimal number ∷ [])) }
    ensures fits { number < 2 ^ 64 }
{
    text.put(b" ")?;
    text.put_number(number)
}

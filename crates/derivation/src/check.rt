//! The check of a certificate.
ghost use Rattle.std.specs.Prelude.{◌≡◌, ◌+◌, ◌<◌, ◌≤◌, ◌^◌, List, IfOk, IfSome, OnOk, is_some, length};
ghost use Rattle.std.specs.Option.{option_map};
ghost use Rattle.pb_base.specs.Results.{and_then};
ghost use Rattle.pb_base.specs.Answers.{Answers, Gives};
ghost use Rattle.book_model.specs.Sound.{IsReleasable};
ghost use Rattle.clause_pool.specs.declared.chain.Pair.{Pair};
ghost use Rattle.derivation.specs.After.{after};
ghost use Rattle.derivation.specs.CertLine.{cert_line};
ghost use Rattle.derivation.specs.Certificate.{after_last, cert_answer, is_step, past_end, read_cert, taken_as, taken_line, with_line};
ghost use Rattle.derivation.specs.Kept.{AllNamed};
ghost use Rattle.derivation.specs.Limits.{AreWithin};
ghost use Rattle.derivation.specs.Reading.{HasPairs, fault_at, line_of, seen, stage_of};

use crate::after::after;
use crate::fault::{CertFault, CertKind, Certified};
use crate::laws::{book_laws, pieces_laws};
use crate::limits::slices_within;
use crate::line::{Line, read_line};
use crate::pieces::Pieces;
use crate::stage::Stage;
use book_model::{Book, LimitFault, Slice};
use clause_pool::Pair;
use pb_base::Fail;
use std::alloc::Global;

/// Checks a certificate against a book, without any search: whether the book can be released. It reads the text once,
/// keeps no copy of it, and holds one line and the clauses of one slice at a time.
pub fn check_cert(alloc: Global, book: &Book, cert: &[u8]) -> Result<Certified, Fail<CertFault>>
    ensures answer { Answers result (cert_answer book.now cert.now) }
    ensures releasable { OnOk result (IsReleasable book.now) }
{
    book_laws(book);
    match slices_within(alloc, book) {
        Ok(slices) => read_cert(alloc, book, slices.as_slice(), cert),
        Err(Fail::Refused(fault)) => Err(Fail::Refused(CertFault {
            line: 0,
            kind: CertKind::Limit(fault),
        })),
        Err(Fail::Memory) => Err(Fail::Memory),
    }
}

// Reads the lines one after another.
fn read_cert(
    alloc: Global,
    book: &Book,
    slices: &[Slice],
    cert: &[u8],
) -> Result<Certified, Fail<CertFault>>
    requires few { length slices.now < 2 ^ 32 }
    requires within { AreWithin book.now slices.now }
    ensures { Answers result (read_cert book.now cert.now slices.now) }
{
    let mut texts = Pieces::of(cert, b'\n');
    pieces_laws(&texts);
    let mut pairs = Vec::new(alloc);
    let mut stage = Stage::Head;
    let mut so_far = Certified {
        slices: slices.len() as u32,
        steps: 0,
    };
    let mut number: u64 = 1;
    while let Some(text) = texts.next() {
        if texts.is_done() {
            return match after_last(so_far, &stage, text) {
                Ok(certified) => Ok(certified),
                Err(kind) => Err(fault_at(number, Fail::Refused(kind))),
            };
        }
        let taken = match take_line(alloc, book, slices, stage, text, &mut pairs) {
            Ok(taken) => taken,
            Err(fail) => return Err(fault_at(number, fail)),
        };
        stage = taken.stage;
        so_far = with_line(so_far, taken.is_step);
        number += 1;
    }
    Err(fault_at(number, Fail::Refused(CertKind::Syntax)))
}

// What is wrong with the line of this number.
fn fault_at(line: u64, fail: Fail<CertKind>) -> Fail<CertFault>
    ensures { result ≡ fault_at line fail }
{
    match fail {
        Fail::Refused(kind) => Fail::Refused(CertFault { line, kind }),
        Fail::Memory => Fail::Memory,
    }
}

// What comes behind the last line feed: nothing, and only behind the end line.
fn after_last(so_far: Certified, stage: &Stage, rest: &[u8]) -> Result<Certified, CertKind>
    ensures { result ≡ after_last so_far (stage_of stage.now) rest.now }
{
    match stage {
        Stage::End => {
            if rest.is_empty() {
                return Ok(so_far);
            }
            Err(CertKind::Trailing)
        }
        _ => Err(CertKind::Syntax),
    }
}

// Counts a step.
fn with_line(so_far: Certified, is_step: bool) -> Certified
    requires { so_far.steps + 1 < 2 ^ 64 }
    ensures value { result ≡ with_line so_far is_step }
    ensures limit { result.steps ≤ so_far.steps + 1 }
{
    if !is_step {
        return so_far;
    }
    Certified {
        slices: so_far.slices,
        steps: so_far.steps + 1,
    }
}

fn is_past_end(stage: &Stage) -> bool
    ensures { result ≡ is_some (past_end (stage_of stage.now)) }
{
    match stage {
        Stage::End => true,
        _ => false,
    }
}

fn is_step(line: &Line) -> bool
    ensures { (pairs : List Pair) → result ≡ is_step (line_of line.now pairs) }
{
    match line {
        Line::Step { .. } => true,
        _ => false,
    }
}

// The stage behind a line, and whether the line is a step.
#[derive(Drop)]
struct Taken {
    stage: Stage,
    is_step: bool,
}

// Takes one text. The room for pairs serves every line.
fn take_line(
    alloc: Global,
    book: &Book,
    slices: &[Slice],
    stage: Stage,
    text: &[u8],
    pairs: &mut Vec<Pair>,
) -> Result<Taken, Fail<CertKind>>
    requires few { length slices.now < 2 ^ 32 }
    requires within { AreWithin book.now slices.now }
    requires named { AllNamed (stage_of stage) }
    ensures answer { Gives result seen (taken_line book.now slices.now (stage_of stage)
        (cert_line text.now)) }
    ensures named { IfOk result (λ taken. AllNamed (stage_of taken.stage)) }
{
    let line = read_line(alloc, text, pairs)?;
    take_read(alloc, book, slices, stage, line, pairs)
}

// Takes a line that was read, or nothing where the text has the form of none.
fn take_read(
    alloc: Global,
    book: &Book,
    slices: &[Slice],
    stage: Stage,
    line: Option<Line>,
    pairs: &[Pair],
) -> Result<Taken, Fail<CertKind>>
    requires few { length slices.now < 2 ^ 32 }
    requires within { AreWithin book.now slices.now }
    requires named { AllNamed (stage_of stage) }
    requires pairs { IfSome line (λ l. HasPairs l pairs.now) }
    ensures answer { Gives result seen (taken_line book.now slices.now (stage_of stage) (option_map
        (λ l. line_of l pairs.now) line)) }
    ensures named { IfOk result (λ taken. AllNamed (stage_of taken.stage)) }
{
    if is_past_end(&stage) {
        return Err(Fail::Refused(CertKind::Trailing));
    }
    match line {
        None => Err(Fail::Refused(CertKind::Syntax)),
        Some(line) => take(alloc, book, slices, stage, &line, pairs),
    }
}

fn take(
    alloc: Global,
    book: &Book,
    slices: &[Slice],
    stage: Stage,
    line: &Line,
    pairs: &[Pair],
) -> Result<Taken, Fail<CertKind>>
    requires few { length slices.now < 2 ^ 32 }
    requires within { AreWithin book.now slices.now }
    requires named { AllNamed (stage_of stage) }
    requires pairs { HasPairs line.now pairs.now }
    ensures answer { let l = line_of line.now pairs.now in
        Gives result seen (and_then (after book.now slices.now (stage_of stage) l) (taken_as (is_step l))) }
    ensures named { IfOk result (λ taken. AllNamed (stage_of taken.stage)) }
{
    match after(alloc, book, slices, stage, line, pairs) {
        Ok(behind) => Ok(Taken {
            stage: behind,
            is_step: is_step(line),
        }),
        Err(fail) => Err(fail),
    }
}

//! What each line of a certificate does where it may stand.
ghost use Rattle.std.specs.Prelude.{◌≡◌, ◌+◌, ◌<◌, ◌≤◌, ◌^◌, List, IfOk, OnOk, length};
ghost use Rattle.clause_pool.specs.Chain.{chain};
ghost use Rattle.clause_pool.specs.declared.chain.Pair.{Pair};
ghost use Rattle.pb_base.specs.declared.limits.TheConstants.{MOST_QUESTIONS};
ghost use Rattle.derivation.specs.After.{after, after_head, after_name, after_number, after_slices, after_within, close_next, closes, end_behind, first_left, is_good_set, next_slice, opened, step_kind, with_clause};
ghost use Rattle.pb_base.specs.Answers.{Gives, Leaves};
ghost use Rattle.pb_base.specs.NamedSet.{set_of_names};
ghost use Rattle.derivation.specs.Kept.{AllNamed, NamesKept};
ghost use Rattle.derivation.specs.Limits.{AreWithin, asked_of};
ghost use Rattle.derivation.specs.Reading.{HasPairs, line_of, so_far_of, stage_of};
ghost use Rattle.derivation.specs.Stage.{within};

use crate::closing::to_close;
use crate::fault::CertKind;
use crate::laws::{checker_laws, coded_laws};
use crate::line::Line;
use crate::stage::{OpenSlice, Stage};
use book_model::{Book, Slice, is_good};
use clause_pool::{Checker, Lit, Pair, Ref, StepFault};
use clausify::coded_slice;
use pb_base::{CodeList, CodeSet, Day, Fail, Memory};
use std::alloc::Global;

/// The stage behind a line, or what is wrong with the line. The pairs are those of a step.
pub(crate) fn after(
    alloc: Global,
    book: &Book,
    slices: &[Slice],
    stage: Stage,
    line: &Line,
    pairs: &[Pair],
) -> Result<Stage, Fail<CertKind>>
    requires few { length slices.now < 2 ^ 32 }
    requires within { AreWithin book.now slices.now }
    requires pairs { HasPairs line.now pairs.now }
    requires named { AllNamed (stage_of stage) }
    ensures answer { Gives result stage_of (after book.now slices.now (stage_of stage)
        (line_of line.now pairs.now)) }
    ensures named { IfOk result (λ behind. AllNamed (stage_of behind)) }
{
    let count = slices.len() as u32;
    match stage {
        Stage::Head => after_head(line),
        Stage::Book => after_name(book, count, line),
        Stage::Slices => after_slices(count, line),
        Stage::Set(number) => after_number(alloc, book, slices, number, line),
        Stage::Within(slice) => after_within(count, slice, line, pairs),
        Stage::End => Err(Fail::Refused(CertKind::Trailing)),
    }
}

fn after_head(line: &Line) -> Result<Stage, Fail<CertKind>>
    ensures answer { (pairs : List Pair) → Gives result stage_of (after_head (line_of line.now pairs)) }
    ensures named { IfOk result (λ behind. AllNamed (stage_of behind)) }
{
    match line {
        Line::Head => Ok(Stage::Book),
        _ => Err(Fail::Refused(CertKind::Syntax)),
    }
}

fn after_name(book: &Book, count: u32, line: &Line) -> Result<Stage, Fail<CertKind>>
    ensures answer { (pairs : List Pair)
        → Gives result stage_of (after_name book.now count (line_of line.now pairs)) }
    ensures named { IfOk result (λ behind. AllNamed (stage_of behind)) }
{
    match line {
        Line::Book { name, slices } => {
            if *name != *book.name() {
                return Err(Fail::Refused(CertKind::WrongBook));
            }
            if *slices != u64::from(count) {
                return Err(Fail::Refused(CertKind::WrongBook));
            }
            Ok(Stage::Slices)
        }
        _ => Err(Fail::Refused(CertKind::Syntax)),
    }
}

fn after_slices(count: u32, line: &Line) -> Result<Stage, Fail<CertKind>>
    ensures answer { (pairs : List Pair)
        → Gives result stage_of (after_slices count (line_of line.now pairs)) }
    ensures named { IfOk result (λ behind. AllNamed (stage_of behind)) }
{
    match line {
        Line::Slice(number) => next_slice(count, 0, None, *number),
        _ => Err(Fail::Refused(CertKind::Syntax)),
    }
}

// The slice line of the next slice, where this much is left of the one before.
fn next_slice(
    count: u32,
    next: u64,
    left: Option<CertKind>,
    number: u64,
) -> Result<Stage, Fail<CertKind>>
    ensures answer { Gives result stage_of (next_slice count next left number) }
    ensures named { IfOk result (λ behind. AllNamed (stage_of behind)) }
{
    if number != next {
        return Err(Fail::Refused(CertKind::Syntax));
    }
    if next >= u64::from(count) {
        return Err(Fail::Refused(CertKind::Syntax));
    }
    match left {
        Some(kind) => Err(Fail::Refused(kind)),
        None => Ok(Stage::Set(next as u32)),
    }
}

fn after_number(
    alloc: Global,
    book: &Book,
    slices: &[Slice],
    number: u32,
    line: &Line,
) -> Result<Stage, Fail<CertKind>>
    requires within { AreWithin book.now slices.now }
    ensures answer { (pairs : List Pair)
        → Gives result stage_of (after_number book.now slices.now number (line_of line.now pairs)) }
    ensures named { IfOk result (λ behind. AllNamed (stage_of behind)) }
{
    match line {
        Line::Set(names) => {
            if number as usize >= slices.len() {
                return Err(Fail::Refused(CertKind::Syntax));
            }
            let slice = &slices[number as usize];
            if !is_good_set(alloc, book, slice.first, names)? {
                return Err(Fail::Refused(CertKind::BadSet(number)));
            }
            let slice = open_slice(alloc, book, slice, number)?;
            Ok(Stage::Within(Box::new(alloc, slice)?))
        }
        _ => Err(Fail::Refused(CertKind::Syntax)),
    }
}

// Whether the names make a set, and it is good on a day.
fn is_good_set(alloc: Global, book: &Book, day: Day, names: &CodeList) -> Result<bool, Memory>
    ensures { IfOk result (λ good. good ≡ is_good_set book.now day (set_of_names book.now.codes names.now)) }
{
    match CodeSet::of_names(alloc, book.codes(), names.as_slice()) {
        Ok(set) => Ok(is_good(book, day, &set)),
        Err(Fail::Refused(_)) => Ok(false),
        Err(Fail::Memory) => Err(Memory),
    }
}

// A slice of which the set line has been read, with its clauses and nothing closed.
fn open_slice(alloc: Global, book: &Book, slice: &Slice, number: u32) -> Result<OpenSlice, Memory>
    requires { asked_of book.now slice.now ≤ MOST_QUESTIONS }
    ensures opened { IfOk result (λ s. so_far_of s ≡ opened book.now slice.now.first number) }
    ensures named { IfOk result (λ s. NamesKept (so_far_of s)) }
{
    let coded = coded_slice(alloc, book, slice)?;
    coded_laws(&coded);
    let to_close = to_close(alloc, &coded.questions)?;
    let checker = Checker::of(alloc, coded.pool);
    checker_laws(&checker);
    Ok(OpenSlice {
        slice: number,
        checker,
        to_close,
        closed: 0,
    })
}

fn after_within(
    count: u32,
    mut slice: Box<OpenSlice>,
    line: &Line,
    pairs: &[Pair],
) -> Result<Stage, Fail<CertKind>>
    requires pairs { HasPairs line.now pairs.now }
    requires named { NamesKept (so_far_of slice.value) }
    ensures answer { Gives result stage_of (after_within count (so_far_of slice.value)
        (line_of line.now pairs.now)) }
    ensures named { IfOk result (λ behind. AllNamed (stage_of behind)) }
{
    match line {
        Line::Step { start } => {
            derive(&mut *slice, *start, pairs)?;
            Ok(Stage::Within(slice))
        }
        Line::Close { question, clause } => {
            close_next(&mut *slice, *question, *clause)?;
            Ok(Stage::Within(slice))
        }
        Line::Slice(number) => {
            let next = u64::from(slice.slice) + 1;
            next_slice(count, next, first_left(&*slice), *number)
        }
        Line::End => end_behind(count, &*slice),
        _ => Err(Fail::Refused(CertKind::Syntax)),
    }
}

// Appends the resolvent of a chain.
fn derive(slice: &mut OpenSlice, start: Ref, pairs: &[Pair]) -> Result<(), Fail<CertKind>>
    requires { 0 < length pairs.now }
    ensures answer { Leaves result (within (so_far_of slice.new)) (with_clause (so_far_of slice.old)
        (chain slice.old.checker start pairs.now)) }
    ensures named { NamesKept (so_far_of slice.old) → OnOk result (NamesKept (so_far_of slice.new)) }
{
    match slice.checker.resolve(start, pairs) {
        Ok(_) => {
            checker_laws(&slice.checker);
            Ok(())
        }
        Err(Fail::Refused(fault)) => Err(Fail::Refused(step_kind(fault))),
        Err(Fail::Memory) => Err(Fail::Memory),
    }
}

fn step_kind(fault: StepFault) -> CertKind
    ensures { result ≡ step_kind fault }
{
    match fault {
        StepFault::NoSuchStep(_) => CertKind::NoSuchStep,
        StepFault::NoPivot(_) => CertKind::NoPivot,
    }
}

// Closes the next question by a clause.
fn close_next(slice: &mut OpenSlice, question: u64, clause: Ref) -> Result<(), Fail<CertKind>>
    ensures named { NamesKept (so_far_of slice.old) → OnOk result (NamesKept (so_far_of slice.new)) }
    ensures answer { Leaves result (within (so_far_of slice.new)) (close_next (so_far_of slice.old)
        (so_far_of slice.old).left question clause) }
{
    if slice.closed >= slice.to_close.len() {
        return Err(Fail::Refused(CertKind::Syntax));
    }
    let next = slice.to_close[slice.closed];
    if question != u64::from(next.question) {
        return Err(Fail::Refused(CertKind::NotClosed(next.question)));
    }
    let pool = slice.checker.pool();
    if clause >= pool.len() {
        return Err(Fail::Refused(CertKind::NoSuchStep));
    }
    if !closes(next.goal, pool.lits(clause)) {
        return Err(Fail::Refused(CertKind::NotClosed(next.question)));
    }
    slice.closed += 1;
    Ok(())
}

/// Whether a clause has no literal but the complement of the goal.
pub(crate) fn closes(goal: Lit, clause: &[Lit]) -> bool
    ensures { result ≡ closes goal clause.now }
{
    let complement = goal.not();
    clause.iter().all(|lit| *lit == complement)
}

#[tactic(auto, using(crate::proofs::CloseLaws::some_left, crate::proofs::CloseLaws::none_left))]
fn first_left(slice: &OpenSlice) -> Option<CertKind>
    ensures { result ≡ first_left (so_far_of slice.now).left }
{
    if slice.closed >= slice.to_close.len() {
        return None;
    }
    Some(CertKind::NotClosed(slice.to_close[slice.closed].question))
}

fn end_behind(count: u32, slice: &OpenSlice) -> Result<Stage, Fail<CertKind>>
    ensures answer { Gives result stage_of (end_behind count ((so_far_of slice.now).slice + 1)
        (first_left (so_far_of slice.now).left)) }
    ensures named { IfOk result (λ behind. AllNamed (stage_of behind)) }
{
    if u64::from(slice.slice) + 1 != u64::from(count) {
        return Err(Fail::Refused(CertKind::Syntax));
    }
    match first_left(slice) {
        Some(kind) => Err(Fail::Refused(kind)),
        None => Ok(Stage::End),
    }
}

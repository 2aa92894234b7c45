//! The questions of a slice.
ghost use Rattle.std.specs.Prelude.{◌≡◌, ◌+◌, ◌*◌, ◌<◌, ◌≤◌, ◌^◌, [], ◌∷◌, All, IfOk, OnOk, None, Some, true, drop, length, slice_get, if◌then◌else◌};
ghost use Rattle.std.specs.List.{list_any};
ghost use Rattle.book_model.specs.Slices.{IsOrdered, IsSteady};
ghost use Rattle.clause_pool.specs.Clause.{AreBelow};
ghost use Rattle.clausify.specs.Coded.{slice_asked, slice_clauses, slice_variables};
ghost use Rattle.clausify.specs.Goals.{void_asked};
ghost use Rattle.chains.specs.Growth.{ClosedAt, given_of};
ghost use Rattle.derivation.specs.Limits.{asked_of};
ghost use Rattle.derivation.specs.Showing.{StandsOver};
ghost use Rattle.pb_base.specs.declared.limits.TheConstants.{MOST_QUESTIONS, MOST_BUDGET};
ghost use Rattle.slice_hints.specs.Found.{IsFound, KnowsUsages};
ghost use Rattle.solver.specs.Answer.{IsSpent};
ghost use Rattle.solver.specs.Solver.{IsRight, Onwards};
ghost use Rattle.findings.specs.Notes.{SliceNotes};
ghost use Rattle.findings.specs.Findings.{MeetsThrough};
ghost use Rattle.findings.specs.Answering.{SliceFacts, IsTask, IsAsked, IsOver, AreTold, ShowsUnlessStopped, inquiry, proof_in, stops};

use crate::answer::answer;
use crate::earlier::Earlier;
use crate::known::Known;
use crate::outcome::Told;
use crate::pairs::answer_pairs;
use crate::report::{Note, is_fault, is_left};
use crate::task::{SliceTask, is_asked};
use book_model::{Book, Slice};
use clause_pool::{Kernel, Lit, Pool, Ref};
use clausify::{Asked, Coded, LaidSlice, Layout, Question, laid_slice};
use derivation::{Closing, SliceProof};
use pb_base::{CodeSet, Day, Memory};
use slice_hints::{Found, Sets, found_with};
use solver::{Answer, Solver};
use std::alloc::Global;

/// What a check of a slice tells: its notes, and where none of them keeps the book from its release, what shows that.
#[derive(Drop)]
pub(crate) struct SliceCheck {
    pub(crate) notes: Vec<Note>,
    pub(crate) proof: Option<SliceProof>,
}

// A set that is good on each day of a slice, and the clauses of a kernel that close its questions.
#[derive(Drop)]
struct Shown {
    set: CodeSet,
    closed: Vec<Closing>,
}

// The same before the kernel is given back.
#[derive(Drop)]
struct SliceTold {
    notes: Vec<Note>,
    shown: Option<Shown>,
}

/// Asks the questions of a slice. Where Void has no set or is left, nothing more is asked. Sets of the slice before may
/// answer them; those of this one take their places.
pub(crate) fn check_slice(
    alloc: Global,
    book: &Book,
    task: SliceTask,
    earlier: &mut Earlier,
) -> Result<SliceCheck, Memory>
    requires steady { IsSteady book.now task.slice }
    requires order { IsOrdered task.slice }
    requires few { asked_of book.now task.slice ≤ MOST_QUESTIONS }
    requires some { 0 < task.effort.budget }
    requires budget { task.effort.budget ≤ MOST_BUDGET }
    requires earlier { All (KnowsUsages book.now) earlier.old.sets.items }
    ensures earlier { OnOk result (All (KnowsUsages book.now) earlier.new.sets.items) }
    ensures notes { IfOk result (λ c. SliceNotes (inquiry book.now task.effort) task.slice c.notes.items) }
    ensures proof { IfOk result (λ c. ShowsUnlessStopped book.now task.slice c.notes.items c.proof) }
{
    let laid = laid_slice(alloc, book, &task.slice)?;
    let LaidSlice { coded, layout } = laid;
    let Coded {
        pool,
        vars,
        questions,
    } = coded;
    earlier.chains.go_on(layout);
    check_coded(alloc, book, task, pool, vars, &questions, earlier)
}

// Asks the questions of a slice over its clauses.
fn check_coded(
    alloc: Global,
    book: &Book,
    task: SliceTask,
    clauses: Pool,
    vars: u32,
    questions: &[Asked],
    earlier: &mut Earlier,
) -> Result<SliceCheck, Memory>
    requires task { IsTask book.now task }
    requires clauses { clauses.clauses ≡ slice_clauses book.now task.slice.first }
    requires variables { vars ≡ slice_variables book.now task.slice.first }
    requires below { AreBelow (2 * vars) clauses.clauses }
    requires codes { length book.now.codes ≤ vars }
    requires questions { questions.now ≡ slice_asked book.now task.slice.first }
    requires count { length questions.now < 2 ^ 32 }
    requires asked { All (IsAsked book.now task.slice) (drop 1 questions.now) }
    requires void { (void_asked (length book.now.codes)).goal < 2 * vars }
    requires earlier { All (KnowsUsages book.now) earlier.old.sets.items }
    ensures earlier { OnOk result (All (KnowsUsages book.now) earlier.new.sets.items) }
    ensures notes { IfOk result (λ c. SliceNotes (inquiry book.now task.effort) task.slice c.notes.items) }
    ensures proof { IfOk result (λ c. ShowsUnlessStopped book.now task.slice c.notes.items c.proof) }
{
    let mut solver = begin(alloc, book, &task.slice, clauses, vars, earlier)?;
    let told = tell_slice(alloc, book, task, questions, &mut solver, earlier)?;
    conclude(book, &task.slice, told, solver, earlier)
}

/// A solver over clauses of a slice, with what can be derived again of the slice before.
#[tactic(auto, using(crate::proofs::AgainLaws::over_grown, crate::proofs::AgainLaws::below_grown))]
pub(crate) fn begin(
    alloc: Global,
    book: &Book,
    slice: &Slice,
    clauses: Pool,
    vars: u32,
    earlier: &mut Earlier,
) -> Result<Solver, Memory>
    requires below { AreBelow (2 * vars) clauses.clauses }
    requires codes { length book.now.codes ≤ vars }
    ensures over { IfOk result (λ s. StandsOver clauses.clauses s.kernel) }
    ensures vars { IfOk result (λ s. s.vars ≡ vars) }
    ensures codes { IfOk result (λ s. s.codes ≡ length book.now.codes) }
    ensures sets { earlier.new.sets ≡ earlier.old.sets }
{
    let mut kernel = Kernel::of(alloc, clauses);
    earlier.chains.derive_in(alloc, book, slice, &mut kernel)?;
    Solver::new(alloc, kernel, vars, book.codes().len())
}

// What is told of a slice, with the kernel that it stands in. What that derived is handed on.
fn conclude(
    book: &Book,
    slice: &Slice,
    told: SliceTold,
    solver: Solver,
    earlier: &mut Earlier,
) -> Result<SliceCheck, Memory>
    ensures notes { IfOk result (λ c. c.notes ≡ told.notes) }
    ensures proof { IfOk result (λ c. c.proof ≡ proof_in solver.kernel told.shown) }
    ensures sets { earlier.new.sets ≡ earlier.old.sets }
{
    // The engine's tables are gone before the chains are copied.
    let kernel = solver.into_kernel();
    earlier.chains.follow(book, slice, &kernel)?;
    Ok(told.in_kernel(kernel))
}

impl SliceTold {
    // The same with the kernel.
    fn in_kernel(self, kernel: Kernel) -> SliceCheck
        ensures notes { result.notes ≡ self.notes }
        ensures proof { result.proof ≡ proof_in kernel self.shown }
    {
        let SliceTold { notes, shown } = self;
        let Some(Shown { set, closed }) = shown else {
            return SliceCheck { notes, proof: None };
        };
        let proof = Some(SliceProof {
            set,
            kernel,
            closed,
        });
        SliceCheck { notes, proof }
    }
}

// Asks the questions of a slice: first Void, and then those behind it.
fn tell_slice(
    alloc: Global,
    book: &Book,
    task: SliceTask,
    questions: &[Asked],
    solver: &mut Solver,
    earlier: &mut Earlier,
) -> Result<SliceTold, Memory>
    requires task { IsTask book.now task }
    requires over { IsOver book.now task.slice solver.old }
    requires questions { questions.now ≡ slice_asked book.now task.slice.first }
    requires count { length questions.now < 2 ^ 32 }
    requires asked { All (IsAsked book.now task.slice) (drop 1 questions.now) }
    requires void { (void_asked (length book.now.codes)).goal < 2 * solver.old.vars }
    requires earlier { All (KnowsUsages book.now) earlier.old.sets.items }
    ensures earlier { OnOk result (All (KnowsUsages book.now) earlier.new.sets.items) }
    ensures onwards { Onwards solver.old solver.new }
    ensures notes { IfOk result (λ t. SliceNotes (inquiry book.now task.effort) task.slice t.notes.items) }
    ensures proof { IfOk result (λ t. ShowsUnlessStopped book.now task.slice t.notes.items
        (proof_in solver.new.kernel t.shown)) }
{
    let searched = ask_void(book, task, questions, solver)?;
    match searched {
        Answer::Set(set) => {
            let later = behind_first(questions);
            return tell_later(alloc, book, task, later, solver, set, earlier);
        }
        Answer::Closed(at) => {
            return void_closed(alloc, book, task, solver, at);
        }
        Answer::Spent(learnt) => {
            return void_left(alloc, book, task, learnt);
        }
    }
}

// The answer to Void, which is the first question.
fn ask_void(
    book: &Book,
    task: SliceTask,
    questions: &[Asked],
    solver: &mut Solver,
) -> Result<Answer, Memory>
    requires questions { questions.now ≡ slice_asked book.now task.slice.first }
    requires void { (void_asked (length book.now.codes)).goal < 2 * solver.old.vars }
    requires some { 0 < task.effort.budget }
    requires most { task.effort.budget ≤ MOST_BUDGET }
    ensures onwards { Onwards solver.old solver.new }
    ensures answer { IfOk result
        (IsRight solver.new ((void_asked (length book.now.codes)).goal ∷ []) task.effort.budget) }
{
    let _codes = book.codes();
    solver.solve(&[first_goal(questions)], task.effort.budget)
}

// What is told of a slice without a good set: a clause of the kernel refutes the goal of Void.
fn void_closed(
    alloc: Global,
    book: &Book,
    task: SliceTask,
    solver: &Solver,
    at: Ref,
) -> Result<SliceTold, Memory>
    requires facts { SliceFacts book.now task.slice }
    requires given { given_of solver.now.kernel ≡ slice_clauses book.now task.slice.first }
    requires closed { ClosedAt solver.now.kernel.clauses (void_asked (length book.now.codes)).goal at }
    ensures notes { IfOk result (λ t. SliceNotes (inquiry book.now task.effort) task.slice t.notes.items) }
    ensures stopped { IfOk result (λ t. list_any stops t.notes.items ≡ true) }
    ensures none { IfOk result (λ t. t.shown ≡ None) }
{
    solver.kernel().pool();
    let note = Note::Finding {
        question: Question::Void,
        set: None,
    };
    only_void(alloc, &task.slice, note)
}

// What is told of a slice of which Void was left.
fn void_left(alloc: Global, book: &Book, task: SliceTask, learnt: Pool) -> Result<SliceTold, Memory>
    requires spent { IsSpent (slice_variables book.now task.slice.first)
        (slice_clauses book.now task.slice.first)
        ((void_asked (length book.now.codes)).goal ∷ []) task.effort.budget learnt.clauses }
    ensures notes { IfOk result (λ t. SliceNotes (inquiry book.now task.effort) task.slice t.notes.items) }
    ensures stopped { IfOk result (λ t. list_any stops t.notes.items ≡ true) }
    ensures none { IfOk result (λ t. t.shown ≡ None) }
{
    let _codes = book.codes();
    let note = Note::Undecided {
        question: Question::Void,
        learnt,
    };
    only_void(alloc, &task.slice, note)
}

// The goal of the first question.
fn first_goal(questions: &[Asked]) -> Lit
    requires { 0 < length questions.now }
    ensures { (a : Asked) → slice_get questions.now 0 ≡ Some a → result ≡ a.goal }
{
    questions[0].goal
}

// The questions behind the first.
fn behind_first(questions: &[Asked]) -> &[Asked]
    requires { 0 < length questions.now }
    ensures { result.now ≡ drop 1 questions.now }
{
    &questions[1..]
}

/// The notes of a slice without a good set.
pub(crate) fn void_note(alloc: Global, slice: &Slice) -> Result<Vec<Note>, Memory>
    ensures { IfOk result (λ notes. notes.items
        ≡ Note.Days slice.now.first slice.now.last ∷ Note.Finding Question.Void None ∷ []) }
{
    let mut notes = days_note(alloc, slice)?;
    notes.push(Note::Finding {
        question: Question::Void,
        set: None,
    })?;
    Ok(notes)
}

// The notes of a slice of which only Void was asked.
fn only_void(alloc: Global, slice: &Slice, note: Note) -> Result<SliceTold, Memory>
    ensures notes { IfOk result (λ t. t.notes.items
        ≡ Note.Days slice.now.first slice.now.last ∷ note ∷ []) }
    ensures none { IfOk result (λ t. t.shown ≡ None) }
{
    let mut notes = days_note(alloc, slice)?;
    notes.push(note)?;
    Ok(SliceTold { notes, shown: None })
}

// The note that the notes of a slice begin with.
fn days_note(alloc: Global, slice: &Slice) -> Result<Vec<Note>, Memory>
    ensures { IfOk result (λ notes. notes.items ≡ Note.Days slice.now.first slice.now.last ∷ []) }
{
    let mut notes = Vec::new(alloc);
    notes.push(Note::Days {
        first: slice.first,
        last: slice.last,
    })?;
    Ok(notes)
}

// Asks the questions behind Void, which this set answers.
fn tell_later(
    alloc: Global,
    book: &Book,
    task: SliceTask,
    later: &[Asked],
    solver: &mut Solver,
    set: CodeSet,
    earlier: &mut Earlier,
) -> Result<SliceTold, Memory>
    requires task { IsTask book.now task }
    requires asked { All (IsAsked book.now task.slice) later.now }
    requires later { later.now ≡ drop 1 (slice_asked book.now task.slice.first) }
    requires count { length later.now + 1 < 2 ^ 32 }
    requires over { IsOver book.now task.slice solver.old }
    requires counted { length set ≡ length book.now.codes }
    requires void { MeetsThrough book.now task.slice Question.Void set }
    requires earlier { All (KnowsUsages book.now) earlier.old.sets.items }
    ensures earlier { OnOk result (All (KnowsUsages book.now) earlier.new.sets.items) }
    ensures onwards { Onwards solver.old solver.new }
    ensures notes { IfOk result (λ t. SliceNotes (inquiry book.now task.effort) task.slice t.notes.items) }
    ensures proof { IfOk result (λ t. ShowsUnlessStopped book.now task.slice t.notes.items
        (proof_in solver.new.kernel t.shown)) }
{
    let told = ask_later(alloc, book, task, later, solver, &set, earlier)?;
    put_together(alloc, &task.slice, told, set)
}

// What is told of the questions behind Void, which this set answers. The sets that were found are handed on.
fn ask_later(
    alloc: Global,
    book: &Book,
    task: SliceTask,
    later: &[Asked],
    solver: &mut Solver,
    set: &CodeSet,
    earlier: &mut Earlier,
) -> Result<Told, Memory>
    requires task { IsTask book.now task }
    requires asked { All (IsAsked book.now task.slice) later.now }
    requires count { length later.now + 1 < 2 ^ 32 }
    requires over { IsOver book.now task.slice solver.old }
    requires counted { length set.now ≡ length book.now.codes }
    requires void { MeetsThrough book.now task.slice Question.Void set.now }
    requires earlier { All (KnowsUsages book.now) earlier.old.sets.items }
    ensures earlier { OnOk result (All (KnowsUsages book.now) earlier.new.sets.items) }
    ensures onwards { Onwards solver.old solver.new }
    ensures told { IfOk result (λ told. AreTold (inquiry book.now task.effort) task.slice later.now told
        solver.new.kernel.clauses) }
{
    let mut sets = first_sets(alloc, book, &task.slice, set, &mut earlier.sets)?;
    let layout = earlier.chains.layout();
    let told = ask_with(alloc, book, task, later, layout, solver, &mut sets)?;
    sets.hand_on(&mut earlier.sets)?;
    Ok(told)
}

/// This set, and those of the slice before that are good in this one too.
pub(crate) fn first_sets(
    alloc: Global,
    book: &Book,
    slice: &Slice,
    set: &CodeSet,
    earlier: &mut Vec<Found>,
) -> Result<Sets, Memory>
    requires order { slice.now.first ≤ slice.now.last }
    requires counted { length set.now ≡ length book.now.codes }
    requires void { MeetsThrough book.now slice.now Question.Void set.now }
    requires earlier { All (KnowsUsages book.now) earlier.old.items }
    ensures { IfOk result (All (IsFound book.now slice.now.first)) }
{
    let mut sets = first_set(alloc, book, slice, set)?;
    sets.put_earlier(book, slice.first, earlier)?;
    Ok(sets)
}

// This set alone.
fn first_set(alloc: Global, book: &Book, slice: &Slice, set: &CodeSet) -> Result<Sets, Memory>
    requires order { slice.now.first ≤ slice.now.last }
    requires counted { length set.now ≡ length book.now.codes }
    requires void { MeetsThrough book.now slice.now Question.Void set.now }
    ensures { IfOk result (All (IsFound book.now slice.now.first)) }
{
    let found = found_with(alloc, book, set.copy(alloc)?)?;
    let mut sets = Sets::new(alloc, book)?;
    sets.put(found)?;
    Ok(sets)
}

// What is told of a slice whose questions behind Void have these notes and closings.
fn put_together(alloc: Global, slice: &Slice, told: Told, set: CodeSet) -> Result<SliceTold, Memory>
    ensures notes { IfOk result (λ t. t.notes.items
        ≡ Note.Days slice.now.first slice.now.last ∷ told.notes.items) }
    ensures shown { IfOk result (λ t. t.shown ≡ (if list_any stops told.notes.items then None
        else Some (record { set = set; closed = told.closed }))) }
{
    let Told { mut notes, closed } = told;
    let stopped = any_stops(&notes);
    let notes = with_days(alloc, slice, &mut notes)?;
    Ok(shown_unless(stopped, notes, Shown { set, closed }))
}

/// The notes of a slice whose questions have these.
pub(crate) fn with_days(
    alloc: Global,
    slice: &Slice,
    own: &mut Vec<Note>,
) -> Result<Vec<Note>, Memory>
    ensures { IfOk result (λ notes. notes.items
        ≡ Note.Days slice.now.first slice.now.last ∷ own.old.items) }
{
    let mut notes = days_note(alloc, slice)?;
    notes.append(own)?;
    Ok(notes)
}

// The notes, and what is shown unless some note stops the release.
fn shown_unless(stopped: bool, notes: Vec<Note>, shown: Shown) -> SliceTold
    ensures { result ≡ record { notes = notes; shown = if stopped then None else Some shown } }
{
    if stopped {
        return SliceTold { notes, shown: None };
    }
    SliceTold {
        notes,
        shown: Some(shown),
    }
}

// Asks the questions of a slice behind Void, of which the first has the number 1.
#[tactic(auto, using(crate::proofs::SolverLaws::over_onwards, solver::proofs::PoolLaws::onwards_twice))]
fn ask_with(
    alloc: Global,
    book: &Book,
    task: SliceTask,
    later: &[Asked],
    layout: &Layout,
    solver: &mut Solver,
    sets: &mut Sets,
) -> Result<Told, Memory>
    requires task { IsTask book.now task }
    requires asked { All (IsAsked book.now task.slice) later.now }
    requires count { length later.now + 1 < 2 ^ 32 }
    requires over { IsOver book.now task.slice solver.old }
    requires sets { All (IsFound book.now task.slice.first) sets.old }
    ensures onwards { Onwards solver.old solver.new }
    ensures sets { All (IsFound book.now task.slice.first) sets.new }
    ensures told { IfOk result (λ told. AreTold (inquiry book.now task.effort) task.slice later.now told
        solver.new.kernel.clauses) }
{
    let mut known = Known::of(alloc, book, later, layout, solver)?;
    answer_pairs(alloc, book, task, later, solver, sets, &mut known)?;
    ask_each(alloc, book, task, later, solver, sets, &mut known)
}

// Asks each question in its turn.
#[tactic(auto, using(solver::proofs::PoolLaws::onwards_same))]
fn ask_each(
    alloc: Global,
    book: &Book,
    task: SliceTask,
    later: &[Asked],
    solver: &mut Solver,
    sets: &mut Sets,
    known: &mut Known<'_>,
) -> Result<Told, Memory>
    requires task { IsTask book.now task }
    requires asked { All (IsAsked book.now task.slice) later.now }
    requires count { length later.now + 1 < 2 ^ 32 }
    requires over { IsOver book.now task.slice solver.old }
    requires sets { All (IsFound book.now task.slice.first) sets.old }
    ensures onwards { Onwards solver.old solver.new }
    ensures sets { All (IsFound book.now task.slice.first) sets.new }
    ensures told { IfOk result (λ told. AreTold (inquiry book.now task.effort) task.slice later.now told
        solver.new.kernel.clauses) }
{
    let mut told = Told {
        notes: Vec::new(alloc),
        closed: Vec::new(alloc),
    };
    for (place, asked) in later.iter().enumerate() {
        if !is_asked(task.effort.ask, asked.question) {
            continue;
        }
        let outcome = answer(alloc, book, task, asked, solver, sets, known)?;
        told.put(place as u32 + 1, outcome)?;
    }
    Ok(told)
}

// Whether some note keeps the book from its release.
fn any_stops(notes: &[Note]) -> bool
    ensures { result ≡ list_any stops notes.now }
{
    notes.iter().any(|note| stops(note))
}

fn stops(note: &Note) -> bool
    ensures { result ≡ stops note.now }
{
    is_fault(note) || is_left(note)
}

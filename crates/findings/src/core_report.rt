//! The report of a slice, whose questions are asked over the clauses of the whole book. Where one is left the slice is checked over all
//! its own clauses.
ghost use Rattle.std.specs.Prelude.{◌≡◌, ◌++◌, All, IfOk, IfSome, OnOk, true};
ghost use Rattle.chains.specs.Growth.{given_of};
ghost use Rattle.clausify.specs.Questions.{HasSet, QuestionFits};
ghost use Rattle.slice_hints.specs.Found.{IsFound};
ghost use Rattle.solver.specs.Answer.{IsCore};
ghost use Rattle.findings.specs.Notes.{SliceNotes};
ghost use Rattle.findings.specs.Answering.{inquiry};
ghost use Rattle.findings.specs.Core.{AreToldOf, Asks, IsAsking, IsKnown, IsOverBook, OwnOf, later_questions, outcome_of_none};
ghost use Rattle.findings.specs.Outcomes.{notes_of};

use crate::answer::keep;
use crate::assuming::{are_consistent, assume, is_core};
use crate::book_known::BookKnown;
use crate::core_pairs::{is_first, pair_at, refute_alone, refute_both};
use crate::outcome::{Outcome, from_set};
use crate::questions::later_questions;
use crate::report::Note;
use crate::slice::{void_note, with_days};
use crate::task::{SliceTask, is_asked, with_few};
use book_model::{Book, Slice};
use clause_pool::{Lit, Ref};
use clausify::Question;
use pb_base::Memory;
use slice_hints::{Sets, found_with};
use solver::{Answer, Solver};
use std::alloc::Global;

/// A slice that is asked over the clauses of its book.
#[derive(Clone, Copy)]
pub(crate) struct Asking<'a> {
    pub(crate) task: SliceTask,
    /// The periods of the book's rules.
    pub(crate) periods: &'a [Slice],
    /// What says which of them the slice is in. Every question assumes it.
    pub(crate) on: &'a [Lit],
    /// By the place of a variant, the literal of its formula.
    pub(crate) usages: &'a [Lit],
}

/// The notes of a slice, unless a question is left. These sets are good on its first day.
pub(crate) fn report_core(
    alloc: Global,
    book: &Book,
    asking: Asking<'_>,
    solver: &mut Solver,
    sets: &mut Sets,
    known: &mut BookKnown<'_>,
) -> Result<Option<Vec<Note>>, Memory>
    requires asking { IsAsking book.now asking }
    requires known { IsKnown book.now asking sets.old solver.old }
    ensures known { OnOk result (IsKnown book.now asking.entry sets.new solver.new) }
    ensures notes { IfOk result (λ told. IfSome told
        (λ notes. SliceNotes (inquiry book.now asking.entry.task.effort) asking.entry.task.slice notes.items)) }
{
    if is_not_void(book, asking, sets) {
        return tell_behind(alloc, book, asking, solver, sets, known);
    }
    let searched = known.search(solver, asking.on, asking.task.effort.budget)?;
    match searched {
        Answer::Set(set) => {
            sets.put(found_with(alloc, book, set)?)?;
            tell_behind(alloc, book, asking, solver, sets, known)
        }
        Answer::Closed(at) => {
            let notes = void_closed(alloc, book, asking, solver, at)?;
            Ok(Some(notes))
        }
        Answer::Spent(_) => Ok(None),
    }
}

// Whether one of these sets is good in the slice.
fn is_not_void(book: &Book, asking: Asking<'_>, sets: &Sets) -> bool
    requires asking { IsAsking book.now asking }
    requires found { All (IsFound book.now asking.task.slice.first) sets.now }
    ensures { result ≡ true → HasSet book.now asking.entry.task.slice Question.Void }
{
    !sets.is_empty()
}

// What is told of a slice without a good set: a clause of the kernel has no literal but complements of what is assumed of it.
fn void_closed(
    alloc: Global,
    book: &Book,
    asking: Asking<'_>,
    solver: &Solver,
    at: Ref,
) -> Result<Vec<Note>, Memory>
    requires asking { IsAsking book.now asking }
    requires over { IsOverBook book.now asking.periods.now solver.now }
    requires core { IsCore solver.now.kernel asking.on.now at }
    ensures { IfOk result (λ notes.
        SliceNotes (inquiry book.now asking.entry.task.effort) asking.entry.task.slice notes.items) }
{
    solver.kernel().pool();
    let notes = void_note(alloc, &asking.task.slice)?;
    Ok(notes)
}

// Asks the questions behind Void, which a set answers.
fn tell_behind(
    alloc: Global,
    book: &Book,
    asking: Asking<'_>,
    solver: &mut Solver,
    sets: &mut Sets,
    known: &mut BookKnown<'_>,
) -> Result<Option<Vec<Note>>, Memory>
    requires asking { IsAsking book.now asking }
    requires known { IsKnown book.now asking sets.old solver.old }
    requires some { HasSet book.now asking.task.slice Question.Void }
    ensures known { OnOk result (IsKnown book.now asking.entry sets.new solver.new) }
    ensures notes { IfOk result (λ told. IfSome told
        (λ notes. SliceNotes (inquiry book.now asking.entry.task.effort) asking.entry.task.slice notes.items)) }
{
    let told = ask_behind(alloc, book, asking, solver, sets, known)?;
    match told {
        Some(mut own) => {
            let notes = with_days(alloc, &asking.task.slice, &mut own)?;
            Ok(Some(notes))
        }
        None => Ok(None),
    }
}

// The notes on the questions behind Void, unless one is left.
fn ask_behind(
    alloc: Global,
    book: &Book,
    asking: Asking<'_>,
    solver: &mut Solver,
    sets: &mut Sets,
    known: &mut BookKnown<'_>,
) -> Result<Option<Vec<Note>>, Memory>
    requires asking { IsAsking book.now asking }
    requires known { IsKnown book.now asking sets.old solver.old }
    ensures known { OnOk result (IsKnown book.now asking.entry sets.new solver.new) }
    ensures told { IfOk result (λ told. IfSome told (λ notes.
        AreToldOf (inquiry book.now asking.entry.task.effort) asking.entry.task.slice
        (later_questions book.now asking.entry.task.slice.first) notes.items)) }
{
    let questions = later_questions(alloc, book, asking.task.slice.first)?;
    answer_pairs(alloc, book, asking, &questions, solver, sets, known)?;
    ask_each(alloc, book, asking, &questions, solver, sets, known)
}

// Looks for what answers the questions for pairs, position by position.
fn answer_pairs(
    alloc: Global,
    book: &Book,
    asking: Asking<'_>,
    questions: &[Question],
    solver: &mut Solver,
    sets: &mut Sets,
    known: &mut BookKnown<'_>,
) -> Result<(), Memory>
    requires asking { IsAsking book.now asking }
    requires fits { All (QuestionFits book.now) questions.now }
    requires known { IsKnown book.now asking sets.old solver.old }
    ensures known { OnOk result (IsKnown book.now asking.entry sets.new solver.new) }
{
    for place in 0..questions.len() {
        answer_from(alloc, book, asking, questions, place, solver, sets, known)?;
    }
    Ok(())
}

// Looks for what answers the questions for the pairs of a position, if the first of them is at this place.
fn answer_from(
    alloc: Global,
    book: &Book,
    asking: Asking<'_>,
    questions: &[Question],
    place: usize,
    solver: &mut Solver,
    sets: &mut Sets,
    known: &mut BookKnown<'_>,
) -> Result<(), Memory>
    requires asking { IsAsking book.now asking }
    requires fits { All (QuestionFits book.now) questions.now }
    requires known { IsKnown book.now asking sets.old solver.old }
    ensures known { OnOk result (IsKnown book.now asking.entry sets.new solver.new) }
{
    let Some(pair) = pair_at(questions, asking.usages, place) else {
        return Ok(());
    };
    if !is_first(questions, asking.usages, &pair) {
        return Ok(());
    }
    let open = refute_alone(alloc, questions, asking, solver, sets, known, &pair)?;
    answer_open(alloc, book, asking, questions, &open, solver, sets, known)
}

// Looks for what answers the questions at these places.
fn answer_open(
    alloc: Global,
    book: &Book,
    asking: Asking<'_>,
    questions: &[Question],
    places: &[usize],
    solver: &mut Solver,
    sets: &mut Sets,
    known: &mut BookKnown<'_>,
) -> Result<(), Memory>
    requires asking { IsAsking book.now asking }
    requires fits { All (QuestionFits book.now) questions.now }
    requires known { IsKnown book.now asking sets.old solver.old }
    ensures known { OnOk result (IsKnown book.now asking.entry sets.new solver.new) }
{
    let mut assumed = Vec::new(alloc);
    for place in places {
        answer_at(
            alloc,
            book,
            asking,
            questions,
            *place,
            &mut assumed,
            solver,
            sets,
            known,
        )?;
    }
    Ok(())
}

// Looks for what answers the question for a pair, which is at this place.
#[tactic(auto, using(crate::proofs::CoreLaws::known_onwards))]
fn answer_at(
    alloc: Global,
    book: &Book,
    asking: Asking<'_>,
    questions: &[Question],
    place: usize,
    assumed: &mut Vec<Lit>,
    solver: &mut Solver,
    sets: &mut Sets,
    known: &mut BookKnown<'_>,
) -> Result<(), Memory>
    requires asking { IsAsking book.now asking }
    requires fits { All (QuestionFits book.now) questions.now }
    requires known { IsKnown book.now asking sets.old solver.old }
    ensures known { OnOk result (IsKnown book.now asking.entry sets.new solver.new) }
{
    let Some(pair) = pair_at(questions, asking.usages, place) else {
        return Ok(());
    };
    if refute_both(asking, solver, sets, known, &pair)? {
        return Ok(());
    }
    let Some(question) = questions.get(place) else {
        return Ok(());
    };
    let before = solver.kernel().pool().len();
    answer_soon(alloc, book, asking, *question, assumed, solver, sets, known)?;
    known.share_after(solver, before)
}

// Looks for what answers a question before its turn, with few clauses learnt.
fn answer_soon(
    alloc: Global,
    book: &Book,
    asking: Asking<'_>,
    question: Question,
    assumed: &mut Vec<Lit>,
    solver: &mut Solver,
    sets: &mut Sets,
    known: &mut BookKnown<'_>,
) -> Result<(), Memory>
    requires asking { IsAsking book.now asking }
    requires fits { QuestionFits book.now question }
    requires known { IsKnown book.now asking sets.old solver.old }
    ensures known { OnOk result (IsKnown book.now asking.entry sets.new solver.new) }
{
    let few = Asking {
        task: SliceTask {
            slice: asking.task.slice,
            effort: with_few(asking.task.effort),
        },
        periods: asking.periods,
        on: asking.on,
        usages: asking.usages,
    };
    let answered = answer(alloc, book, few, question, assumed, solver, sets, known)?;
    drop(answered);
    Ok(())
}

// Asks each question in its turn. None where one is left.
fn ask_each(
    alloc: Global,
    book: &Book,
    asking: Asking<'_>,
    questions: &[Question],
    solver: &mut Solver,
    sets: &mut Sets,
    known: &mut BookKnown<'_>,
) -> Result<Option<Vec<Note>>, Memory>
    requires asking { IsAsking book.now asking }
    requires fits { All (QuestionFits book.now) questions.now }
    requires known { IsKnown book.now asking sets.old solver.old }
    ensures known { OnOk result (IsKnown book.now asking.entry sets.new solver.new) }
    ensures told { IfOk result (λ told. IfSome told (λ notes.
        AreToldOf (inquiry book.now asking.entry.task.effort) asking.entry.task.slice questions.now notes.items)) }
{
    let mut notes = Vec::new(alloc);
    let mut assumed = Vec::new(alloc);
    for question in questions {
        if !is_asked(asking.task.effort.ask, *question) {
            continue;
        }
        let answered = answer(
            alloc,
            book,
            asking,
            *question,
            &mut assumed,
            solver,
            sets,
            known,
        )?;
        match answered {
            Some(outcome) => put(&mut notes, outcome)?,
            None => return Ok(None),
        }
    }
    Ok(Some(notes))
}

// Puts down what comes of a question.
fn put(notes: &mut Vec<Note>, outcome: Outcome) -> Result<(), Memory>
    ensures { OnOk result (notes.new.items ≡ notes.old.items ++ notes_of outcome) }
{
    match outcome {
        Outcome::Noted(note) => notes.push(note)?,
        Outcome::Fine => {}
        Outcome::Closed(_) => {}
    }
    Ok(())
}

// What comes of a question. None where it is left.
fn answer(
    alloc: Global,
    book: &Book,
    asking: Asking<'_>,
    question: Question,
    assumed: &mut Vec<Lit>,
    solver: &mut Solver,
    sets: &mut Sets,
    known: &mut BookKnown<'_>,
) -> Result<Option<Outcome>, Memory>
    requires asking { IsAsking book.now asking }
    requires fits { QuestionFits book.now question }
    requires known { IsKnown book.now asking sets.old solver.old }
    ensures known { OnOk result (IsKnown book.now asking.entry sets.new solver.new) }
    ensures told { IfOk result (λ told. IfSome told (λ outcome.
        OwnOf (inquiry book.now asking.entry.task.effort) asking.entry.task.slice question (notes_of outcome))) }
{
    match sets.met(book, asking.task.slice.first, question) {
        Some(found) => {
            let outcome = from_set(alloc, question, &found.set)?;
            return Ok(Some(outcome));
        }
        None => {}
    }
    let is_known = assume(
        assumed,
        book,
        asking.task.slice.first,
        asking.usages,
        question,
    )?;
    if !is_known {
        return Ok(None);
    }
    if is_refuted(book, asking, question, solver, known, assumed) {
        return Ok(Some(from_none(question)));
    }
    let all = with_periods(alloc, asking.on, assumed)?;
    seek(
        alloc, book, asking, question, assumed, &all, solver, sets, known,
    )
}

// What every question of the slice assumes, and what this one does.
fn with_periods(alloc: Global, on: &[Lit], assumed: &[Lit]) -> Result<Vec<Lit>, Memory>
    ensures { IfOk result (λ all. all.items ≡ on.now ++ assumed.now) }
{
    let mut all = Vec::new(alloc);
    all.extend_from_slice(on)?;
    all.extend_from_slice(assumed)?;
    Ok(all)
}

// What comes of a question by a search. It assumes all these literals.
fn seek(
    alloc: Global,
    book: &Book,
    asking: Asking<'_>,
    question: Question,
    own: &[Lit],
    all: &[Lit],
    solver: &mut Solver,
    sets: &mut Sets,
    known: &mut BookKnown<'_>,
) -> Result<Option<Outcome>, Memory>
    requires asking { IsAsking book.now asking }
    requires fits { QuestionFits book.now question }
    requires asks { Asks book.now asking.task.slice question (given_of solver.old.kernel) solver.old.vars all.now }
    requires known { IsKnown book.now asking sets.old solver.old }
    ensures known { OnOk result (IsKnown book.now asking.entry sets.new solver.new) }
    ensures told { IfOk result (λ told. IfSome told (λ outcome.
        OwnOf (inquiry book.now asking.entry.task.effort) asking.entry.task.slice question (notes_of outcome))) }
{
    if !are_consistent(all) {
        return Ok(Some(from_none(question)));
    }
    known.point(solver, book, asking.task.slice.first, sets, question);
    let searched = solver.solve(all, asking.task.effort.budget)?;
    match searched {
        Answer::Set(set) => {
            let outcome = keep(alloc, book, asking.task.slice.first, question, set, sets)?;
            Ok(Some(outcome))
        }
        Answer::Closed(at) => {
            known.cores.put(solver.kernel(), question, own, at);
            Ok(Some(closed_outcome(book, asking, question, solver, all, at)))
        }
        Answer::Spent(_) => Ok(None),
    }
}

// Whether a clause is known that shows that a question has no set, which assumes these literals beside those of the periods.
fn is_refuted(
    book: &Book,
    asking: Asking<'_>,
    question: Question,
    solver: &Solver,
    known: &BookKnown<'_>,
    assumed: &[Lit],
) -> bool
    requires asking { IsAsking book.now asking }
    requires over { IsOverBook book.now asking.periods.now solver.now }
    ensures { result ≡ true
        → Asks book.now asking.entry.task.slice question (given_of solver.now.kernel) solver.now.vars
        (asking.entry.on.now ++ assumed.now) → HasSet book.now asking.entry.task.slice question → ⊥ }
{
    let kernel = solver.kernel();
    let _codes = book.codes();
    match known.cores.at(question, assumed) {
        Some(at) => is_core(kernel, asking.on, assumed, at),
        None => false,
    }
}

// What comes of a question of which a clause of the kernel shows that it has no set.
fn closed_outcome(
    book: &Book,
    asking: Asking<'_>,
    question: Question,
    solver: &Solver,
    all: &[Lit],
    at: Ref,
) -> Outcome
    requires fits { QuestionFits book.now question }
    requires asks { Asks book.now asking.task.slice question (given_of solver.now.kernel) solver.now.vars all.now }
    requires core { IsCore solver.now.kernel all.now at }
    ensures { OwnOf (inquiry book.now asking.entry.task.effort) asking.entry.task.slice question (notes_of result) }
{
    solver.kernel().pool();
    from_none(question)
}

// What comes of a question that has no set.
fn from_none(question: Question) -> Outcome
    ensures { result ≡ outcome_of_none question }
{
    if question.is_to_close() {
        return Outcome::Fine;
    }
    Outcome::Noted(Note::Finding {
        question,
        set: None,
    })
}

//! The check of one slice.
ghost use Rattle.std.specs.Prelude.{◌≡◌, ◌∷◌, ◌<◌, ◌≤◌, All, IfOk, OnOk, length, map, true};
ghost use Rattle.pb_base.specs.InParts.{InParts};
ghost use Rattle.supplement_findings.specs.Answering.{AreTouched, IsBuilt, IsCounted, IsPosed, IsSource, IsTask, inquiry};
ghost use Rattle.supplement_findings.specs.Notes.{OwnNotes, SliceNotes};
ghost use Rattle.supplement_findings.specs.NoteOf.{note_of};
ghost use Rattle.supplement_findings.specs.Questions.{all_questions, is_put, QuestionFits};
ghost use Rattle.supplement_findings.specs.declared.report.SupplementNote.TheVariants.{Days};

use crate::group::group_of;
use crate::question::SupplementQuestion;
use crate::questions::questions_on;
use crate::report::SupplementNote;
use crate::source::DayQuestions;
use book_model::{Book, Slice};
use inquiry::{KeptSets, Told, answer_all};
use pb_base::{Day, Memory, Sequence};
use std::alloc::Global;

/// A slice, and how many clauses may be learnt for each of its questions.
#[derive(Clone, Copy)]
pub(crate) struct SliceTask {
    pub slice: Slice,
    pub budget: u32,
}

/// The notes on a slice, its days first. The sets are those that answered questions of earlier slices, and then of this one, too.
pub(crate) fn check_slice(
    alloc: Global,
    book: &Book,
    task: SliceTask,
    all: &[SupplementQuestion],
    touched: &[Sequence<u32>],
    sets: &mut KeptSets,
) -> Result<Vec<SupplementNote>, Memory>
    requires task { IsTask book.now task }
    requires all { all.now ≡ all_questions book.now }
    requires touched { AreTouched (length book.now.codes) book.now.constructs touched.now }
    requires counted { All (IsCounted book.now) sets.old }
    ensures counted { All (IsCounted book.now) sets.new }
    ensures notes { IfOk result (λ notes. SliceNotes (inquiry book.now task.budget) task.slice notes.items) }
{
    book.codes();
    let questions = questions_on(alloc, book, task.slice.first, all)?;
    keep_built(alloc, book, task.slice.first, touched, sets)?;
    let own = notes_on(alloc, book, task, &questions, touched, sets)?;
    let notes = with_days(alloc, task.slice, own)?;
    Ok(notes)
}

// Lets go of the sets that are not constructible on a day.
fn keep_built(
    alloc: Global,
    book: &Book,
    day: Day,
    touched: &[Sequence<u32>],
    sets: &mut KeptSets,
) -> Result<(), Memory>
    requires touched { AreTouched (length book.now.codes) book.now.constructs touched.now }
    requires counted { All (IsCounted book.now) sets.old }
    ensures counted { All (IsCounted book.now) sets.new }
    ensures built { OnOk result (All (IsBuilt book.now day) sets.new) }
{
    book.codes();
    let source = DayQuestions {
        book,
        day,
        touched,
        codes: &[],
    };
    sets.keep_for(alloc, &source)
}

// The notes on questions of a slice.
fn notes_on(
    alloc: Global,
    book: &Book,
    task: SliceTask,
    questions: &[SupplementQuestion],
    touched: &[Sequence<u32>],
    sets: &mut KeptSets,
) -> Result<Vec<SupplementNote>, Memory>
    requires task { IsTask book.now task }
    requires fit { All (QuestionFits book.now) questions.now }
    requires put { All (λ q. is_put book.now task.slice.first q ≡ true) questions.now }
    requires touched { AreTouched (length book.now.codes) book.now.constructs touched.now }
    requires built { All (IsBuilt book.now task.slice.first) sets.old }
    ensures built { All (IsBuilt book.now task.slice.first) sets.new }
    ensures notes { let i = inquiry book.now task.budget in
        IfOk result (λ notes. InParts (OwnNotes i task.slice) questions.now notes.items) }
{
    book.codes();
    let mut notes = Vec::new(alloc);
    let mut at = 0;
    while at < questions.len() {
        let group = group_of(alloc, book, &questions[at..], touched)?;
        let source = DayQuestions {
            book,
            day: task.slice.first,
            touched,
            codes: &group.codes,
        };
        let end = at + group.len;
        let mut own = notes_by(alloc, &source, task, &questions[at..end], sets)?;
        notes.append(&mut own)?;
        at = end;
    }
    Ok(notes)
}

// The same of questions that a source may be asked.
fn notes_by(
    alloc: Global,
    source: &DayQuestions<'_>,
    task: SliceTask,
    questions: &[SupplementQuestion],
    sets: &mut KeptSets,
) -> Result<Vec<SupplementNote>, Memory>
    requires task { IsTask source.now.book.now task }
    requires day { source.now.day ≡ task.slice.first }
    requires ready { IsSource source.now.book.now source.now.touched.now source.now.codes.now }
    requires posed { All (IsPosed source.now.book.now task.slice.first source.now.codes.now) questions.now }
    requires built { All (IsBuilt source.now.book.now task.slice.first) sets.old }
    ensures built { All (IsBuilt source.now.book.now task.slice.first) sets.new }
    ensures notes { let i = inquiry source.now.book.now task.budget in
        IfOk result (λ notes. InParts (OwnNotes i task.slice) questions.now notes.items) }
{
    let told = answer_all(alloc, source, questions, task.budget, sets)?;
    let notes = notes_of(alloc, told)?;
    Ok(notes)
}

// The days of a slice, and the notes on its questions.
fn with_days(
    alloc: Global,
    slice: Slice,
    mut own: Vec<SupplementNote>,
) -> Result<Vec<SupplementNote>, Memory>
    ensures { IfOk result (λ notes. notes.items ≡ Days slice.first slice.last ∷ own.items) }
{
    let mut notes = Vec::new(alloc);
    notes.push(SupplementNote::Days {
        first: slice.first,
        last: slice.last,
    })?;
    notes.append(&mut own)?;
    Ok(notes)
}

// The notes that say what is told of questions.
fn notes_of(
    alloc: Global,
    told: Vec<Told<SupplementQuestion>>,
) -> Result<Vec<SupplementNote>, Memory>
    ensures { IfOk result (λ notes. notes.items ≡ map note_of told.items) }
{
    let notes = told.into_iter().map(|own| note_of(own)).collect(alloc)?;
    Ok(notes)
}

fn note_of(told: Told<SupplementQuestion>) -> SupplementNote
    ensures { result ≡ note_of told }
{
    match told {
        Told::Finding { question, set } => SupplementNote::Finding { question, set },
        Told::Undecided { question, learnt } => SupplementNote::Undecided { question, learnt },
    }
}

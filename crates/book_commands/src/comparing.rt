//! Compares the books of two texts, on a day or on all days.
ghost use Rattle.std.specs.Prelude.{◌≡◌, ◌++◌, ◌<◌, Some, Err, IfOk, OnOk, map};
ghost use Rattle.std.specs.Option.{option_map};
ghost use Rattle.pb_base.specs.Answers.{IfRefused};
ghost use Rattle.pb_outside.specs.Files.{FailsToRead};
ghost use Rattle.book_compare.specs.Comparison.{outside};
ghost use Rattle.release_check.specs.NotReleased.{IsRefusal};
ghost use Rattle.book_commands.specs.CompareReply.{comparison_status, comparison_reply, outside_reply, outside_text, IsReleased, RepliesByDay, RepliesOver, RepliesToSecond, RepliesToTexts, RepliesToCompare};
ghost use Rattle.book_commands.specs.Promise.{ReadsFiles};
ghost use Rattle.book_commands.specs.declared.comparing.Span.TheVariants.{OnDay, AllDays};
ghost use Rattle.book_commands.specs.declared.log.Note.TheVariants.{Compare};

use crate::changing::changed_reply;
use crate::check::kept_back_reply;
use crate::judge::book_fault_reply;
use crate::log::Note;
use crate::run_reply::RunReply;
use crate::run_status::RunStatus;
use book_compare::{CompareNote, Outside, any_finding, any_undecided, compare_by, compare_text};
use book_text::{BookFault, BookKind};
use command_words::{Budget, FileName, Workers};
use pb_base::limits::MOST_TEXT_BYTES;
use pb_base::{Body, Day, Fail, Memory, Text};
use pb_outside::{Files, OutError};
use release::Released;
use release_check::{NotReleased, try_release};
use std::alloc::Global;
use std::thread::Threads;

/// The days on which two books are compared.
#[derive(Clone, Copy)]
pub enum Span {
    /// One day.
    OnDay(Day),
    /// All days of both terms.
    AllDays,
}

/// What changes from the book of the text to the book in the file, on a day, by so many workers. Both texts are read before either is
/// looked at.
pub fn compare_reply<R: Threads + Sync, F: Files>(
    rt: &R,
    alloc: Global,
    text: &[u8],
    day: Day,
    file: &FileName,
    budget: &Budget,
    workers: &Workers,
    files: &mut F,
) -> Result<RunReply, OutError>
    ensures reply { IfOk result (RepliesToCompare text.now (OnDay day) file.now budget.now
        (F.told files.old) (F.told files.new)) }
    ensures cause { let fails = FailsToRead file.now (F.told files.old) (F.told files.new) in
        result ≡ Err OutError.Failed → fails }
    ensures kept { ReadsFiles (F.told files.old) (F.told files.new) }
{
    reply_over(
        rt,
        alloc,
        text,
        Span::OnDay(day),
        file,
        budget,
        workers.count(),
        files,
    )
}

/// The same on all days of both terms.
pub fn changes_reply<R: Threads + Sync, F: Files>(
    rt: &R,
    alloc: Global,
    text: &[u8],
    file: &FileName,
    budget: &Budget,
    workers: &Workers,
    files: &mut F,
) -> Result<RunReply, OutError>
    ensures reply { IfOk result (RepliesToCompare text.now AllDays file.now budget.now
        (F.told files.old) (F.told files.new)) }
    ensures cause { let fails = FailsToRead file.now (F.told files.old) (F.told files.new) in
        result ≡ Err OutError.Failed → fails }
    ensures kept { ReadsFiles (F.told files.old) (F.told files.new) }
{
    reply_over(
        rt,
        alloc,
        text,
        Span::AllDays,
        file,
        budget,
        workers.count(),
        files,
    )
}

fn reply_over<R: Threads + Sync, F: Files>(
    rt: &R,
    alloc: Global,
    text: &[u8],
    span: Span,
    file: &FileName,
    budget: &Budget,
    workers: u32,
    files: &mut F,
) -> Result<RunReply, OutError>
    requires { 0 < workers }
    ensures reply { IfOk result (RepliesToCompare text.now span file.now budget.now
        (F.told files.old) (F.told files.new)) }
    ensures cause { let fails = FailsToRead file.now (F.told files.old) (F.told files.new) in
        result ≡ Err OutError.Failed → fails }
    ensures kept { ReadsFiles (F.told files.old) (F.told files.new) }
{
    match files.read(alloc, file.as_str(), MOST_TEXT_BYTES) {
        Ok(content) => Ok(texts_reply(rt, alloc, text, content, span, budget, workers)?),
        Err(error) => Err(error),
    }
}

fn texts_reply<R: Threads + Sync>(
    rt: &R,
    alloc: Global,
    text: &[u8],
    content: Option<Vec<u8>>,
    span: Span,
    budget: &Budget,
    workers: u32,
) -> Result<RunReply, Memory>
    requires { 0 < workers }
    ensures { let second = option_map (λ bytes. bytes.items) content in
        IfOk result (RepliesToTexts text.now second span budget.now) }
{
    match released(alloc, text, budget) {
        Ok(book) => second_reply(rt, alloc, &book, content, span, budget, workers),
        Err(Fail::Refused(why)) => kept_back_reply(alloc, why),
        Err(Fail::Memory) => Err(Memory),
    }
}

fn second_reply<R: Threads + Sync>(
    rt: &R,
    alloc: Global,
    first: &Released,
    content: Option<Vec<u8>>,
    span: Span,
    budget: &Budget,
    workers: u32,
) -> Result<RunReply, Memory>
    requires { 0 < workers }
    ensures { let second = option_map (λ bytes. bytes.items) content in
        IfOk result (RepliesToSecond first.now.book second span budget.now) }
{
    match content {
        Some(text) => released_reply(rt, alloc, first, &text, span, budget, workers),
        None => book_fault_reply(
            alloc,
            BookFault {
                row: 0,
                kind: BookKind::TooLarge,
            },
        ),
    }
}

fn released_reply<R: Threads + Sync>(
    rt: &R,
    alloc: Global,
    first: &Released,
    text: &[u8],
    span: Span,
    budget: &Budget,
    workers: u32,
) -> Result<RunReply, Memory>
    requires { 0 < workers }
    ensures { IfOk result (RepliesToSecond first.now.book (Some text.now) span budget.now) }
{
    match released(alloc, text, budget) {
        Ok(second) => released_over(rt, alloc, first, &second, span, budget, workers),
        Err(Fail::Refused(why)) => kept_back_reply(alloc, why),
        Err(Fail::Memory) => Err(Memory),
    }
}

fn released_over<R: Threads + Sync>(
    rt: &R,
    alloc: Global,
    first: &Released,
    second: &Released,
    span: Span,
    budget: &Budget,
    workers: u32,
) -> Result<RunReply, Memory>
    requires { 0 < workers }
    ensures { IfOk result (RepliesOver span first.now.book second.now.book budget.now) }
{
    match span {
        Span::OnDay(day) => compared_reply(rt, alloc, first, second, day, budget, workers),
        Span::AllDays => changed_reply(rt, alloc, first, second, budget, workers),
    }
}

fn compared_reply<R: Threads + Sync>(
    rt: &R,
    alloc: Global,
    first: &Released,
    second: &Released,
    day: Day,
    budget: &Budget,
    workers: u32,
) -> Result<RunReply, Memory>
    requires { 0 < workers }
    ensures { let which = outside first.now.book second.now.book day in
        IfOk result (RepliesByDay which first.now.book second.now.book day budget.now) }
{
    match compare_by(rt, alloc, first, second, day, budget.clauses(), workers) {
        Ok(notes) => notes_reply(alloc, notes),
        Err(Fail::Refused(which)) => outside_reply(alloc, which),
        Err(Fail::Memory) => Err(Memory),
    }
}

// The released book of a text, with this budget for each question.
pub(crate) fn released(
    alloc: Global,
    text: &[u8],
    budget: &Budget,
) -> Result<Released, Fail<NotReleased>>
    ensures book { IfOk result (λ r. IsReleased text.now r.book) }
    ensures refused { IfRefused result (IsRefusal text.now budget.now) }
{
    match body_of(alloc, text) {
        Ok(copy) => try_release(alloc, copy, budget.clauses()),
        Err(Memory) => Err(Fail::Memory),
    }
}

fn body_of(alloc: Global, text: &[u8]) -> Result<Body, Memory>
    ensures { IfOk result (λ body. body ≡ text.now) }
{
    let bytes = Vec::from_slice(alloc, text)?;
    Ok(Body::of(bytes))
}

// The notes, which stand in the log too.
fn notes_reply(alloc: Global, notes: Vec<CompareNote>) -> Result<RunReply, Memory>
    ensures { IfOk result (λ reply. reply ≡ comparison_reply notes.items) }
{
    let text = compare_text(alloc, &notes)?;
    let status = comparison_status(&notes);
    let log = noted(alloc, notes)?;
    Ok(RunReply::new(text, status, log))
}

fn comparison_status(notes: &[CompareNote]) -> RunStatus
    ensures { result ≡ comparison_status notes.now }
{
    if any_finding(notes) {
        RunStatus::Refused
    } else if any_undecided(notes) {
        RunStatus::Undecided
    } else {
        RunStatus::Done
    }
}

// The notes of a comparison, moved.
fn noted(alloc: Global, notes: Vec<CompareNote>) -> Result<Vec<Note>, Memory>
    ensures { IfOk result (λ noted. noted.items ≡ map Compare notes.items) }
{
    let mut log = Vec::new(alloc);
    for note in notes {
        log.push(Note::Compare(note))?;
    }
    Ok(log)
}

// `day outside 1` or `day outside 2`.
fn outside_reply(alloc: Global, which: Outside) -> Result<RunReply, Memory>
    ensures { IfOk result (λ reply. reply ≡ outside_reply which) }
{
    let mut text = Text::new(alloc);
    put_outside(&mut text, which)?;
    Ok(RunReply::plain(alloc, text.into_body(), RunStatus::Faulty))
}

fn put_outside(text: &mut Text, which: Outside) -> Result<(), Memory>
    ensures { OnOk result (text.new ≡ text.old ++ outside_text which) }
{
    match which {
        Outside::First => text.put(b"day outside 1\n"),
        Outside::Second => text.put(b"day outside 2\n"),
    }
}

//! Whether the cars of a book keep the requirements of a file.
ghost use Rattle.std.specs.Prelude.{◌≡◌, ◌<◌, ◌^◌, All, Err, IfOk, Some, length, map};
ghost use Rattle.std.specs.Option.{option_map};
ghost use Rattle.book_text.specs.BookText.{book_of};
ghost use Rattle.kept_requirements.specs.Notes.{IsReport};
ghost use Rattle.pb_outside.specs.Files.{FailsToRead};
ghost use Rattle.requirements.specs.Requirements.{RequirementFits};
ghost use Rattle.book_commands.specs.Promise.{ReadsFiles};
ghost use Rattle.book_commands.specs.Require.{IsCheckReply, RepliesOnBook, RepliesToRequire, RepliesToTexts, require_status, requirement_fault_reply, require_reply};
ghost use Rattle.book_commands.specs.declared.log.Note.TheVariants.{Requirement as RequirementLogged};

use crate::check::limit_fault_reply;
use crate::judge::book_fault_reply;
use crate::log::Note;
use crate::run_reply::RunReply;
use crate::run_status::RunStatus;
use book_model::Book;
use book_text::{BookKind, read_book};
use command_words::{Budget, FileName, Workers};
use kept_requirements::{
    RequirementNote, any_fails, any_undecided, check_requirements, requirement_text,
};
use pb_base::limits::MOST_TEXT_BYTES;
use pb_base::{Fail, Memory};
use pb_outside::{Files, OutError};
use requirements::{
    Requirement, RequirementFault, RequirementKind, read_requirements, requirement_fault_text,
};
use std::alloc::Global;
use std::thread::Threads;

/// Whether the cars of the book of the text keep the requirements in the file, by so many workers. Both texts are read before either
/// is looked at.
pub fn require_reply<R: Threads + Sync, F: Files>(
    rt: &R,
    alloc: Global,
    text: &[u8],
    file: &FileName,
    budget: &Budget,
    workers: &Workers,
    files: &mut F,
) -> Result<RunReply, OutError>
    ensures reply { IfOk result (RepliesToRequire text.now file.now budget.now (F.told files.old) (F.told files.new)) }
    ensures cause { let fails = FailsToRead file.now (F.told files.old) (F.told files.new) in
        result ≡ Err OutError.Failed → fails }
    ensures kept { ReadsFiles (F.told files.old) (F.told files.new) }
{
    match files.read(alloc, file.as_str(), MOST_TEXT_BYTES) {
        Ok(content) => Ok(texts_reply(rt, alloc, text, content, budget, workers)?),
        Err(error) => Err(error),
    }
}

fn texts_reply<R: Threads + Sync>(
    rt: &R,
    alloc: Global,
    text: &[u8],
    content: Option<Vec<u8>>,
    budget: &Budget,
    workers: &Workers,
) -> Result<RunReply, Memory>
    ensures { let stated = option_map (λ bytes. bytes.items) content in
        IfOk result (RepliesToTexts (book_of text.now) stated budget.now) }
{
    match read_book(alloc, text) {
        Ok(book) => content_reply(rt, alloc, &book, content, budget, workers),
        Err(Fail::Refused(fault)) => book_fault_reply(alloc, fault),
        Err(Fail::Memory) => Err(Memory),
    }
}

fn content_reply<R: Threads + Sync>(
    rt: &R,
    alloc: Global,
    book: &Book,
    content: Option<Vec<u8>>,
    budget: &Budget,
    workers: &Workers,
) -> Result<RunReply, Memory>
    ensures { let stated = option_map (λ bytes. bytes.items) content in
        IfOk result (RepliesOnBook book.now stated budget.now) }
{
    match content {
        Some(text) => stated_reply(rt, alloc, book, &text, budget, workers),
        None => fault_reply(
            alloc,
            RequirementFault {
                row: 0,
                kind: RequirementKind::AsInBooks(BookKind::TooLarge),
            },
        ),
    }
}

fn stated_reply<R: Threads + Sync>(
    rt: &R,
    alloc: Global,
    book: &Book,
    text: &[u8],
    budget: &Budget,
    workers: &Workers,
) -> Result<RunReply, Memory>
    ensures { IfOk result (RepliesOnBook book.now (Some text.now) budget.now) }
{
    match read_requirements(alloc, text, book) {
        Ok(requirements) => checked_reply(rt, alloc, book, &requirements, budget, workers),
        Err(Fail::Refused(fault)) => fault_reply(alloc, fault),
        Err(Fail::Memory) => Err(Memory),
    }
}

fn checked_reply<R: Threads + Sync>(
    rt: &R,
    alloc: Global,
    book: &Book,
    requirements: &[Requirement],
    budget: &Budget,
    workers: &Workers,
) -> Result<RunReply, Memory>
    requires fit { All (RequirementFits (length book.now.codes)) requirements.now }
    requires few { length requirements.now < 2 ^ 31 }
    ensures { IfOk result (IsCheckReply book.now requirements.now budget.now) }
{
    match check_requirements(
        rt,
        alloc,
        book,
        requirements,
        budget.clauses(),
        workers.count(),
    ) {
        Ok(notes) => notes_reply(alloc, book, budget, notes),
        Err(Fail::Refused(fault)) => limit_fault_reply(alloc, fault),
        Err(Fail::Memory) => Err(Memory),
    }
}

// The notes, which stand in the log too.
fn notes_reply(
    alloc: Global,
    book: &Book,
    budget: &Budget,
    notes: Vec<RequirementNote>,
) -> Result<RunReply, Memory>
    ensures { IfOk result (λ reply. reply ≡ require_reply book.now budget.now notes.items) }
{
    let text = requirement_text(alloc, book, budget.clauses(), &notes)?;
    let status = require_status(&notes);
    let log = noted(alloc, notes)?;
    Ok(RunReply::new(text, status, log))
}

fn require_status(notes: &[RequirementNote]) -> RunStatus
    ensures { result ≡ require_status notes.now }
{
    if any_fails(notes) {
        RunStatus::Refused
    } else if any_undecided(notes) {
        RunStatus::Undecided
    } else {
        RunStatus::Done
    }
}

// The notes, moved.
fn noted(alloc: Global, notes: Vec<RequirementNote>) -> Result<Vec<Note>, Memory>
    ensures { IfOk result (λ noted. noted.items ≡ map RequirementLogged notes.items) }
{
    let mut log = Vec::new(alloc);
    for note in notes {
        log.push(Note::Requirement(note))?;
    }
    Ok(log)
}

// `requirement fault ..`, with the fault as a note.
fn fault_reply(alloc: Global, fault: RequirementFault) -> Result<RunReply, Memory>
    ensures { IfOk result (λ reply. reply ≡ requirement_fault_reply fault) }
{
    let text = requirement_fault_text(alloc, &fault)?;
    RunReply::noted(alloc, text, RunStatus::Faulty, Note::Stated(fault))
}

//! The reply that is due to a command that reads a book.
ghost use Rattle.std.specs.Prelude.{◌≡◌, IfOk};
ghost use Rattle.pb_outside.specs.Faults.{IsLater};
ghost use Rattle.book_commands.specs.Inputs.{inputs};
ghost use Rattle.book_commands.specs.RunReply.{due_of};
ghost use Rattle.book_commands.specs.Promises.{promise_of};
ghost use Rattle.book_commands.specs.Due.{Due};

use crate::ask::ask_reply;
use crate::certify::verify_reply;
use crate::check::{check_reply, proof_reply};
use crate::comparing::{changes_reply, compare_reply};
use crate::days::days_reply;
use crate::free::free_reply;
use crate::judge::order_reply;
use crate::object::Object;
use crate::require::require_reply;
use crate::run_reply::RunReply;
use crate::supplements::supplements_reply;
use crate::why::why_reply;
use command_words::BookCommand;
use pb_base::Memory;
use pb_base::limits::MOST_TEXT_BYTES;
use pb_outside::{Files, OutError, Source, read_up_to};
use std::alloc::Global;
use std::thread::Threads;

// One byte more than a book's text may have shows that it is too large.
const INPUT_LIMIT: usize = MOST_TEXT_BYTES + 1;

/// Reads the input, and what else the command reads, and gives the reply. Threads are used where the words ask for several workers.
pub fn due_reply<R: Threads + Sync, S: Source, F: Files>(
    rt: &R,
    alloc: Global,
    command: &BookCommand,
    source: &mut S,
    files: &mut F,
) -> Result<RunReply, Memory>
    ensures due { let before = inputs (S.input source.old) (F.told files.old) in
        let after = inputs (S.input source.new) (F.told files.new) in
        Due command.now before after (due_of result) }
    ensures source_later { IsLater (S.input source.old).faults (S.input source.new).faults }
    ensures files_kept { (promise_of command.now).keeps_files (F.told files.old) (F.told files.new) }
{
    let source_before = source.read_faults();
    let files_before = files.faults();
    let input = match read_up_to(alloc, source, INPUT_LIMIT) {
        Ok(input) => input,
        Err(OutError::Failed) => {
            return RunReply::read_fault(alloc, Object::Source, source_before, source.read_faults());
        }
        Err(OutError::Memory) => return Err(Memory),
    };
    match command_reply(rt, alloc, command, &input, files) {
        Ok(reply) => Ok(reply),
        Err(OutError::Failed) => RunReply::read_fault(
            alloc,
            Object::Files,
            files_before,
            files.faults(),
        ),
        Err(OutError::Memory) => Err(Memory),
    }
}

#[tactic(auto, unfolding(crate::specs::Promises::promise_of))]
fn command_reply<R: Threads + Sync, F: Files>(
    rt: &R,
    alloc: Global,
    command: &BookCommand,
    input: &[u8],
    files: &mut F,
) -> Result<RunReply, OutError>
    ensures reply { IfOk result ((promise_of command.now).replies input.now (F.told files.old) (F.told files.new)) }
    ensures cause { let fails = (promise_of command.now).fails_at_file input.now (F.told files.old) (F.told files.new) in
        result ≡ Err OutError.Failed → fails }
    ensures kept { (promise_of command.now).keeps_files (F.told files.old) (F.told files.new) }
{
    match command {
        BookCommand::Order { day, codes } => Ok(order_reply(alloc, input, *day, codes)?),
        BookCommand::Free { day, codes, budget } => {
            Ok(free_reply(alloc, input, *day, codes, budget)?)
        }
        BookCommand::Why { day, codes, budget } => {
            Ok(why_reply(alloc, input, *day, codes, budget)?)
        }
        BookCommand::Ask { day, rule, budget } => Ok(ask_reply(alloc, input, *day, rule, budget)?),
        BookCommand::Check { budget, workers } => {
            Ok(check_reply(rt, alloc, input, budget, workers)?)
        }
        BookCommand::Prove { budget, workers } => {
            Ok(proof_reply(rt, alloc, input, budget, workers)?)
        }
        BookCommand::Verify { file } => verify_reply(alloc, input, file, files),
        BookCommand::Supplements { budget, workers } => {
            Ok(supplements_reply(rt, alloc, input, budget, workers)?)
        }
        BookCommand::Compare {
            day,
            file,
            budget,
            workers,
        } => compare_reply(rt, alloc, input, *day, file, budget, workers, files),
        BookCommand::Days { codes } => Ok(days_reply(alloc, input, codes)?),
        BookCommand::Require {
            file,
            budget,
            workers,
        } => require_reply(rt, alloc, input, file, budget, workers, files),
        BookCommand::Changes {
            file,
            budget,
            workers,
        } => changes_reply(rt, alloc, input, file, budget, workers, files),
    }
}

//! Writes a run's text and gives its status.
ghost use Rattle.std.specs.Prelude.{[]};
ghost use Rattle.book_commands.specs.RunReply.{RunReply, usage_reply, memory_reply, due_of};
ghost use Rattle.book_commands.specs.Tells.{outputs, NotesSink, IsWritten, Tells};

use crate::log::{Note, RunLog};
use crate::object::Object;
use crate::run_reply::RunReply;
use crate::run_status::RunStatus;
use pb_base::Memory;
use pb_outside::Sink;

// Notes what the reply rests on, writes its text, and gives its status.
fn tell<K: Sink>(reply: RunReply, sink: &mut K, log: &mut RunLog) -> RunStatus
    ensures { let before = outputs (K.output sink.old) log.old in
        let after = outputs (K.output sink.new) log.new in
        Tells reply before after result }
{
    let (text, status, notes) = reply.into_parts();
    match log.append(notes) {
        Ok(()) => write(text.as_slice(), status, sink, log),
        Err(Memory) => tell_want_of_memory(sink, log),
    }
}

/// Tells a reply, or that memory is wanting where it could not be made.
pub fn tell_made<K: Sink>(
    reply: Result<RunReply, Memory>,
    sink: &mut K,
    log: &mut RunLog,
) -> RunStatus
    ensures { let before = outputs (K.output sink.old) log.old in
        let after = outputs (K.output sink.new) log.new in
        Tells (due_of reply) before after result }
{
    match reply {
        Ok(reply) => tell(reply, sink, log),
        Err(Memory) => tell_want_of_memory(sink, log),
    }
}

/// Tells how the program is called. This takes no memory.
pub fn tell_usage<K: Sink>(sink: &mut K, log: &mut RunLog) -> RunStatus
    ensures { let before = outputs (K.output sink.old) log.old in
        let after = outputs (K.output sink.new) log.new in
        IsWritten usage_reply before after result }
{
    write(
        b"usage: order DAY CODE.. | check [--budget N] | prove [--budget N] | verify CERTFILE | desk STORE | serve STORE PORT WORKERS LINKS | sample START CODES ORDERS | supplements [--budget N] | compare DAY FILE [--budget N] | rejudge STORE BOOK WORKERS\n",
        RunStatus::Usage,
        sink,
        log,
    )
}

/// Tells that memory is wanting. This takes none.
pub fn tell_want_of_memory<K: Sink>(sink: &mut K, log: &mut RunLog) -> RunStatus
    ensures { let before = outputs (K.output sink.old) log.old in
        let after = outputs (K.output sink.new) log.new in
        IsWritten memory_reply before after result }
{
    write(b"want of memory\n", RunStatus::WantOfMemory, sink, log)
}

// Writes a text, and gives its status. Where the sink fails, its counts are noted, and the status is that of a write fault,
// or of want of memory for the note.
fn write<K: Sink>(text: &[u8], status: RunStatus, sink: &mut K, log: &mut RunLog) -> RunStatus
    ensures { let before = outputs (K.output sink.old) log.old in
        let after = outputs (K.output sink.new) log.new in
        let reply : RunReply = record { text = text.now; status = status; notes = [] } in
        IsWritten reply before after result }
{
    let before = sink.write_faults();
    if sink.write(text).is_ok() {
        return status;
    }
    note_write_fault(before, sink.write_faults(), log)
}

/// Notes that the sink failed, with its counts of faults, and gives the status of a write fault, or of want of memory for the
/// note.
pub fn note_write_fault(before: u64, after: u64, log: &mut RunLog) -> RunStatus
    ensures { NotesSink before after log.old log.new result }
{
    let note = Note::Count {
        which: Object::Sink,
        before,
        after,
    };
    match log.push(note) {
        Ok(()) => RunStatus::WriteFault,
        Err(Memory) => RunStatus::WantOfMemory,
    }
}

//! What a run answers.
ghost use Rattle.std.specs.Prelude.{◌≡◌, [], ◌∷◌, ◌++◌, IfOk, OnOk};
ghost use Rattle.book_commands.specs.RunReply.{bad_row_reply, bad_row_text, read_fault_reply, store_fault_reply};

use crate::log::Note;
use crate::object::Object;
use crate::run_status::RunStatus;
use pb_base::{Body, Memory, Text, put_number};
use std::alloc::Global;
use std::marker::Model;

/// A text to write, the status that goes with it, and what the status rests on.
#[derive(Drop)]
pub struct RunReply {
    text: Body,
    status: RunStatus,
    notes: Vec<Note>,
}

impl Model for RunReply {
    ghost use Rattle.book_commands.specs.RunReply.{RunReply};

    ghost Value = { RunReply };

    ghost view = { λ r. record { text = r.text; status = r.status; notes = r.notes.items } };
}

impl RunReply {
    /// The status rests on these notes.
    pub fn new(text: Body, status: RunStatus, notes: Vec<Note>) -> RunReply
        ensures { result ≡ record { text = text; status = status; notes = notes.items } }
    {
        RunReply {
            text,
            status,
            notes,
        }
    }

    /// The status rests on nothing but the answer itself.
    pub fn plain(alloc: Global, text: Body, status: RunStatus) -> RunReply
        ensures { result ≡ record { text = text; status = status; notes = [] } }
    {
        RunReply::new(text, status, Vec::new(alloc))
    }

    /// The status rests on one thing.
    pub fn noted(
        alloc: Global,
        text: Body,
        status: RunStatus,
        note: Note,
    ) -> Result<RunReply, Memory>
        ensures { IfOk result (λ r. r ≡ record { text = text; status = status; notes = note ∷ [] }) }
    {
        let mut notes = Vec::new(alloc);
        notes.push(note)?;
        Ok(RunReply::new(text, status, notes))
    }

    /// The source or the files failed, with the counts of faults.
    pub fn read_fault(
        alloc: Global,
        which: Object,
        before: u64,
        after: u64,
    ) -> Result<RunReply, Memory>
        ensures { IfOk result (λ reply. reply ≡ read_fault_reply which before after) }
    {
        let mut text = Text::new(alloc);
        text.put(b"read fault\n")?;
        let note = Note::Count {
            which,
            before,
            after,
        };
        RunReply::noted(alloc, text.into_body(), RunStatus::ReadFault, note)
    }

    /// The keeper failed while the desk was started, with its counts of faults.
    pub fn store_fault(alloc: Global, before: u64, after: u64) -> Result<RunReply, Memory>
        ensures { IfOk result (λ reply. reply ≡ store_fault_reply before after) }
    {
        let mut text = Text::new(alloc);
        text.put(b"store fault\n")?;
        let note = Note::Count {
            which: Object::Keeper,
            before,
            after,
        };
        RunReply::noted(alloc, text.into_body(), RunStatus::NotStarted, note)
    }

    /// `bad row TABLE PLACE`: a row that is kept is not right.
    pub fn bad_row(alloc: Global, table: u32, place: u32) -> Result<RunReply, Memory>
        ensures { IfOk result (λ reply. reply ≡ bad_row_reply table place) }
    {
        let mut text = Text::new(alloc);
        put_bad_row(&mut text, table, place)?;
        let note = Note::BadRow { table, place };
        RunReply::noted(alloc, text.into_body(), RunStatus::NotStarted, note)
    }

    /// The text, the status and the notes.
    pub fn into_parts(self) -> (Body, RunStatus, Vec<Note>)
        ensures text { result.0 ≡ self.text }
        ensures status { result.1 ≡ self.status }
        ensures notes { result.2.items ≡ self.notes }
    {
        (self.text, self.status, self.notes)
    }
}

// `bad row TABLE PLACE`.
fn put_bad_row(text: &mut Text, table: u32, place: u32) -> Result<(), Memory>
    ensures { OnOk result (text.new ≡ text.old ++ bad_row_text table place) }
{
    text.put(b"bad row")?;
    put_number(text, u64::from(table))?;
    put_number(text, u64::from(place))?;
    text.put(b"\n")
}

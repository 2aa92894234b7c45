//! What is said of a case.

use crate::door::{PortFails, SaidLink};
use crate::named_text::NamedText;
use crate::said::number_in;
use crate::setting::Setting;
use commands::Object;
use pb_base::{Memory, Text};
use std::alloc::Global;

// Room for whatever a run writes.
const AMPLE_ROOM: u64 = 1_000_000;

/// What is said of a case: what its runs are handed, what of them is shown, and what has to come out.
#[derive(Drop)]
pub struct Case<'a> {
    /// Empty before the first case, where only texts stand.
    pub name: &'a str,
    /// The heads that are of no form, and the names of its texts that another text has.
    pub wrong: Vec<&'a str>,
    /// What has to come out. A case that says nothing of it is never as it says.
    pub comes: Text,
    /// Whether something else has to come out than it says.
    pub is_otherwise: bool,
    /// The words of each run, in a line.
    pub runs: Vec<&'a str>,
    pub input: Text,
    pub pieces: Vec<usize>,
    pub files: Vec<NamedText<'a>>,
    pub room: u64,
    pub source_fails: Vec<u64>,
    pub files_fails: Vec<u64>,
    pub sink_fails: Vec<u64>,
    pub keeper_fails: Vec<u64>,
    pub links: Vec<SaidLink<'a>>,
    pub door_fails: Vec<u64>,
    pub port_fails: Vec<PortFails<'a>>,
    /// How many bytes of what the sink took are shown.
    pub shown: u64,
    /// Whether the sets of findings are shown.
    pub shows_sets: bool,
    /// Whether it is shown how much of the input was left wrong.
    pub shows_rest: bool,
    pub inputs: Inputs,
}

/// Which inputs a run of a case is made on.
#[derive(Clone, Copy, PartialEq, Eq)]
pub enum Inputs {
    /// The input as it is.
    Whole,
    /// The input in two pieces, for each place between them.
    CutEverywhere,
    /// Each front of the input.
    EndedEverywhere,
    /// Each front of each message of the input, over the rows that the messages before it left.
    MessagesEnded,
}

impl<'a> Case<'a> {
    /// No run yet, over an empty input, no files, and a sink with ample room, of which no call fails.
    pub fn new(alloc: Global, name: &'a str) -> Case<'a> {
        Case {
            name,
            wrong: Vec::new(alloc),
            comes: Text::new(alloc),
            is_otherwise: false,
            runs: Vec::new(alloc),
            input: Text::new(alloc),
            pieces: Vec::new(alloc),
            files: Vec::new(alloc),
            room: AMPLE_ROOM,
            source_fails: Vec::new(alloc),
            files_fails: Vec::new(alloc),
            sink_fails: Vec::new(alloc),
            keeper_fails: Vec::new(alloc),
            links: Vec::new(alloc),
            door_fails: Vec::new(alloc),
            port_fails: Vec::new(alloc),
            shown: AMPLE_ROOM,
            shows_sets: true,
            shows_rest: true,
            inputs: Inputs::Whole,
        }
    }

    /// Whether it says nothing but texts.
    pub fn is_blank(&self) -> bool {
        self.name.is_empty()
            && self.runs.is_empty()
            && self.wrong.is_empty()
            && self.comes.bytes().is_empty()
    }

    /// Whether this is what it says of what has to come out.
    pub fn says(&self, came: &[u8]) -> bool {
        self.wrong.is_empty() && !came.is_empty() && self.comes.bytes() == came
    }

    /// Takes what holds for all its runs.
    pub fn set(&mut self, setting: &Setting<'a>) -> Result<(), Memory> {
        match setting {
            Setting::Fails(object, numbers) => return self.fail(*object, numbers),
            Setting::PortFails { port, fails } => {
                return Ok(
                    self.port_fails.push(PortFails {
                        port: *port,
                        fails: *fails,
                    })?,
                );
            }
            Setting::Pieces(lengths) => return self.part(lengths),
            Setting::Room(room) => self.room = *room,
            Setting::Shown(count) => self.shown = *count,
            Setting::AnySet => self.shows_sets = false,
            Setting::AnyRest => self.shows_rest = false,
            Setting::CutEverywhere => self.inputs = Inputs::CutEverywhere,
            Setting::EndedEverywhere => self.inputs = Inputs::EndedEverywhere,
            Setting::MessagesEnded => self.inputs = Inputs::MessagesEnded,
            Setting::Otherwise => self.is_otherwise = true,
        }
        Ok(())
    }

    // Has calls of an object fail.
    fn fail(&mut self, object: Object, numbers: &str) -> Result<(), Memory> {
        match object {
            Object::Source => put_numbers(&mut self.source_fails, numbers),
            Object::Files => put_numbers(&mut self.files_fails, numbers),
            Object::Sink => put_numbers(&mut self.sink_fails, numbers),
            Object::Keeper => put_numbers(&mut self.keeper_fails, numbers),
            Object::Door => put_numbers(&mut self.door_fails, numbers),
        }
    }

    // Has the source give its bytes in pieces.
    fn part(&mut self, lengths: &str) -> Result<(), Memory> {
        for word in lengths.split(' ') {
            if let Some(length) = number_in(word) {
                self.pieces.push(length as usize)?;
            }
        }
        Ok(())
    }
}

/// Puts the numbers that these words are behind others.
pub fn put_numbers(numbers: &mut Vec<u64>, words: &str) -> Result<(), Memory> {
    for word in words.split(' ') {
        if let Some(number) = number_in(word) {
            numbers.push(number)?;
        }
    }
    Ok(())
}

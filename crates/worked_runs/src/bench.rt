//! Goes through the sections of files of cases, and does the runs of each case.

use crate::case::Case;
use crate::door::SaidLink;
use crate::line::put_lines;
use crate::named_text::{NamedText, has_name};
use crate::piece::put_piece;
use crate::report::Report;
use crate::rows::{no_rows, put_row, rows_of};
use crate::runs::put_runs;
use crate::said::{Goal, Said, said_by};
use crate::section::{Section, sections_of};
use keeper::{MemoryKeeper, Rows};
use pb_base::{Memory, Text};
use std::alloc::Global;
use std::mem;
use std::sync::Wait;
use std::thread::Threads;

/// What was read of the cases so far, and what is to be told of them.
#[derive(Drop)]
pub struct Bench<'a> {
    alloc: Global,
    texts: Vec<NamedText<'a>>,
    /// Whether the cases of the file are done.
    does_cases: bool,
    case: Case<'a>,
    /// The text that is being written, and what it is for.
    written: Text,
    goal: Option<Goal<'a>>,
    /// What the sink took in the last run.
    taken: Vec<u8>,
    /// What the store of the last case has.
    kept: Rows,
    /// What the store of the case has before its first run.
    rows: Rows,
    report: Report<'a>,
}

impl<'a> Bench<'a> {
    /// Nothing is read yet. One case alone is to be told of where its name is given.
    pub fn new(alloc: Global, only: Option<&'a str>) -> Bench<'a> {
        Bench {
            alloc,
            texts: Vec::new(alloc),
            does_cases: false,
            case: Case::new(alloc, ""),
            written: Text::new(alloc),
            goal: None,
            taken: Vec::new(alloc),
            kept: no_rows(alloc),
            rows: no_rows(alloc),
            report: Report::new(alloc, only),
        }
    }

    /// Takes the texts of a file, and does all its cases where one of them is asked for: that one may take up what those before it
    /// leave.
    pub fn take_file<R: Threads + Wait + Sync>(
        &mut self,
        rt: &R,
        cases: &'a str,
    ) -> Result<(), Memory> {
        let sections = sections_of(self.alloc, cases)?;
        self.does_cases = self.asks_in(&sections);
        self.case = Case::new(self.alloc, "");
        self.take_all(rt, &sections)
    }

    /// Tells at the end of all files how many cases come out otherwise.
    pub fn end(&mut self) -> Result<(), Memory> {
        self.report.put_end()
    }

    /// What is told of the cases.
    pub fn report(&self) -> &Report<'a> {
        &self.report
    }

    fn take_all<R: Threads + Wait + Sync>(
        &mut self,
        rt: &R,
        sections: &[Section<'a>],
    ) -> Result<(), Memory> {
        for section in sections {
            self.take(rt, section)?;
        }
        self.end_case(rt)
    }

    // Whether one of the cases that these sections open is asked for.
    fn asks_in(&self, sections: &[Section<'a>]) -> bool {
        for section in sections {
            if section.opens_case && self.report.asks_for(section.head) {
                return true;
            }
        }
        false
    }

    fn take<R: Threads + Wait + Sync>(
        &mut self,
        rt: &R,
        section: &Section<'a>,
    ) -> Result<(), Memory> {
        if section.opens_case {
            return self.open_case(rt, section.head);
        }
        match said_by(section.head) {
            Some(said) => self.take_said(&said, &section.lines),
            None => Ok(self.case.wrong.push(section.head)?),
        }
    }

    fn open_case<R: Threads + Wait + Sync>(&mut self, rt: &R, name: &'a str) -> Result<(), Memory> {
        self.end_case(rt)?;
        self.case = Case::new(self.alloc, name);
        self.rows = no_rows(self.alloc);
        Ok(())
    }

    fn take_said(&mut self, said: &Said<'a>, lines: &[&'a str]) -> Result<(), Memory> {
        match said {
            Said::Begins(goal) => self.begin_text(*goal, lines),
            Said::Piece(piece) => put_piece(
                self.alloc,
                &mut self.written,
                piece,
                lines,
                &self.texts,
                &self.taken,
            ),
            Said::Words => Ok(self.case.runs.extend_from_slice(lines)?),
            Said::Comes => put_lines(&mut self.case.comes, lines),
            Said::KeptStore => {
                self.rows = mem::replace(&mut self.kept, no_rows(self.alloc));
                Ok(())
            }
            Said::Row(row) => put_row(self.alloc, &mut self.rows, row, &self.texts),
            Said::Set(setting) => self.case.set(setting),
        }
    }

    fn begin_text(&mut self, goal: Goal<'a>, lines: &[&'a str]) -> Result<(), Memory> {
        self.end_text()?;
        self.goal = Some(goal);
        put_lines(&mut self.written, lines)
    }

    // Hands the text that is being written to what it is for.
    fn end_text(&mut self) -> Result<(), Memory> {
        let text = mem::replace(&mut self.written, Text::new(self.alloc));
        match self.goal.take() {
            Some(Goal::Named(name)) => self.end_named(name, text),
            Some(Goal::Input) => {
                self.case.input = text;
                Ok(())
            }
            Some(Goal::File(name)) => Ok(self.case.files.push(NamedText { name, text })?),
            Some(
                Goal::Link {
                    port,
                    read_fails,
                    write_fails,
                },
            ) => Ok(
                self.case.links.push(SaidLink {
                    port,
                    read_fails,
                    write_fails,
                    text,
                })?,
            ),
            None => Ok(()),
        }
    }

    fn end_named(&mut self, name: &'a str, text: Text) -> Result<(), Memory> {
        if has_name(&self.texts, name) {
            return Ok(self.case.wrong.push(name)?);
        }
        Ok(self.texts.push(NamedText { name, text })?)
    }

    // Does the runs of the case, and tells of what came out of them.
    fn end_case<R: Threads + Wait + Sync>(&mut self, rt: &R) -> Result<(), Memory> {
        self.end_text()?;
        if !self.does_cases || self.case.is_blank() {
            return Ok(());
        }
        let rows = mem::replace(&mut self.rows, no_rows(self.alloc));
        let mut store = MemoryKeeper::new(rows, Vec::new(self.alloc));
        let mut came = Text::new(self.alloc);
        self.run_case(rt, &mut store, &mut came)
    }

    fn run_case<R: Threads + Wait + Sync>(
        &mut self,
        rt: &R,
        store: &mut MemoryKeeper,
        came: &mut Text,
    ) -> Result<(), Memory> {
        put_runs(rt, self.alloc, came, &self.case, store, &mut self.taken)?;
        self.kept = rows_of(self.alloc, store)?;
        self.report.put_case(&self.case, came.bytes())
    }
}

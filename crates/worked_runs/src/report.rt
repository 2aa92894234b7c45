//! What is told of the cases.

use crate::case::Case;
use crate::line::{put_line, put_line_with};
use pb_base::{Memory, Text};
use std::alloc::Global;

// How many lines are shown in front of the first that comes out otherwise.
const SHOWN_BEFORE: usize = 2;

/// What is told of the cases: of all, which come out otherwise than they say; or of those of one name, what comes out.
#[derive(Drop)]
pub struct Report<'a> {
    /// The name, where one is asked for.
    only: Option<&'a str>,
    text: Text,
    /// Whether there was a case, of that name where one is asked for.
    has_case: bool,
    /// How many came out otherwise than they say.
    otherwise: u64,
}

impl<'a> Report<'a> {
    /// The report before the first case.
    pub fn new(alloc: Global, only: Option<&'a str>) -> Report<'a> {
        Report {
            only,
            text: Text::new(alloc),
            has_case: false,
            otherwise: 0,
        }
    }

    /// Takes what came out of a case.
    pub fn put_case(&mut self, case: &Case<'_>, came: &[u8]) -> Result<(), Memory> {
        if !self.asks_for(case.name) {
            return Ok(());
        }
        self.has_case = true;
        if !case.wrong.is_empty() || case.says(came) == case.is_otherwise {
            self.otherwise = self.otherwise.saturating_add(1);
            return put_otherwise(&mut self.text, case, came);
        }
        match self.only {
            Some(_) => put_as_wanted(&mut self.text, case, came),
            None => Ok(()),
        }
    }

    /// Whether a case of this name is asked for.
    pub fn asks_for(&self, name: &str) -> bool {
        match self.only {
            Some(only) => only == name,
            None => true,
        }
    }

    /// Tells at the end how many cases come out otherwise, or that none does.
    pub fn put_end(&mut self) -> Result<(), Memory> {
        match self.only {
            Some(name) if !self.has_case => {
                put_line_with(&mut self.text, "no case has the name ", name.as_bytes())
            }
            Some(_) => Ok(()),
            None if !self.has_case => put_line(&mut self.text, b"there is no case"),
            None if self.otherwise == 0 => {
                put_line(&mut self.text, b"every case comes out as it says")
            }
            None => {
                self.text.put(b"come out otherwise than they say: ")?;
                self.text.put_number(self.otherwise)?;
                self.text.put(b"\n")
            }
        }
    }

    /// The text of the report.
    pub fn bytes(&self) -> &[u8] {
        self.text.bytes()
    }

    /// Whether there was a case, and each came out as it says.
    pub fn is_good(&self) -> bool {
        self.has_case && self.otherwise == 0
    }
}

fn put_as_wanted(text: &mut Text, case: &Case<'_>, came: &[u8]) -> Result<(), Memory> {
    put_came(text, case.name, came)?;
    if case.is_otherwise {
        return text.put(b"# otherwise than it says, as it has to\n");
    }
    text.put(b"# as it says\n")
}

fn put_otherwise(text: &mut Text, case: &Case<'_>, came: &[u8]) -> Result<(), Memory> {
    put_came(text, case.name, came)?;
    put_wrong(text, &case.wrong)?;
    if case.is_otherwise {
        return text.put(b"# it has to come out otherwise than it says\n");
    }
    put_difference(text, case.comes.bytes(), came)
}

// Puts the name of a case and what came out of it, as they stand in the text of cases.
fn put_came(text: &mut Text, name: &str, came: &[u8]) -> Result<(), Memory> {
    put_line_with(text, "=== ", name.as_bytes())?;
    text.put(b"--- comes\n")?;
    text.put(came)
}

fn put_wrong(text: &mut Text, heads: &[&str]) -> Result<(), Memory> {
    for head in heads {
        put_line_with(
            text,
            "# of no form, or a name that another text has: ",
            head.as_bytes(),
        )?;
    }
    Ok(())
}

// Puts the first line in which what was said and what came differ, with the lines in front of it.
fn put_difference(text: &mut Text, said: &[u8], came: &[u8]) -> Result<(), Memory> {
    if said.is_empty() {
        return text.put(b"# it doesn't say what has to come out\n");
    }
    if said == came {
        return Ok(());
    }
    let place = first_difference(said, came);
    text.put(b"# otherwise than it says in line ")?;
    text.put_number((place as u64).saturating_add(1))?;
    text.put(b":\n")?;
    put_before(text, came, place)?;
    put_line_at(text, "# said: ", said, place)?;
    put_line_at(text, "# came: ", came, place)
}

// The place of the first line that isn't the same in both, counted from 0.
fn first_difference(said: &[u8], came: &[u8]) -> usize {
    for (place, line) in came.split(|b| *b == b'\n').enumerate() {
        if said.split(|b| *b == b'\n').nth(place) != Some(line) {
            return place;
        }
    }
    came.split(|b| *b == b'\n').count()
}

fn put_before(text: &mut Text, lines: &[u8], place: usize) -> Result<(), Memory> {
    for before in place.saturating_sub(SHOWN_BEFORE)..place {
        put_line_at(text, "#       ", lines, before)?;
    }
    Ok(())
}

fn put_line_at(text: &mut Text, front: &str, lines: &[u8], place: usize) -> Result<(), Memory> {
    let whole = lines.strip_suffix(b"\n").unwrap_or(lines);
    match whole.split(|b| *b == b'\n').nth(place) {
        Some(line) => put_line_with(text, front, line),
        None => put_line_with(text, front, b"(no line)"),
    }
}

//! The pieces of a text.

use crate::escape::put_unescaped;
use crate::line::{put_line, put_lines};
use crate::named_text::{NamedText, text_of};
use crate::request::{Request, put_request};
use crate::said::{cut, number_in};
use pb_base::{Memory, Text};
use std::alloc::Global;

/// A piece of a text, which the section's lines make as it says.
#[derive(Clone, Copy)]
pub enum Piece<'a> {
    /// The lines, each with LF behind it.
    Lines,
    /// The lines of the text of this name, or those of the section where no name stands, each with CR LF behind it.
    CrLf(&'a str),
    /// The lines without their ends, and with the bytes that `\n`, `\r` and `\xHH` stand for.
    Bytes,
    /// The lines for each number of a range, each with LF behind it: `#` stands for the number, and `@` for the number
    /// divided by `parts`.
    Rows { from: u64, until: u64, parts: u64 },
    /// One byte so many times.
    Fill { times: u64, byte: u8 },
    /// The text of this name.
    All(&'a str),
    /// So many of its first lines.
    Front(&'a str, u64),
    /// The text of this name with other lines: a line `7 ..` stands in place of its seventh, which is left out where
    /// nothing stands behind the number, and a line `+ ..` comes at the end.
    With(&'a str),
    /// What the sink took in the last run.
    Taken,
    /// A request of HTTP.
    Request(Request<'a>),
}

/// Puts a piece behind a text. The lines are those of the section, and the texts those that can be named.
pub fn put_piece(
    alloc: Global,
    text: &mut Text,
    piece: &Piece<'_>,
    lines: &[&str],
    texts: &[NamedText<'_>],
    taken: &[u8],
) -> Result<(), Memory> {
    match piece {
        Piece::Lines => put_lines(text, lines),
        Piece::CrLf("") => put_crlf_lines(text, lines),
        Piece::CrLf(name) => put_crlf_text(text, text_of(texts, name)),
        Piece::Bytes => put_bytes(text, lines),
        Piece::Rows { from, until, parts } => {
            for number in *from..*until {
                put_rows(text, lines, number, *parts)?;
            }
            Ok(())
        }
        Piece::Fill { times, byte } => put_filling(alloc, text, *byte, *times as usize),
        Piece::All(name) => text.put(text_of(texts, name)),
        Piece::Front(name, count) => put_front(text, text_of(texts, name), *count),
        Piece::With(name) => put_with(text, text_of(texts, name), lines),
        Piece::Taken => text.put(taken),
        Piece::Request(request) => {
            let body = text_of(texts, request.body);
            put_request(alloc, text, request, body, lines)
        }
    }
}

fn put_crlf_lines(text: &mut Text, lines: &[&str]) -> Result<(), Memory> {
    for line in lines {
        text.put(line.as_bytes())?;
        text.put(b"\r\n")?;
    }
    Ok(())
}

fn put_crlf_text(text: &mut Text, other: &[u8]) -> Result<(), Memory> {
    for byte in other {
        if *byte == b'\n' {
            text.put(b"\r")?;
        }
        text.put(&[*byte])?;
    }
    Ok(())
}

fn put_bytes(text: &mut Text, lines: &[&str]) -> Result<(), Memory> {
    for line in lines {
        put_unescaped(text, line)?;
    }
    Ok(())
}

fn put_filling(alloc: Global, text: &mut Text, byte: u8, times: usize) -> Result<(), Memory> {
    let filling = vec![in alloc; byte; times]?;
    text.put(&filling)
}

fn put_rows(text: &mut Text, lines: &[&str], number: u64, parts: u64) -> Result<(), Memory> {
    for line in lines {
        for byte in line.as_bytes() {
            match *byte {
                b'#' => text.put_number(number)?,
                b'@' => text.put_number(number.checked_div(parts).unwrap_or(0))?,
                other => text.put(&[other])?,
            }
        }
        text.put(b"\n")?;
    }
    Ok(())
}

fn put_front(text: &mut Text, other: &[u8], count: u64) -> Result<(), Memory> {
    for (place, line) in other.split(|b| *b == b'\n').enumerate() {
        if (place as u64) < count {
            put_line(text, line)?;
        }
    }
    Ok(())
}

fn put_with(text: &mut Text, other: &[u8], lines: &[&str]) -> Result<(), Memory> {
    let whole = other.strip_suffix(b"\n").unwrap_or(other);
    for (place, own) in whole.split(|b| *b == b'\n').enumerate() {
        if !put_in_place(text, lines, place as u64)? {
            put_line(text, own)?;
        }
    }
    put_added(text, lines)
}

fn put_added(text: &mut Text, lines: &[&str]) -> Result<(), Memory> {
    for line in lines {
        if let Some(added) = line.strip_prefix("+ ") {
            put_line(text, added.as_bytes())?;
        }
    }
    Ok(())
}

// Puts what stands in place of the line at this place, counted from 0, and says whether something does.
fn put_in_place(text: &mut Text, lines: &[&str], place: u64) -> Result<bool, Memory> {
    let mut found = false;
    for line in lines {
        let (number, other) = cut(line);
        if number_in(number) == place.checked_add(1) {
            found = true;
            if !other.is_empty() {
                put_line(text, other.as_bytes())?;
            }
        }
    }
    Ok(found)
}

//! What the head of a section says.

use crate::piece::Piece;
use crate::request::Request;
use crate::rows::{Row, row_in};
use crate::setting::{Setting, setting_in};
use pb_base::number_within;

/// What the head of a section says.
#[derive(Clone, Copy)]
pub enum Said<'a> {
    /// Here begins a text that the section's lines and the pieces behind it make.
    Begins(Goal<'a>),
    /// Here comes a further piece of the text that began last.
    Piece(Piece<'a>),
    /// Each line has the words of a run.
    Words,
    /// The lines are what has to come out.
    Comes,
    /// The store has what the last case left in it.
    KeptStore,
    /// A row of the store, or its form.
    Row(Row<'a>),
    /// Something holds for all runs of the case.
    Set(Setting<'a>),
}

/// What a text is for.
#[derive(Clone, Copy)]
pub enum Goal<'a> {
    /// Cases behind it name it.
    Named(&'a str),
    /// The source of the case gives it.
    Input,
    /// A file of the case has it.
    File(&'a str),
    /// A link of this port gives it, of which these reads and these writes fail.
    Link {
        port: u64,
        read_fails: &'a str,
        write_fails: &'a str,
    },
}

/// What a head says, or None where it is of no form.
pub fn said_by(head: &str) -> Option<Said<'_>> {
    let (key, rest) = cut(head);
    match key {
        "text" => Some(Said::Begins(Goal::Named(rest))),
        "input" => Some(Said::Begins(Goal::Input)),
        "file" => Some(Said::Begins(Goal::File(rest))),
        "link" => link_in(rest),
        "words" => Some(Said::Words),
        "comes" => Some(Said::Comes),
        "kept_store" => Some(Said::KeptStore),
        _ => row_or_setting_in(key, rest),
    }
}

fn link_in(rest: &str) -> Option<Said<'_>> {
    let (port, fails) = cut(rest);
    let (read_fails, write_fails) = fails.split_once('/').unwrap_or((fails, ""));
    Some(Said::Begins(Goal::Link {
        port: number_in(port)?,
        read_fails,
        write_fails,
    }))
}

fn row_or_setting_in<'a>(key: &str, rest: &'a str) -> Option<Said<'a>> {
    if let Some(row) = row_in(key, rest) {
        return Some(Said::Row(row));
    }
    match setting_in(key, rest) {
        Some(setting) => Some(Said::Set(setting)),
        None => Some(Said::Piece(piece_in(key, rest)?)),
    }
}

fn piece_in<'a>(key: &str, rest: &'a str) -> Option<Piece<'a>> {
    match key {
        "lines" => Some(Piece::Lines),
        "crlf" => Some(Piece::CrLf(rest)),
        "bytes" => Some(Piece::Bytes),
        "rows" => rows_in(rest),
        "fill" => fill_in(rest),
        "all" => Some(Piece::All(rest)),
        "front" => front_in(rest),
        "with" => Some(Piece::With(rest)),
        "taken" => Some(Piece::Taken),
        "request" => Some(Piece::Request(request_in(rest))),
        _ => None,
    }
}

fn rows_in(rest: &str) -> Option<Piece<'_>> {
    let (from, rest) = cut(rest);
    let (until, parts) = cut(rest);
    Some(Piece::Rows {
        from: number_in(from)?,
        until: number_in(until)?,
        parts: number_in(parts).unwrap_or(1),
    })
}

fn fill_in(rest: &str) -> Option<Piece<'_>> {
    let (times, filling) = cut(rest);
    let byte = *filling.as_bytes().first()?;
    Some(Piece::Fill {
        times: number_in(times)?,
        byte,
    })
}

fn front_in(rest: &str) -> Option<Piece<'_>> {
    let (name, lines) = cut(rest);
    Some(Piece::Front(name, number_in(lines)?))
}

fn request_in(rest: &str) -> Request<'_> {
    let (method, rest) = cut(rest);
    let (path, rest) = cut(rest);
    let (caller, body) = cut(rest);
    Request {
        method,
        path,
        caller,
        body,
    }
}

/// What stands before the first space, and what stands behind it.
pub fn cut(text: &str) -> (&str, &str) {
    text.split_once(' ').unwrap_or((text, ""))
}

/// A number of at most 10 digits.
pub fn number_in(word: &str) -> Option<u64> {
    number_within(word.as_bytes(), 10)
}

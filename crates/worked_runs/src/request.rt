//! Requests of HTTP.

use crate::line::put_lines;
use pb_base::{Memory, Text};
use std::alloc::Global;

/// A request, whose head is made from these words.
#[derive(Clone, Copy)]
pub struct Request<'a> {
    pub method: &'a str,
    pub path: &'a str,
    /// `-` where the request names no caller.
    pub caller: &'a str,
    /// The text that is the body, or nothing where the lines behind the head are.
    pub body: &'a str,
}

/// Puts a request behind a text. Its body is this one, or where that is empty the lines without the end of the last.
pub fn put_request(
    alloc: Global,
    text: &mut Text,
    request: &Request<'_>,
    body: &[u8],
    lines: &[&str],
) -> Result<(), Memory> {
    let mut written = Text::new(alloc);
    put_lines(&mut written, lines)?;
    let written = written.bytes().strip_suffix(b"\n").unwrap_or(b"");
    put_message(text, request, if body.is_empty() { written } else { body })
}

fn put_message(text: &mut Text, request: &Request<'_>, body: &[u8]) -> Result<(), Memory> {
    text.put(request.method.as_bytes())?;
    text.put(b" ")?;
    text.put(request.path.as_bytes())?;
    text.put(b" HTTP/1.1\r\nHost: localhost\r\n")?;
    if request.caller != "-" {
        put_field(text, "X-Caller: ", request.caller)?;
    }
    if !body.is_empty() {
        put_length(text, body.len() as u64)?;
    }
    text.put(b"\r\n")?;
    text.put(body)
}

fn put_length(text: &mut Text, length: u64) -> Result<(), Memory> {
    text.put(b"Content-Length: ")?;
    text.put_number(length)?;
    text.put(b"\r\n")
}

fn put_field(text: &mut Text, name: &str, value: &str) -> Result<(), Memory> {
    text.put(name.as_bytes())?;
    text.put(value.as_bytes())?;
    text.put(b"\r\n")
}

//! Lines of a text.

use pb_base::{Memory, Text};

/// Puts a line behind a text, with LF behind it.
pub fn put_line(text: &mut Text, line: &[u8]) -> Result<(), Memory> {
    text.put(line)?;
    text.put(b"\n")
}

/// Puts a line behind a text that begins with this front.
pub fn put_line_with(text: &mut Text, front: &str, line: &[u8]) -> Result<(), Memory> {
    text.put(front.as_bytes())?;
    put_line(text, line)
}

/// Puts lines behind a text, each with LF behind it.
pub fn put_lines(text: &mut Text, lines: &[&str]) -> Result<(), Memory> {
    for line in lines {
        put_line(text, line.as_bytes())?;
    }
    Ok(())
}

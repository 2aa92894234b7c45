//! Bytes that don't show, as they are written in a text of cases and of answers.

use pb_base::{Memory, Text};

/// Puts the bytes that a line stands for behind a text: `\n` is LF, `\r` CR, and `\xHH` the byte of two hexadecimal digits.
pub fn put_unescaped(text: &mut Text, line: &str) -> Result<(), Memory> {
    let mut parts = line.split('\\');
    if let Some(plain) = parts.next() {
        text.put(plain.as_bytes())?;
    }
    for part in parts {
        match part.as_bytes() {
            [b'n', rest @ ..] => put_both(text, b'\n', rest)?,
            [b'r', rest @ ..] => put_both(text, b'\r', rest)?,
            [b'x', high, low, rest @ ..] => put_both(text, (hex(*high) << 4) | hex(*low), rest)?,
            rest => text.put(rest)?,
        }
    }
    Ok(())
}

fn put_both(text: &mut Text, byte: u8, rest: &[u8]) -> Result<(), Memory> {
    text.put(&[byte])?;
    text.put(rest)
}

fn hex(digit: u8) -> u8 {
    match digit {
        b'0'..=b'9' => digit - b'0',
        b'A'..=b'F' => digit - b'A' + 10,
        _ => 0,
    }
}

/// Puts bytes behind a text so that all of them show, each line on its own, and `\` behind a last line without an end.
pub fn put_shown(text: &mut Text, bytes: &[u8]) -> Result<(), Memory> {
    for byte in bytes {
        match *byte {
            b'\r' => text.put(b"\\r")?,
            b'\\' => text.put(b"\\x5C")?,
            b'\n' | b' '..=b'~' => text.put(&[*byte])?,
            other => put_hex(text, other)?,
        }
    }
    if bytes.is_empty() || bytes.ends_with(b"\n") {
        return Ok(());
    }
    text.put(b"\\\n")
}

fn put_hex(text: &mut Text, byte: u8) -> Result<(), Memory> {
    text.put(b"\\x")?;
    text.put(&[hex_digit(byte >> 4)])?;
    text.put(&[hex_digit(byte & 15)])
}

fn hex_digit(value: u8) -> u8 {
    let digits = b"0123456789ABCDEF";
    digits[(value & 15) as usize]
}

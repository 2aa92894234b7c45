//! The words of a run.

use crate::escape::put_unescaped;
use pb_base::{Memory, Text};
use std::alloc::Global;
use std::io;

/// The words of a line, as a system gives them: words that are no text can't be given.
pub fn words_of(alloc: Global, line: &str) -> Result<io::Result<Vec<String>>, Memory> {
    let mut words = Vec::new(alloc);
    if line.is_empty() || put_words(alloc, &mut words, line)? {
        return Ok(Ok(words));
    }
    Ok(Err(io::Error::from(io::ErrorKind::InvalidData)))
}

// Puts the words of a line behind others, and says whether all of them are text.
fn put_words(alloc: Global, words: &mut Vec<String>, line: &str) -> Result<bool, Memory> {
    for word in line.split(' ') {
        match word_of(alloc, word)? {
            Some(word) => words.push(word)?,
            None => return Ok(false),
        }
    }
    Ok(true)
}

fn word_of(alloc: Global, word: &str) -> Result<Option<String>, Memory> {
    let mut bytes = Text::new(alloc);
    put_unescaped(&mut bytes, word)?;
    match str::from_utf8(bytes.bytes()) {
        Ok(word) => Ok(Some(String::from_str(alloc, word)?)),
        Err(_) => Ok(None),
    }
}

//! The worked runs: it reads cases from files, does the runs that they say, and tells which come out otherwise than they say.
#![tactic(auto)]

mod bench;
mod case;
mod change_line;
mod compare_line;
mod door;
mod escape;
mod line;
mod messages;
mod named_text;
mod note_line;
mod outcome;
mod outside;
mod piece;
mod report;
mod request;
mod requirement_line;
mod rows;
mod run_words;
mod runs;
mod said;
mod section;
mod series;
mod setting;
mod supplement_line;

use crate::bench::Bench;
use pb_outside::{Files, OutError, Sink, StreamSink, SystemFiles};
use std::alloc::Global;
use std::process::ExitCode;
use std::sync::Wait;
use std::thread::Threads;
use std::{env, io};

// The text of all cases is far shorter.
const MOST_BYTES: usize = 64_000_000;

fn main(rt: HostRuntime) -> ExitCode {
    let alloc = rt.alloc();
    let mut files = SystemFiles::new(&rt);
    let mut sink = StreamSink::new(io::writer(&rt));
    let Ok(asked) = asked_of(&rt) else {
        return ExitCode::FAILURE;
    };
    match tell(&rt, alloc, &asked, &mut files, &mut sink) {
        Ok(true) => ExitCode::SUCCESS,
        Ok(false) | Err(_) => ExitCode::FAILURE,
    }
}

// What the words behind the program's name ask for.
#[derive(Drop)]
struct Asked {
    // The names of the files with the cases.
    files: Vec<String>,
    // The name of the case that is asked for: the words behind `--`, parted by spaces. It is empty where all are.
    only: String,
}

fn asked_of(rt: &HostRuntime) -> io::Result<Asked> {
    let alloc = rt.alloc();
    let mut asked = Asked {
        files: Vec::new(alloc),
        only: String::new(alloc),
    };
    let mut words = env::args(rt)?;
    let _program = words.next();
    let mut is_name = false;
    for word in words {
        if is_name {
            put_word(&mut asked.only, &word)?;
        } else if word.as_str() == "--" {
            is_name = true;
        } else {
            asked.files.push(word)?;
        }
    }
    Ok(asked)
}

fn put_word(name: &mut String, word: &str) -> io::Result<()> {
    if !name.is_empty() {
        name.push(' ')?;
    }
    Ok(name.push_str(word)?)
}

// Tells of the cases of these files, and says whether each came out as it says.
fn tell<R: Threads + Wait + Sync, F: Files, K: Sink>(
    rt: &R,
    alloc: Global,
    asked: &Asked,
    files: &mut F,
    sink: &mut K,
) -> Result<bool, OutError> {
    let texts = read_all(alloc, files, &asked.files)?;
    let only = asked.only.as_str();
    let only = if only.is_empty() { None } else { Some(only) };
    let mut bench = Bench::new(alloc, only);
    tell_of(rt, &mut bench, &texts, sink)
}

// What the files have, in the order of their names. One that can't be read, or is too long, is a fault.
fn read_all<F: Files>(
    alloc: Global,
    files: &mut F,
    names: &[String],
) -> Result<Vec<Vec<u8>>, OutError> {
    let mut texts = Vec::new(alloc);
    for name in names {
        match files.read(alloc, name, MOST_BYTES)? {
            Some(text) => texts.push(text)?,
            None => return Err(OutError::Failed),
        }
    }
    Ok(texts)
}

fn tell_of<'a, R: Threads + Wait + Sync, K: Sink>(
    rt: &R,
    bench: &mut Bench<'a>,
    texts: &'a [Vec<u8>],
    sink: &mut K,
) -> Result<bool, OutError> {
    for text in texts {
        bench.take_file(rt, str::from_utf8(text).unwrap_or(""))?;
    }
    bench.end()?;
    sink.write(bench.report().bytes())?;
    Ok(bench.report().is_good())
}

//! Words of commands that no run shows: those of `serve`, `compare` and `rejudge` at the limits of their numbers, the largest sample, and the budget where no word names one.

use command_words::{BookCommand, Rejudging, Service, Task, task_of};
use pb_base::{Memory, Text};
use std::alloc::Global;
use std::process::Abort;
use std::test::Fail;

// A row is `WORDS~COMMAND`, with the words parted by spaces and the numbers without leading zeros.
const TABLE: &str = "serve s.db 8080 2 0001~serve s.db 8080 2 1
serve s.db 65535 16 1000000~serve s.db 65535 16 1000000
serve s.db 0 1 1~usage
serve s.db 65536 1 1~usage
serve s.db 8080 17 1~usage
serve s.db 8080 1 1000001~usage
serve s.db 8080 1~usage
serve s.db 8080 1 1 1~usage
sample 4294967295 2000 10000~sample 4294967295 2000 10000
check~check 10000
prove~prove 10000
supplements~supplements 10000
supplements --budget 50000~supplements 50000
supplements --budget 50001~usage
supplements T~usage
compare 99999 F --budget=1~compare F 99999 1
compare 1 F~compare F 1 10000
compare 000001 F~usage
compare 1~usage
rejudge s.db 4294967295 16~rejudge s.db 4294967295 16
rejudge s.db 4294967296 1~usage
rejudge s.db 0 1~usage
rejudge s.db 1 17~usage
rejudge s.db 1 1 --budget 5~usage
impact s.db f.csv 016~impact s.db 16
impact s.db f.csv 17~usage";

fn words_of(alloc: Global, line: &str) -> Result<Vec<String>, Memory> {
    let mut words = Vec::new(alloc);
    for word in line.split(' ') {
        words.push(String::from_str(alloc, word)?)?;
    }
    Ok(words)
}

fn put_number(text: &mut Text, number: u32) -> Result<(), Memory> {
    text.put(b" ")?;
    text.put_number(u64::from(number))
}

fn put_numbers(text: &mut Text, word: &str, numbers: &[u32]) -> Result<(), Memory> {
    text.put(word.as_bytes())?;
    for number in numbers {
        put_number(text, *number)?;
    }
    Ok(())
}

// Puts a word, the name of a file or a store, and numbers.
fn put_named(text: &mut Text, word: &str, name: &str, numbers: &[u32]) -> Result<(), Memory> {
    text.put(word.as_bytes())?;
    text.put(b" ")?;
    put_numbers(text, name, numbers)
}

fn put_command(text: &mut Text, command: &BookCommand) -> Result<(), Memory> {
    match command {
        BookCommand::Check { budget, .. } => put_numbers(text, "check", &[budget.clauses()]),
        BookCommand::Prove { budget, .. } => put_numbers(text, "prove", &[budget.clauses()]),
        BookCommand::Supplements { budget, .. } => {
            put_numbers(text, "supplements", &[budget.clauses()])
        }
        BookCommand::Compare {
            day,
            file,
            budget,
            ..
        } => put_named(text, "compare", file.as_str(), &[*day, budget.clauses()]),
        _ => text.put(b"another"),
    }
}

fn put_service(text: &mut Text, service: &Service) -> Result<(), Memory> {
    let port = u32::from(service.port());
    let numbers = [port, service.workers(), service.links()];
    put_named(text, "serve", service.store(), &numbers)
}

fn put_rejudging(text: &mut Text, asked: &Rejudging) -> Result<(), Memory> {
    put_named(
        text,
        "rejudge",
        asked.store(),
        &[asked.book(), asked.workers()],
    )
}

fn put_task(text: &mut Text, task: &Task) -> Result<(), Memory> {
    match task {
        Task::Book(command) => put_command(text, command),
        Task::Serve(service) => put_service(text, service),
        Task::Rejudge(asked) => put_rejudging(text, asked),
        Task::Impact(asked) => put_named(text, "impact", asked.store(), &[asked.workers()]),
        Task::Sample(size) => {
            put_numbers(text, "sample", &[size.start(), size.codes(), size.orders()])
        }
        Task::Desk { store: _ } => text.put(b"another"),
    }
}

// Puts what words ask for behind a text.
fn put_asked(alloc: Global, text: &mut Text, words: &[String]) -> Result<(), Memory> {
    match task_of(alloc, words)? {
        Some(task) => put_task(text, &task),
        None => text.put(b"usage"),
    }
}

fn put_line_asked(alloc: Global, text: &mut Text, line: &str) -> Result<(), Memory> {
    let words = words_of(alloc, line)?;
    put_asked(alloc, text, &words)
}

// Asserts that a row's words ask for its command.
fn asks(rt: &impl Abort, alloc: Global, row: &str) -> Result<(), Memory> {
    let (line, command) = row.split_once('~').unwrap_or((row, ""));
    let mut text = Text::new(alloc);
    put_line_asked(alloc, &mut text, line)?;
    assert_eq!(rt; text.bytes(), command.as_bytes(), "{line}");
    Ok(())
}

#[test]
fn words_ask_for_their_command(rt: HostRuntime) -> Result<(), Fail> {
    let alloc = rt.alloc();
    for row in TABLE.split('\n') {
        asks(&rt, alloc, row)?;
    }
    Ok(())
}

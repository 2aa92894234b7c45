//! What stops a service, and how often it tells its counts.

use command_words::{Task, task_of};
use desk_run::MOST_STEPS;
use std::alloc::Global;
use std::rt::Runtime;
use std::{env, io};
use tcp_door::SystemWatch;

// The variable of the environment with the least number of seconds between two lines on standard error.
const INTERVAL: &str = "PARTSBOOK_COUNTS";

/// The watch of the service that the words ask for. It is stopped while there is a file with the name of the store and `.stop`
/// behind it, and tells its counts where the environment says how often.
pub(crate) fn watch_of<'a, R: Runtime>(
    rt: &'a R,
    alloc: Global,
    words: &io::Result<Vec<String>>,
) -> SystemWatch<'a, R> {
    SystemWatch::new(rt, stop_file(alloc, words), interval(rt), MOST_STEPS)
}

// The name of the file by which the service is stopped that the words ask for. Without memory for it there is none.
fn stop_file(alloc: Global, words: &io::Result<Vec<String>>) -> Option<String> {
    let Ok(words) = words else {
        return None;
    };
    if words.first()?.as_str() != "serve" {
        return None;
    }
    match task_of(alloc, words) {
        Ok(Some(Task::Serve(service))) => beside(alloc, service.store()),
        _ => None,
    }
}

// The name of the store and `.stop` behind it.
fn beside(alloc: Global, store: &str) -> Option<String> {
    let mut name = String::from_str(alloc, store).ok()?;
    name.push_str(".stop").ok()?;
    Some(name)
}

// How many seconds lie between two lines. Where the variable is no number, nothing is told.
fn interval<R: Runtime>(rt: &R) -> u64 {
    match env::var(rt, INTERVAL) {
        Ok(seconds) => seconds.as_str().parse().unwrap_or(0),
        Err(_) => 0,
    }
}

//! The store that the words name.
ghost use Rattle.std.specs.Prelude.{◌≡◌, ℕ, List, IfOk, option_map};
ghost use Rattle.command_words.specs.Prepared.{texts_of};
ghost use Rattle.commands.specs.Words.{NamesStore, store_of};

use command_words::{Task, task_of};
use file_store::{FileStore, Store, store_at};
use keeper::Keeper;
use std::alloc::Global;
use std::io;

/// The store of the task that the words ask for. Where they name none, or there is no memory to read them, it has no keeper.
pub(crate) fn store_of(rt: HostRuntime, alloc: Global, words: &io::Result<Vec<String>>) -> FileStore
    ensures { let may_begin = ⟦<FileStore as Keeper>⟧.may_begin result in
        IfOk words.now (λ given. (store : List ℕ) → NamesStore (texts_of given.items) store → may_begin store) }
{
    match words {
        Ok(given) => named_store(rt, alloc, given),
        Err(_) => Store::Unopened,
    }
}

fn named_store(rt: HostRuntime, alloc: Global, words: &[String]) -> FileStore
    ensures { let may_begin = ⟦<FileStore as Keeper>⟧.may_begin result in
        (store : List ℕ) → NamesStore (texts_of words.now) store → may_begin store }
{
    match task_of(alloc, words) {
        Ok(Some(task)) => task_store(rt, &task),
        Ok(None) | Err(_) => Store::Unopened,
    }
}

fn task_store(rt: HostRuntime, task: &Task) -> FileStore
    ensures { let may_begin = ⟦<FileStore as Keeper>⟧.may_begin result in
        (store : List ℕ) → store_of task.now ≡ Some store → may_begin store }
{
    match store_name(task) {
        Some(name) => store_at(rt, name),
        None => Store::Unopened,
    }
}

fn store_name(task: &Task) -> Option<&str>
    ensures { option_map (λ name. name.now) result ≡ store_of task.now }
{
    match task {
        Task::Desk { store } => Some(store.as_str()),
        Task::Serve(service) => Some(service.store()),
        Task::Rejudge(rejudging) => Some(rejudging.store()),
        Task::Impact(impact) => Some(impact.store()),
        Task::Book(_) | Task::Sample(_) => None,
    }
}

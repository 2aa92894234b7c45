//! What a command word asks with a budget and operands.
ghost use Rattle.std.specs.Prelude.{◌≡◌, ◌%◌, ◌≤◌, IfOk, IfSome};
ghost use Rattle.pb_base.specs.declared.limits.TheConstants.{MOST_BUDGET};
ghost use Rattle.command_words.specs.Prepared.{lent, lent_option};
ghost use Rattle.command_words.specs.Meaning.{number_in, codes_of, order_of, budget_of, budget_alone, check_of, prove_of, supplements_of, only_one, verify_of, desk_of, compare_of, rejudge_of, free_of, why_of, days_of, impact_of, require_of, changes_of, door_of, serve_of, codes_number, sample_of, asked};

use crate::budget::Budget;
use crate::file_name::FileName;
use crate::impact::Impact;
use crate::rejudging::Rejudging;
use crate::sample_size::SampleSize;
use crate::service::Service;
use crate::task::{BookCommand, Task};
use crate::workers::Workers;
use pb_base::limits::{DEFAULT_BUDGET, MOST_BUDGET};
use pb_base::{CodeList, CodeName, Memory, number_within, short_number};
use std::alloc::Global;

/// The task, or None where the word is no command word, or takes other operands or no budget.
pub fn asked(
    alloc: Global,
    name: &str,
    budget: Option<&str>,
    operands: &[&str],
) -> Result<Option<Task>, Memory>
    ensures { IfOk result (λ task. task ≡ asked name.now (lent_option budget.entry) (lent operands.now)) }
{
    match name {
        "order" => order_of(alloc, budget, operands),
        "check" => Ok(check_of(budget, operands)),
        "prove" => Ok(prove_of(budget, operands)),
        "verify" => verify_of(alloc, budget, operands),
        "desk" => desk_of(alloc, budget, operands),
        "serve" => serve_of(alloc, budget, operands),
        "sample" => Ok(sample_of(budget, operands)),
        "supplements" => Ok(supplements_of(budget, operands)),
        "compare" => compare_of(alloc, budget, operands),
        "rejudge" => rejudge_of(alloc, budget, operands),
        "free" => free_of(alloc, budget, operands),
        "why" => why_of(alloc, budget, operands),
        "days" => days_of(alloc, budget, operands),
        "impact" => impact_of(alloc, budget, operands),
        "require" => require_of(alloc, budget, operands),
        "changes" => changes_of(alloc, budget, operands),
        _ => Ok(None),
    }
}

fn order_of(alloc: Global, budget: Option<&str>, operands: &[&str]) -> Result<Option<Task>, Memory>
    ensures { IfOk result (λ task. task ≡ order_of (lent_option budget.entry) (lent operands.now)) }
{
    let (None, [day, names @ ..]) = (budget, operands) else {
        return Ok(None);
    };
    let Some(day) = short_number(day.as_bytes()) else {
        return Ok(None);
    };
    let codes = codes_of(alloc, names)?;
    Ok(codes.map(|codes| Task::Book(BookCommand::Order { day, codes })))
}

fn codes_of(alloc: Global, names: &[&str]) -> Result<Option<CodeList>, Memory>
    ensures { IfOk result (λ codes. codes ≡ codes_of (lent names.now)) }
{
    let mut codes = CodeList::new(alloc);
    for name in names {
        match CodeName::of(name.as_bytes()) {
            Some(code) => codes.push(code)?,
            None => return Ok(None),
        }
    }
    Ok(Some(codes))
}

fn check_of(budget: Option<&str>, operands: &[&str]) -> Option<Task>
    ensures { result ≡ check_of (lent_option budget.entry) (lent operands.now) }
{
    let budget = budget_alone(budget, operands)?;
    let workers = Workers::of(1);
    Some(Task::Book(BookCommand::Check { budget, workers }))
}

fn prove_of(budget: Option<&str>, operands: &[&str]) -> Option<Task>
    ensures { result ≡ prove_of (lent_option budget.entry) (lent operands.now) }
{
    let budget = budget_alone(budget, operands)?;
    let workers = Workers::of(1);
    Some(Task::Book(BookCommand::Prove { budget, workers }))
}

fn supplements_of(budget: Option<&str>, operands: &[&str]) -> Option<Task>
    ensures { result ≡ supplements_of (lent_option budget.entry) (lent operands.now) }
{
    let budget = budget_alone(budget, operands)?;
    let workers = Workers::of(1);
    Some(Task::Book(BookCommand::Supplements { budget, workers }))
}

// The budget, where there are no operands.
fn budget_alone(budget: Option<&str>, operands: &[&str]) -> Option<Budget>
    ensures { result ≡ budget_alone (lent_option budget.entry) (lent operands.now) }
{
    if !operands.is_empty() {
        return None;
    }
    budget_of(budget)
}

// The most work for one question, which is 10,000 where the words say none.
fn budget_of(text: Option<&str>) -> Option<Budget>
    ensures { result ≡ budget_of (lent_option text.entry) }
{
    match text {
        Some(text) => budget_in(text.as_bytes()),
        None => Some(Budget::of(DEFAULT_BUDGET)),
    }
}

// The most work for one question, as an option gives it.
pub(crate) fn budget_in(text: &[u8]) -> Option<Budget>
    ensures { result ≡ number_in 1 MOST_BUDGET text.now }
{
    let clauses = number_in(text, 1, MOST_BUDGET)?;
    Some(Budget::of(clauses))
}

/// How many workers, as an option gives it.
pub(crate) fn workers_in(text: &[u8]) -> Option<Workers>
    ensures { result ≡ number_in 1 16 text.now }
{
    let count = number_in(text, 1, 16)?;
    Some(Workers::of(count))
}

fn verify_of(alloc: Global, budget: Option<&str>, operands: &[&str]) -> Result<Option<Task>, Memory>
    ensures { IfOk result (λ task. task ≡ verify_of (lent_option budget.entry) (lent operands.now)) }
{
    let file = only_one(alloc, budget, operands)?;
    Ok(file.map(|file| Task::Book(BookCommand::Verify { file })))
}

fn desk_of(alloc: Global, budget: Option<&str>, operands: &[&str]) -> Result<Option<Task>, Memory>
    ensures { IfOk result (λ task. task ≡ desk_of (lent_option budget.entry) (lent operands.now)) }
{
    let store = only_one(alloc, budget, operands)?;
    Ok(store.map(|store| Task::Desk { store }))
}

// The file that the one operand names, where there is no budget.
fn only_one(
    alloc: Global,
    budget: Option<&str>,
    operands: &[&str],
) -> Result<Option<FileName>, Memory>
    ensures { IfOk result (λ file. file ≡ only_one (lent_option budget.entry) (lent operands.now)) }
{
    match (budget, operands) {
        (None, [name]) => Ok(Some(FileName::of(alloc, name)?)),
        _ => Ok(None),
    }
}

fn serve_of(alloc: Global, budget: Option<&str>, operands: &[&str]) -> Result<Option<Task>, Memory>
    ensures { IfOk result (λ task. task ≡ serve_of (lent_option budget.entry) (lent operands.now)) }
{
    let (None, [store, numbers @ ..]) = (budget, operands) else {
        return Ok(None);
    };
    let Some((port, workers, links)) = door_of(numbers) else {
        return Ok(None);
    };
    let store = FileName::of(alloc, store)?;
    Ok(Some(Task::Serve(Service::of(store, port, workers, links))))
}

// The port, the workers and the links.
fn door_of(operands: &[&str]) -> Option<(u16, Workers, u32)>
    ensures { result ≡ door_of (lent operands.now) }
{
    let [port, workers, links] = operands else {
        return None;
    };
    let port = number_in(port.as_bytes(), 1, 65_535)? as u16;
    let workers = workers_in(workers.as_bytes())?;
    let links = number_in(links.as_bytes(), 1, 1_000_000)?;
    Some((port, workers, links))
}

fn sample_of(budget: Option<&str>, operands: &[&str]) -> Option<Task>
    ensures { result ≡ sample_of (lent_option budget.entry) (lent operands.now) }
{
    let (None, [start, codes, orders]) = (budget, operands) else {
        return None;
    };
    let start = number_in(start.as_bytes(), 0, u32::MAX)?;
    let codes = codes_number(codes)?;
    let orders = number_in(orders.as_bytes(), 0, 10_000)?;
    Some(Task::Sample(SampleSize::of(start, codes, orders)))
}

fn compare_of(
    alloc: Global,
    budget: Option<&str>,
    operands: &[&str],
) -> Result<Option<Task>, Memory>
    ensures { IfOk result (λ task. task ≡ compare_of (lent_option budget.entry) (lent operands.now)) }
{
    let [day, file] = operands else {
        return Ok(None);
    };
    let (Some(day), Some(budget)) = (short_number(day.as_bytes()), budget_of(budget)) else {
        return Ok(None);
    };
    let file = FileName::of(alloc, file)?;
    let workers = Workers::of(1);
    Ok(Some(Task::Book(BookCommand::Compare {
        day,
        file,
        budget,
        workers,
    })))
}

fn require_of(
    alloc: Global,
    budget: Option<&str>,
    operands: &[&str],
) -> Result<Option<Task>, Memory>
    ensures { IfOk result (λ task. task ≡ require_of (lent_option budget.entry) (lent operands.now)) }
{
    let [file] = operands else {
        return Ok(None);
    };
    let Some(budget) = budget_of(budget) else {
        return Ok(None);
    };
    let file = FileName::of(alloc, file)?;
    let workers = Workers::of(1);
    Ok(Some(Task::Book(BookCommand::Require {
        file,
        budget,
        workers,
    })))
}

fn changes_of(
    alloc: Global,
    budget: Option<&str>,
    operands: &[&str],
) -> Result<Option<Task>, Memory>
    ensures { IfOk result (λ task. task ≡ changes_of (lent_option budget.entry) (lent operands.now)) }
{
    let [file] = operands else {
        return Ok(None);
    };
    let Some(budget) = budget_of(budget) else {
        return Ok(None);
    };
    let file = FileName::of(alloc, file)?;
    let workers = Workers::of(1);
    Ok(Some(Task::Book(BookCommand::Changes {
        file,
        budget,
        workers,
    })))
}

fn rejudge_of(
    alloc: Global,
    budget: Option<&str>,
    operands: &[&str],
) -> Result<Option<Task>, Memory>
    ensures { IfOk result (λ task. task ≡ rejudge_of (lent_option budget.entry) (lent operands.now)) }
{
    let (None, [store, book, workers]) = (budget, operands) else {
        return Ok(None);
    };
    let workers = workers_in(workers.as_bytes());
    let (Some(book), Some(workers)) = (number_in(book.as_bytes(), 1, u32::MAX), workers) else {
        return Ok(None);
    };
    let store = FileName::of(alloc, store)?;
    Ok(Some(Task::Rejudge(Rejudging::of(store, book, workers))))
}

fn free_of(alloc: Global, budget: Option<&str>, operands: &[&str]) -> Result<Option<Task>, Memory>
    ensures { IfOk result (λ task. task ≡ free_of (lent_option budget.entry) (lent operands.now)) }
{
    let [day, names @ ..] = operands else {
        return Ok(None);
    };
    let (Some(day), Some(budget)) = (short_number(day.as_bytes()), budget_of(budget)) else {
        return Ok(None);
    };
    let codes = codes_of(alloc, names)?;
    Ok(codes.map(|codes| Task::Book(BookCommand::Free { day, codes, budget })))
}

fn why_of(alloc: Global, budget: Option<&str>, operands: &[&str]) -> Result<Option<Task>, Memory>
    ensures { IfOk result (λ task. task ≡ why_of (lent_option budget.entry) (lent operands.now)) }
{
    let [day, names @ ..] = operands else {
        return Ok(None);
    };
    let (Some(day), Some(budget)) = (short_number(day.as_bytes()), budget_of(budget)) else {
        return Ok(None);
    };
    let codes = codes_of(alloc, names)?;
    Ok(codes.map(|codes| Task::Book(BookCommand::Why { day, codes, budget })))
}

fn days_of(alloc: Global, budget: Option<&str>, operands: &[&str]) -> Result<Option<Task>, Memory>
    ensures { IfOk result (λ task. task ≡ days_of (lent_option budget.entry) (lent operands.now)) }
{
    if budget.is_some() {
        return Ok(None);
    }
    let codes = codes_of(alloc, operands)?;
    Ok(codes.map(|codes| Task::Book(BookCommand::Days { codes })))
}

fn impact_of(alloc: Global, budget: Option<&str>, operands: &[&str]) -> Result<Option<Task>, Memory>
    ensures { IfOk result (λ task. task ≡ impact_of (lent_option budget.entry) (lent operands.now)) }
{
    let (None, [store, file, workers]) = (budget, operands) else {
        return Ok(None);
    };
    let Some(workers) = workers_in(workers.as_bytes()) else {
        return Ok(None);
    };
    let store = FileName::of(alloc, store)?;
    let file = FileName::of(alloc, file)?;
    Ok(Some(Task::Impact(Impact::of(store, file, workers))))
}

// A multiple of 4.
fn codes_number(text: &str) -> Option<u32>
    ensures value { result ≡ codes_number text.now }
    ensures whole { IfSome result (λ codes. codes % 4 ≡ 0) }
    ensures least { IfSome result (λ codes. 8 ≤ codes) }
    ensures most { IfSome result (λ codes. codes ≤ 2000) }
{
    let number = number_in(text.as_bytes(), 8, 2_000)?;
    if number % 4 == 0 { Some(number) } else { None }
}

// The number of 1 to 10 digits, where it lies in the range.
fn number_in(text: &[u8], least: u32, most: u32) -> Option<u32>
    ensures number { result ≡ number_in least most text.now }
    ensures least { IfSome result (λ number. least ≤ number) }
    ensures most { IfSome result (λ number. number ≤ most) }
{
    let number = number_within(text, 10)?;
    if u64::from(least) <= number && number <= u64::from(most) {
        Some(number as u32)
    } else {
        None
    }
}

//! The release of a generated book, and what its orders come to.
ghost use Rattle.std.specs.Prelude.{◌≡◌, ◌≤◌, ◌++◌, IfOk, OnOk, None, Ok, codes};
ghost use Rattle.book_sample.specs.Law.{MaySample};
ghost use Rattle.book_sample.specs.Lines.{sample_text};
ghost use Rattle.book_text.specs.BookText.{book_of};
ghost use Rattle.parts_usage.specs.Fault.{order_fault};
ghost use Rattle.pb_base.specs.declared.limits.TheConstants.{MOST_SLICES, DEFAULT_BUDGET};
ghost use Rattle.release.specs.Judged.{as_outcome};
ghost use Rattle.release_check.specs.NotReleased.{IsRefusal};
ghost use Rattle.book_commands.specs.Logged.{slices_told};
ghost use Rattle.book_commands.specs.Sample.{RepliesToSample, undecided_reply, answer_to, counts_text, size_text, tally_of, released_text, undecided_text};

use crate::logged::logged;
use crate::run_reply::RunReply;
use crate::run_status::RunStatus;
use crate::tally::{Tally, put_tally};
use book_model::Book;
use book_sample::{Sampler, sample_book};
use command_words::SampleSize;
use desk_words::OrderWords;
use findings::{Report, report_text};
use pb_base::limits::DEFAULT_BUDGET;
use pb_base::{Body, Fail, Memory, Text, put_number};
use release::{Judged, Released, judge};
use release_check::{NotReleased, try_release};
use std::alloc::Global;

/// Generates the book of this size, releases it, and counts what its orders come to.
pub fn sample_reply(alloc: Global, size: &SampleSize) -> Result<RunReply, Memory>
    ensures { IfOk result (RepliesToSample size.now) }
{
    let text = sample_book(alloc, size.start(), codes_of(size))?;
    match try_release(alloc, text, DEFAULT_BUDGET) {
        Ok(released) => released_reply(alloc, size, &released),
        Err(Fail::Refused(why)) => refused_reply(alloc, size, why),
        Err(Fail::Memory) => Err(Memory),
    }
}

// The number of codes, which a generated book may have.
fn codes_of(size: &SampleSize) -> u32
    ensures value { result ≡ size.now.codes }
    ensures lawful { MaySample result }
{
    size.codes()
}

fn released_reply(alloc: Global, size: &SampleSize, released: &Released) -> Result<RunReply, Memory>
    requires { released.now.text ≡ sample_text size.now.start size.now.codes }
    ensures { IfOk result (RepliesToSample size.now) }
{
    let book = released.book();
    let tally = judge_orders(alloc, released, size)?;
    let text = released_text(alloc, size, book, tally)?;
    Ok(RunReply::plain(alloc, text, RunStatus::Done))
}

fn released_text(
    alloc: Global,
    size: &SampleSize,
    book: &Book,
    tally: Tally,
) -> Result<Body, Memory>
    requires { tally ≡ tally_of book.now size.now }
    ensures { IfOk result (λ text. text ≡ released_text size.now book.now) }
{
    let mut text = Text::new(alloc);
    put_size(&mut text, size)?;
    put_counts(&mut text, book)?;
    text.put(b"released\n")?;
    put_tally(&mut text, tally)?;
    Ok(text.into_body())
}

// A generated book is one within all limits that can be released, so that only a question that was left keeps it back.
fn refused_reply(alloc: Global, size: &SampleSize, why: NotReleased) -> Result<RunReply, Memory>
    requires lawful { MaySample size.now.codes }
    requires refusal { IsRefusal (sample_text size.now.start size.now.codes) DEFAULT_BUDGET why }
    ensures { IfOk result (RepliesToSample size.now) }
{
    match why {
        NotReleased::Undecided { book, report } => undecided_reply(alloc, size, &book, report),
        NotReleased::Text(_) => unreachable!(),
        NotReleased::Found { .. } => unreachable!(),
        NotReleased::Limit(_) => unreachable!(),
    }
}

fn undecided_reply(
    alloc: Global,
    size: &SampleSize,
    book: &Book,
    report: Report,
) -> Result<RunReply, Memory>
    requires few { slices_told report ≤ MOST_SLICES }
    ensures { IfOk result (λ reply. reply ≡ undecided_reply size.now book.now report) }
{
    let text = undecided_text(alloc, size, book, &report)?;
    let notes = logged(alloc, report)?;
    Ok(RunReply::new(text, RunStatus::Undecided, notes))
}

fn undecided_text(
    alloc: Global,
    size: &SampleSize,
    book: &Book,
    report: &Report,
) -> Result<Body, Memory>
    ensures { IfOk result (λ text. text ≡ undecided_text size.now book.now report.now) }
{
    let told = report_text(alloc, book, report)?;
    let mut text = Text::new(alloc);
    put_undecided(&mut text, size, book, told.as_slice())?;
    Ok(text.into_body())
}

// The report is told behind the sizes.
fn put_undecided(text: &mut Text, size: &SampleSize, book: &Book, told: &[u8]) -> Result<(), Memory>
    ensures { let behind = counts_text book.now ++ (codes "undecided\n" ++ told.now) in
        OnOk result (text.new ≡ text.old ++ (size_text size.now ++ behind)) }
{
    put_size(text, size)?;
    put_counts(text, book)?;
    text.put(b"undecided\n")?;
    text.put(told)
}

// `sample START CODES ORDERS`.
fn put_size(text: &mut Text, size: &SampleSize) -> Result<(), Memory>
    ensures { OnOk result (text.new ≡ text.old ++ size_text size.now) }
{
    text.put(b"sample")?;
    put_number(text, u64::from(size.start()))?;
    put_number(text, u64::from(codes_of(size)))?;
    put_number(text, u64::from(size.orders()))?;
    text.put(b"\n")
}

// `codes C rules R variants V`, where the rules are of both kinds.
fn put_counts(text: &mut Text, book: &Book) -> Result<(), Memory>
    ensures { OnOk result (text.new ≡ text.old ++ counts_text book.now) }
{
    let rules = book.supplements().len() + book.constructs().len();
    text.put(b"codes")?;
    put_number(text, u64::from(book.codes().len()))?;
    text.put(b" rules")?;
    put_number(text, rules as u64)?;
    text.put(b" variants")?;
    put_number(text, book.variants().len() as u64)?;
    text.put(b"\n")
}

fn judge_orders(alloc: Global, released: &Released, size: &SampleSize) -> Result<Tally, Memory>
    requires { book_of (sample_text size.now.start size.now.codes) ≡ Ok released.now.book }
    ensures { IfOk result (λ tally. tally ≡ tally_of released.now.book size.now) }
{
    let mut sampler = Sampler::after_book(size.start(), codes_of(size));
    let mut tally = Tally::none();
    for _ in 0..size.orders() {
        let order = sampler.next_order(alloc)?;
        tally = tally.with(&judge_order(alloc, released, &order)?);
    }
    Ok(tally)
}

// What an order without fault comes to.
fn judge_order(alloc: Global, released: &Released, order: &OrderWords) -> Result<Judged, Memory>
    requires { order_fault released.now.book order.now.day order.now.codes ≡ None }
    ensures { IfOk result (λ judged. answer_to released.now.book order.now ≡ Ok (as_outcome judged)) }
{
    match judge(alloc, released, order.day, order.codes.as_slice()) {
        Ok(judged) => Ok(judged),
        Err(Fail::Refused(_)) => unreachable!(),
        Err(Fail::Memory) => Err(Memory),
    }
}

//! Many orders, judged again by some workers side by side.
ghost use Rattle.std.specs.Prelude.{◌≡◌, ℕ, ◌<◌, All, IfOk, Ok, length, map, slice_index_or};
ghost use Rattle.order_again.specs.Again.{IsAccepted, IsAgainOf, AreAgain};
ghost use Rattle.order_again.specs.declared.kept.Stock.{Stock};

use crate::judging::judge_again;
use crate::kept::Stock;
use crate::outcome::Again;
use pb_base::Memory;
use release::Released;
use std::alloc::Global;
use std::thread;
use std::thread::Threads;

/// What each of these orders comes to by another book, in their order. So many workers share the work; each answer is that of
/// the order alone, whoever gives it. Where no thread can be had, one worker does it all.
pub fn rejudge<R: Threads + Sync>(
    rt: &R,
    alloc: Global,
    to: &Released,
    stock: &[Stock],
    workers: u32,
) -> Result<Vec<Again>, Memory>
    requires some { 0 < workers }
    requires accepted { All IsAccepted stock.now }
    ensures { IfOk result (λ told. AreAgain to.now.book stock.now told.items) }
{
    let mut told = untold(alloc, stock.len())?;
    judge_all(rt, alloc, to, stock, &mut told, workers as usize)
}

// The same with a place for each answer.
fn judge_all<R: Threads + Sync>(
    rt: &R,
    alloc: Global,
    to: &Released,
    stock: &[Stock],
    told: &mut [Result<Again, Memory>],
    workers: usize,
) -> Result<Vec<Again>, Memory>
    requires some { 0 < workers }
    requires same { length told.old ≡ length stock.now }
    requires accepted { All IsAccepted stock.now }
    ensures { IfOk result (λ all. AreAgain to.now.book stock.now all.items) }
{
    judge_each(rt, alloc, to, stock, told, workers);
    let all = gathered(alloc, told)?;
    Ok(all)
}

// So many places for answers, each without one.
fn untold(alloc: Global, count: usize) -> Result<Vec<Result<Again, Memory>>, Memory>
    ensures { IfOk result (λ told. length told.items ≡ count) }
{
    let mut told = Vec::with_capacity(alloc, count)?;
    for _ in 0..count {
        told.push(Err(Memory))?;
    }
    Ok(told)
}

fn judge_each<R: Threads + Sync>(
    rt: &R,
    alloc: Global,
    to: &Released,
    stock: &[Stock],
    told: &mut [Result<Again, Memory>],
    workers: usize,
)
    requires some { 0 < workers }
    requires same { length told.old ≡ length stock.now }
    requires accepted { All IsAccepted stock.now }
    ensures same { length told.new ≡ length stock.now }
    ensures each { (k : ℕ) (s : Stock) (d : _) → k < length stock.now
        → IfOk (slice_index_or told.new k d) (IsAgainOf to.now.book (slice_index_or stock.now k s)) }
{
    thread::for_each_mut(
        rt,
        told,
        workers,
        &|place, answer| {
            *answer = judge_one(alloc, to, &stock[place]);
        },
    );
}

fn judge_one(alloc: Global, to: &Released, stock: &Stock) -> Result<Again, Memory>
    requires { IsAccepted stock.now }
    ensures { IfOk result (IsAgainOf to.now.book stock.now) }
{
    let own: &Released = &stock.book;
    let codes = stock.order.codes.as_slice();
    judge_again(alloc, own, to, stock.order.day, codes)
}

// All answers, or want of memory where one lacks.
fn gathered(alloc: Global, told: &[Result<Again, Memory>]) -> Result<Vec<Again>, Memory>
    ensures { IfOk result (λ all. told.now ≡ map Ok all.items) }
{
    let mut all = Vec::with_capacity(alloc, told.len())?;
    for one in told {
        match *one {
            Ok(again) => all.push(again)?,
            Err(Memory) => return Err(Memory),
        }
    }
    Ok(all)
}

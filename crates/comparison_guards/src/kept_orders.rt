//! How no kept order is judged again.
ghost use Rattle.std.specs.Prelude.{ℕ, ◌<◌, All, IfOk, length, slice_index_or};
ghost use Rattle.order_again.specs.Again.{IsAccepted};
ghost use Rattle.order_again.specs.declared.kept.Stock.{Stock};
ghost use Rattle.order_again.specs.declared.outcome.Again.{Again};
ghost use Rattle.comparison_guards.specs.KeptOrders.{IsRefusedIfTold, IsToldIfRefused};

use order_again::{Again, Stock, rejudge};
use pb_base::Memory;
use release::Released;
use std::alloc::Global;
use std::thread::Threads;

/// An order that the new book refuses is told as accepted, since its own book accepts it.
pub fn no_order_is_judged_by_its_own_book<R: Threads + Sync>(
    rt: &R,
    alloc: Global,
    to: &Released,
    stock: &[Stock],
    workers: u32,
) -> Result<Vec<Again>, Memory>
    requires some { 0 < workers }
    requires accepted { All IsAccepted stock.now }
    ensures { IfOk result (λ told. (k : ℕ) (s : Stock) (again : Again) → k < length stock.now
        → IsToldIfRefused to.now.book (slice_index_or stock.now k s) (slice_index_or told.items k again)) }
{
    rejudge(rt, alloc, to, stock, workers)
}

/// An order is told the answer of its neighbour: as refused, though the new book accepts it.
pub fn no_order_is_told_the_answer_of_another<R: Threads + Sync>(
    rt: &R,
    alloc: Global,
    to: &Released,
    stock: &[Stock],
    workers: u32,
) -> Result<Vec<Again>, Memory>
    requires some { 0 < workers }
    requires accepted { All IsAccepted stock.now }
    ensures { IfOk result (λ told. (k : ℕ) (s : Stock) (again : Again) → k < length stock.now
        → IsRefusedIfTold to.now.book (slice_index_or stock.now k s) (slice_index_or told.items k again)) }
{
    rejudge(rt, alloc, to, stock, workers)
}

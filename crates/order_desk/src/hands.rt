//! Who checks the certificates of books and judges kept orders when a desk is started.
ghost use Rattle.std.specs.Prelude.{IfOk, map};
ghost use Rattle.std.specs.List.{AllZip};
ghost use Rattle.std.specs.Thread.{IsSync};
ghost use Rattle.order_desk.specs.Checked.{AreChecked};
ghost use Rattle.order_desk.specs.Judged.{IsJudged};

use crate::KeptBook;
use crate::checking::{BookPlace, check_all, check_by};
use crate::judging::{RowJudge, judge_rows};
use keeper::OrderRow;
use pb_base::Memory;
use shared_work::make_all;
use std::alloc::Global;
use std::thread::Threads;

/// The workers of a start. All of them give the same answers.
pub trait Hands {
    /// The hands can work: they may share what starts their threads.
    ghost AreReady: { Self → Type 0 };

    /// Checks the certificate of each row, and leaves at its place what text and certificate make.
    fn check(&self, alloc: Global, places: &mut [BookPlace])
        requires { AreReady self.now }
        ensures { AreChecked places.old places.new };

    /// Of each row, in their sequence, whether the book of its order is there and accepts it. Of a row with a wrong day or
    /// code it may say anything.
    fn judge(
        &self,
        alloc: Global,
        books: &[KeptBook],
        rows: &[OrderRow],
    ) -> Result<Vec<bool>, Memory>
        requires { AreReady self.now }
        ensures { IfOk result
            (λ told. AllZip (IsJudged (map (λ b. b.released) books.now)) rows.now told.items) };
}

/// The caller's thread alone.
#[derive(Drop)]
pub struct OneHand;

impl Hands for OneHand {
    ghost AreReady = { λ h. Unit {0} };

    fn check(&self, alloc: Global, places: &mut [BookPlace]) {
        check_all(alloc, places);
    }

    fn judge(
        &self,
        alloc: Global,
        books: &[KeptBook],
        rows: &[OrderRow],
    ) -> Result<Vec<bool>, Memory> {
        judge_rows(alloc, books, rows)
    }
}

/// So many workers, of which each has a run of neighbours, so that at most so many certificates are checked at once. Where no
/// thread can be had, one does it all.
#[derive(Drop)]
pub struct ManyHands<'a, R> {
    pub rt: &'a R,
    pub workers: u32,
}

impl<'a, R: Threads + Sync> Hands for ManyHands<'a, R> {
    ghost AreReady = { λ h. IsSync R.row };

    fn check(&self, alloc: Global, places: &mut [BookPlace]) {
        if self.workers > 1 {
            check_by(self.rt, alloc, places, self.workers);
        } else {
            check_all(alloc, places);
        }
    }

    fn judge(
        &self,
        alloc: Global,
        books: &[KeptBook],
        rows: &[OrderRow],
    ) -> Result<Vec<bool>, Memory> {
        if self.workers > 1 {
            let work = RowJudge { books };
            make_all(self.rt, alloc, &work, rows, self.workers)
        } else {
            judge_rows(alloc, books, rows)
        }
    }
}

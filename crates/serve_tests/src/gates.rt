//! Gates at which a judging waits for another. No wait is longer than so many turns of other threads, so that each test ends.

use answering::Gate;
use pb_base::Id;
use std::sync::atomic::{AtomicU64, Ordering};
use std::thread;

const MOST_TURNS: u32 = 1_000_000;

/// Each of two judgings waits until the other has begun too.
#[derive(Drop)]
pub(crate) struct Meeting {
    // How many are at the gate.
    inside: AtomicU64,
    // 1 once two were there together.
    met: AtomicU64,
}

impl Meeting {
    pub(crate) fn new() -> Meeting {
        Meeting {
            inside: AtomicU64::new(0),
            met: AtomicU64::new(0),
        }
    }

    /// Whether two judgings were at the gate together.
    pub(crate) fn has_met(&self) -> bool {
        self.met.load(Ordering::SeqCst) > 0
    }
}

impl Gate for Meeting {
    fn judging(&self, _: &Id) {
        self.inside.fetch_add(1, Ordering::SeqCst);
        for _ in 0..MOST_TURNS {
            if self.inside.load(Ordering::SeqCst) >= 2 {
                self.met.store(1, Ordering::SeqCst);
            }
            if self.has_met() {
                break;
            }
            thread::yield_now();
        }
        self.inside.fetch_sub(1, Ordering::SeqCst);
    }
}

/// The first work for ANNA waits until a judging of an order has begun, and that one until the second work for ANNA has.
#[derive(Drop)]
pub(crate) struct Holding {
    orders: AtomicU64,
    drafts: AtomicU64,
    late: AtomicU64,
}

impl Holding {
    pub(crate) fn new() -> Holding {
        Holding {
            orders: AtomicU64::new(0),
            drafts: AtomicU64::new(0),
            late: AtomicU64::new(0),
        }
    }

    /// Whether a wait went on to its end.
    pub(crate) fn is_late(&self) -> bool {
        self.late.load(Ordering::SeqCst) > 0
    }

    // Waits until so many have come.
    fn wait_for(&self, come: &AtomicU64, least: u64) {
        for _ in 0..MOST_TURNS {
            if come.load(Ordering::SeqCst) >= least {
                return;
            }
            thread::yield_now();
        }
        self.late.store(1, Ordering::SeqCst);
    }
}

impl Gate for Holding {
    fn judging(&self, caller: &Id) {
        if caller.bytes() == b"ANNA".as_slice() {
            self.drafts.fetch_add(1, Ordering::SeqCst);
            self.wait_for(&self.orders, 1);
        } else {
            self.orders.fetch_add(1, Ordering::SeqCst);
            self.wait_for(&self.drafts, 2);
        }
    }
}
